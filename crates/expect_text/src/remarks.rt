//! How remarks of an audit are called.
ghost use Rattle.std.specs.Prelude.{◌≡◌};
ghost use Rattle.expect_text.specs.Remarks.{is_called, is_remark_called};

use crate::pattern::fits;
use audit_judged::EndingRemark;
use audit_notes::NoteKind;
use text_core::first_word;

/// The kinds of remarks. A number in one is no part of how it is called.
const REMARKS: &[NoteKind] = &[
    NoteKind::NoAnswer,
    NoteKind::LateAnswer,
    NoteKind::Free,
    NoteKind::StartLow,
    NoteKind::StartTotal,
    NoteKind::BitLow,
    NoteKind::BitTotal,
    NoteKind::LowDrive,
    NoteKind::DriveWithin,
    NoteKind::Unfinished,
    NoteKind::LastAttempt,
    NoteKind::GoesOn,
    NoteKind::Ending(EndingRemark::Stops(0)),
    NoteKind::Ending(EndingRemark::LoneStart(0)),
    NoteKind::Receivers,
    NoteKind::Operands,
];

// Whether one of these kinds is called so.
fn is_called(name: &[u8], kinds: &[NoteKind]) -> bool
    ensures { result ≡ is_called name.now kinds.now }
{
    let mut rest = kinds;
    'kinds: while let [kind, others @ ..] = rest {
        if fits(name, kind.name().as_bytes()) {
            return true;
        }
        rest = others;
    }
    false
}

/// Whether the first word of a pattern is met by what some kind of remarks is called.
pub fn is_remark_called(pattern: &[u8]) -> bool
    ensures { result ≡ is_remark_called pattern.now }
{
    let (name, _words) = first_word(pattern);
    is_called(name, REMARKS)
}
