//! The table of kinds: what each is called, the section of the standard, and whether the standard has it otherwise.
ghost use Rattle.std.specs.Prelude.{◌≡◌};
ghost use Rattle.audit_notes.specs.Kinds.{is_note, is_remark, name_of, section_of, type_of};

use audit_judged::{Cause, EndingRemark};
use piece_notes::{cause_name, cause_section, ending_name, ending_section};

/// What a line of an audit says of readings.
#[derive(Clone, Copy, Debug, PartialEq, Eq)]
pub enum NoteKind {
    /// How many bad starts in a row came before.
    BadStarts,
    /// A request without an answer.
    NoAnswer,
    /// A request that was answered too late.
    LateAnswer,
    /// A frame before its signal free time.
    Free,
    /// A start bit that is low for too short or too long.
    StartLow,
    /// A start bit after which the next fall comes too soon or too late.
    StartTotal,
    /// The same of another bit.
    BitLow,
    BitTotal,
    /// A low drive, and one that began while the line was low.
    LowDrive,
    DriveWithin,
    /// A frame that ends without its last block.
    Unfinished,
    /// A block that was not acknowledged, or was refused; and one after the sixth attempt.
    Attempt,
    LastAttempt,
    /// A frame that goes on after a block that was not taken.
    GoesOn,
    /// How a frame ends; and why, where the standard has nothing against it.
    Ending(EndingRemark),
    Cause(Cause),
    /// A device with two physical addresses.
    Moved,
    /// A message that came to others than it is for.
    Receivers,
    /// A message without some of its operands.
    Operands,
    /// An active source of which nobody reports the address.
    Unreported,
    /// What was read of a frame that was not read whole.
    Read,
    /// What the standard calls what a line leaves as bytes.
    Word,
    /// What stands before the summary.
    Summary,
    /// How many frames an initiator sent.
    Sender,
    /// The least, greatest and mean of widths.
    Widths,
}

impl NoteKind {
    /// What it is called.
    pub fn name(self) -> &'static str
        ensures { result.now ≡ name_of self }
    {
        match self {
            NoteKind::BadStarts => "bad-starts",
            NoteKind::NoAnswer => "no-answer",
            NoteKind::LateAnswer => "late-answer",
            NoteKind::Free => "free",
            NoteKind::StartLow => "start-low",
            NoteKind::StartTotal => "start-total",
            NoteKind::BitLow => "bit-low",
            NoteKind::BitTotal => "bit-total",
            NoteKind::LowDrive => "low-drive",
            NoteKind::DriveWithin => "drive-within",
            NoteKind::Unfinished => "unfinished",
            NoteKind::Attempt => "attempt",
            NoteKind::LastAttempt => "too-many-attempts",
            NoteKind::GoesOn => "goes-on",
            NoteKind::Ending(remark) => ending_name(remark),
            NoteKind::Cause(cause) => cause_name(cause),
            NoteKind::Moved => "moved",
            NoteKind::Receivers => "receivers",
            NoteKind::Operands => "operands",
            NoteKind::Unreported => "nobody-there",
            NoteKind::Read => "read",
            NoteKind::Word => "word",
            NoteKind::Summary => "summary",
            NoteKind::Sender => "sender",
            NoteKind::Widths => "widths",
        }
    }

    /// The section of HDMI 1.4, CEC that it goes by, or nothing.
    pub fn section(self) -> &'static str
        ensures { result.now ≡ section_of self }
    {
        match self {
            NoteKind::NoAnswer | NoteKind::LateAnswer => "9.2",
            NoteKind::Free => "9.1",
            NoteKind::StartLow | NoteKind::StartTotal => "5.2.1",
            NoteKind::BitLow | NoteKind::BitTotal => "5.2.2",
            NoteKind::LowDrive | NoteKind::DriveWithin => "7.4",
            NoteKind::Unfinished | NoteKind::Attempt => "6.1.2",
            NoteKind::LastAttempt | NoteKind::GoesOn => "7.1",
            NoteKind::Ending(remark) => ending_section(remark),
            NoteKind::Cause(cause) => cause_section(cause),
            NoteKind::Moved => "10.1",
            NoteKind::Receivers | NoteKind::Operands => "13",
            NoteKind::Unreported => "11.2",
            NoteKind::BadStarts
            | NoteKind::Read
            | NoteKind::Word
            | NoteKind::Summary
            | NoteKind::Sender
            | NoteKind::Widths => "",
        }
    }

    /// Whether the standard has it otherwise. A block that nobody takes, a frame that ends for a lawful cause, a device that moves, an address that nobody reported in
    /// this capture and bad starts are no faults of anybody.
    pub fn is_remark(self) -> bool
        ensures { result ≡ is_remark self }
    {
        match self {
            NoteKind::NoAnswer
            | NoteKind::LateAnswer
            | NoteKind::Free
            | NoteKind::StartLow
            | NoteKind::StartTotal
            | NoteKind::BitLow
            | NoteKind::BitTotal
            | NoteKind::LowDrive
            | NoteKind::DriveWithin
            | NoteKind::Unfinished
            | NoteKind::LastAttempt
            | NoteKind::GoesOn
            | NoteKind::Ending(_)
            | NoteKind::Receivers
            | NoteKind::Operands => true,
            NoteKind::BadStarts
            | NoteKind::Attempt
            | NoteKind::Cause(_)
            | NoteKind::Moved
            | NoteKind::Unreported
            | NoteKind::Read
            | NoteKind::Word
            | NoteKind::Summary
            | NoteKind::Sender
            | NoteKind::Widths => false,
        }
    }

    // Whether it is said of a reading, and not of all of them, or of its widths.
    fn is_note(self) -> bool
        ensures { result ≡ is_note self }
    {
        !matches!(
            self,
            NoteKind::Summary | NoteKind::Sender | NoteKind::Widths
        )
    }

    // What the object of its line is called.
    pub(crate) fn object(self) -> &'static str
        ensures { result.now ≡ type_of self }
    {
        if self.is_remark() {
            "remark"
        } else if self.is_note() {
            "note"
        } else {
            self.name()
        }
    }
}
