//! What an audit says of readings.
ghost use Rattle.std.specs.Prelude.{◌≡◌};
ghost use Rattle.audit_notes.specs.Notes.{attempt_kind, kind_of, misfit_kind, spread_name};

use crate::kind::NoteKind;
use audit_judged::{Cause, EndingRemark, Party};
use audit_remarks::{
    BadStartSeries, Failure, FrameCount, FrameHead, Mention, Missing, Receivers, Request, TooSoon,
};
use audit_widths::{Misfit, SlotWidth};
use text_core::Phys;

/// The first attempt, and five retransmissions (CEC 7.1).
pub(crate) const ATTEMPTS: u64 = 6;

/// Which widths are summed up.
#[derive(Clone, Copy, Debug, PartialEq, Eq)]
pub enum SpreadKind {
    StartLow,
    StartTotal,
    OneLow,
    ZeroLow,
    BitTotal,
}

impl SpreadKind {
    /// What they are called.
    pub fn name(self) -> &'static str
        ensures { result.now ≡ spread_name self }
    {
        match self {
            SpreadKind::StartLow => "start low",
            SpreadKind::StartTotal => "start total",
            SpreadKind::OneLow => "one low",
            SpreadKind::ZeroLow => "zero low",
            SpreadKind::BitTotal => "bit total",
        }
    }
}

/// Widths of one kind, in microseconds. The mean is rounded down.
#[derive(Clone, Copy, Debug, PartialEq, Eq)]
pub struct WidthSummary {
    pub least: u64,
    pub greatest: u64,
    pub mean: u64,
    pub count: u64,
}

/// What a line below a reading says of it, or one at the end of all of them. Times are in microseconds.
#[derive(Clone, Copy, Debug, PartialEq, Eq)]
pub enum AuditNote {
    /// Bad starts in a row that came before.
    BadStarts(BadStartSeries),
    /// A request without an answer.
    NoAnswer(Request),
    /// A request was answered so long after it.
    LateAnswer(u64),
    /// A frame before its signal free time.
    Free(TooSoon),
    /// A width out of its window.
    Misfit(Misfit),
    /// A low drive of this width.
    LowDrive(u64),
    /// One that began while the line was low.
    DriveWithin(u64),
    /// A frame that ends after this block without its last one.
    Unfinished(usize),
    /// A block that was not acknowledged, or was refused.
    Attempt(Failure),
    /// A frame that goes on after this block, which was not taken, and who is at fault.
    GoesOn(usize, Party),
    /// How a frame ends, and who is at fault.
    Ending(EndingRemark, Party),
    /// Why a frame ends though the standard has nothing against it.
    Cause(Cause),
    /// The device of this logical address reported this physical one before.
    Moved(u8, Phys),
    /// A message came to others than it is for.
    Receivers(Receivers),
    /// A message without some of its operands.
    Operands(Missing),
    /// An active source of which nobody reports the address.
    Unreported(Mention),
    /// What was read of a frame that was not read whole.
    Read(FrameHead),
    /// What stands before the summary.
    Summary,
    /// The frames of this initiator.
    Sender(u8, FrameCount),
    /// The least, greatest and mean of widths.
    Widths(SpreadKind, WidthSummary),
}

/// The kind of a width that is out of its window.
pub(crate) fn misfit_kind(misfit: Misfit) -> NoteKind
    ensures { result ≡ misfit_kind misfit }
{
    match (misfit.slot == 0, misfit.kind) {
        (true, SlotWidth::Low) => NoteKind::StartLow,
        (true, SlotWidth::Total) => NoteKind::StartTotal,
        (false, SlotWidth::Low) => NoteKind::BitLow,
        (false, SlotWidth::Total) => NoteKind::BitTotal,
    }
}

/// The kind of a block that was not taken.
pub(crate) fn attempt_kind(failure: Failure) -> NoteKind
    ensures { result ≡ attempt_kind failure }
{
    if ATTEMPTS < failure.attempt {
        NoteKind::LastAttempt
    } else {
        NoteKind::Attempt
    }
}

impl AuditNote {
    /// Its kind.
    pub fn kind(self) -> NoteKind
        ensures { result ≡ kind_of self }
    {
        match self {
            AuditNote::BadStarts(_) => NoteKind::BadStarts,
            AuditNote::NoAnswer(_) => NoteKind::NoAnswer,
            AuditNote::LateAnswer(_) => NoteKind::LateAnswer,
            AuditNote::Free(_) => NoteKind::Free,
            AuditNote::Misfit(misfit) => misfit_kind(misfit),
            AuditNote::LowDrive(_) => NoteKind::LowDrive,
            AuditNote::DriveWithin(_) => NoteKind::DriveWithin,
            AuditNote::Unfinished(_) => NoteKind::Unfinished,
            AuditNote::Attempt(failure) => attempt_kind(failure),
            AuditNote::GoesOn(_, _) => NoteKind::GoesOn,
            AuditNote::Ending(remark, _) => NoteKind::Ending(remark),
            AuditNote::Cause(cause) => NoteKind::Cause(cause),
            AuditNote::Moved(_, _) => NoteKind::Moved,
            AuditNote::Receivers(_) => NoteKind::Receivers,
            AuditNote::Operands(_) => NoteKind::Operands,
            AuditNote::Unreported(_) => NoteKind::Unreported,
            AuditNote::Read(_) => NoteKind::Read,
            AuditNote::Summary => NoteKind::Summary,
            AuditNote::Sender(_, _) => NoteKind::Sender,
            AuditNote::Widths(_, _) => NoteKind::Widths,
        }
    }
}
