//! What each is called, and the section of the standard.
ghost use Rattle.std.specs.Prelude.{◌≡◌};
ghost use Rattle.piece_notes.specs.Kinds.{cause_name, cause_section, ending_name, ending_section, width_name, width_section};

use audit_judged::{Cause, EndingRemark, WidthKind};

pub(crate) fn width_name(kind: WidthKind) -> &'static str
    ensures { result.now ≡ width_name kind }
{
    match kind {
        WidthKind::StartLow => "start-low",
        WidthKind::StartTotal => "start-total",
        WidthKind::BitTotal => "bit-total",
        WidthKind::LateAck => "late-ack",
        WidthKind::ZeroLow | WidthKind::OneLow | WidthKind::AckLow | WidthKind::LongAck => {
            "bit-low"
        }
    }
}

pub(crate) fn width_section(kind: WidthKind) -> &'static str
    ensures { result.now ≡ width_section kind }
{
    match kind {
        WidthKind::StartLow | WidthKind::StartTotal => "5.2.1",
        WidthKind::LateAck => "5.2.3",
        WidthKind::ZeroLow
        | WidthKind::OneLow
        | WidthKind::AckLow
        | WidthKind::LongAck
        | WidthKind::BitTotal => "5.2.2",
    }
}

/// What a remark of an ending is called.
pub fn ending_name(remark: EndingRemark) -> &'static str
    ensures { result.now ≡ ending_name remark }
{
    match remark {
        EndingRemark::Stray(_) => "stray",
        EndingRemark::LoneStart(_) => "lone-start",
        EndingRemark::Stuck(_) => "stuck",
        EndingRemark::LowDrive(_, _, _) => "low-drive",
        EndingRemark::Overrun(_) => "overrun",
        EndingRemark::Intruder(_, _) => "intruder",
        EndingRemark::TooLong => "too-long",
        EndingRemark::Unfinished(_) => "unfinished",
        EndingRemark::Stops(_) => "stops",
        EndingRemark::AfterEnd(_) => "after-eom",
    }
}

/// The section of the standard that a remark of an ending goes by.
pub fn ending_section(remark: EndingRemark) -> &'static str
    ensures { result.now ≡ ending_section remark }
{
    match remark {
        EndingRemark::Stray(_) | EndingRemark::LoneStart(_) => "5.2.1",
        EndingRemark::Stuck(_) => "5",
        EndingRemark::LowDrive(_, _, _) => "7.4",
        EndingRemark::Overrun(_) => "9.1",
        EndingRemark::Intruder(_, _) => "7.2",
        EndingRemark::TooLong | EndingRemark::Stops(_) => "6.1",
        EndingRemark::Unfinished(_) | EndingRemark::AfterEnd(_) => "6.1.2",
    }
}

/// What a cause is called.
pub fn cause_name(cause: Cause) -> &'static str
    ensures { result.now ≡ cause_name cause }
{
    match cause {
        Cause::ArbitrationLost => "arbitration-lost",
        Cause::PollUnanswered => "poll-unanswered",
        Cause::NotAcknowledged => "not-acknowledged",
        Cause::Refused => "refused",
        Cause::CutByTheEnd => "cut-by-the-end",
        Cause::MidFrame => "mid-frame",
    }
}

/// The section of the standard that a cause goes by, or nothing where the capture cuts.
pub fn cause_section(cause: Cause) -> &'static str
    ensures { result.now ≡ cause_section cause }
{
    match cause {
        Cause::ArbitrationLost => "7.2",
        Cause::PollUnanswered => "7.3",
        Cause::NotAcknowledged | Cause::Refused => "6.1.2",
        Cause::CutByTheEnd | Cause::MidFrame => "",
    }
}
