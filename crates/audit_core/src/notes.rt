//! What is found of a reading, as notes.
ghost use Rattle.std.specs.Prelude.{◌≡◌, option_map};
ghost use Rattle.audit_core.specs.Lines.{ending_note, goes_on_note};

use audit_judged::{Party, Said};
use audit_notes::AuditNote;
use audit_remarks::{
    BadStartSeries, Failure, FrameHead, Missing, Receivers, TooSoon, initiator_read, party_of,
};
use audit_widths::Misfit;
use text_core::Phys;

pub(crate) fn series_note(series: Option<BadStartSeries>) -> Option<AuditNote>
    ensures { result ≡ option_map AuditNote.BadStarts series }
{
    match series {
        None => None,
        Some(series) => Some(AuditNote::BadStarts(series)),
    }
}

pub(crate) fn soon_note(soon: Option<TooSoon>) -> Option<AuditNote>
    ensures { result ≡ option_map AuditNote.Free soon }
{
    match soon {
        None => None,
        Some(soon) => Some(AuditNote::Free(soon)),
    }
}

pub(crate) fn misfit_note(misfit: Option<Misfit>) -> Option<AuditNote>
    ensures { result ≡ option_map AuditNote.Misfit misfit }
{
    match misfit {
        None => None,
        Some(misfit) => Some(AuditNote::Misfit(misfit)),
    }
}

pub(crate) fn drive_note(drive: Option<u64>) -> Option<AuditNote>
    ensures { result ≡ option_map AuditNote.LowDrive drive }
{
    match drive {
        None => None,
        Some(drive) => Some(AuditNote::LowDrive(drive)),
    }
}

pub(crate) fn within_note(within: Option<u64>) -> Option<AuditNote>
    ensures { result ≡ option_map AuditNote.DriveWithin within }
{
    match within {
        None => None,
        Some(within) => Some(AuditNote::DriveWithin(within)),
    }
}

pub(crate) fn block_note(block: Option<usize>) -> Option<AuditNote>
    ensures { result ≡ option_map AuditNote.Unfinished block }
{
    match block {
        None => None,
        Some(block) => Some(AuditNote::Unfinished(block)),
    }
}

pub(crate) fn attempt_note(attempt: Option<Failure>) -> Option<AuditNote>
    ensures { result ≡ option_map AuditNote.Attempt attempt }
{
    match attempt {
        None => None,
        Some(attempt) => Some(AuditNote::Attempt(attempt)),
    }
}

/// That a frame of these bits goes on after a block that was not taken.
pub(crate) fn goes_on_note(bits: &[bool], block: Option<usize>) -> Option<AuditNote>
    ensures { result ≡ goes_on_note bits.now block }
{
    match block {
        None => None,
        Some(block) => Some(AuditNote::GoesOn(block, Party::Initiator(initiator_read(bits)))),
    }
}

/// How a reading of these bits ends, where something is said of that.
pub(crate) fn ending_note(bits: &[bool], said: Said) -> Option<AuditNote>
    ensures { result ≡ ending_note bits.now said }
{
    match said {
        Said::Nothing => None,
        Said::Allowed(cause) => Some(AuditNote::Cause(cause)),
        Said::Remarked(remark) => Some(AuditNote::Ending(remark, party_of(bits, remark))),
    }
}

pub(crate) fn receivers_note(receivers: Option<Receivers>) -> Option<AuditNote>
    ensures { result ≡ option_map AuditNote.Receivers receivers }
{
    match receivers {
        None => None,
        Some(receivers) => Some(AuditNote::Receivers(receivers)),
    }
}

pub(crate) fn operands_note(operands: Option<Missing>) -> Option<AuditNote>
    ensures { result ≡ option_map AuditNote.Operands operands }
{
    match operands {
        None => None,
        Some(operands) => Some(AuditNote::Operands(operands)),
    }
}

pub(crate) fn head_note(head: Option<FrameHead>) -> Option<AuditNote>
    ensures { result ≡ option_map AuditNote.Read head }
{
    match head {
        None => None,
        Some(head) => Some(AuditNote::Read(head)),
    }
}

/// That a device reported another address before.
pub(crate) fn moved_note(initiator: u8, before: Option<Phys>) -> Option<AuditNote>
    ensures { result ≡ option_map (AuditNote.Moved initiator) before }
{
    match before {
        None => None,
        Some(phys) => Some(AuditNote::Moved(initiator, phys)),
    }
}
