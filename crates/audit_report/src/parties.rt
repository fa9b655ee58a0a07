//! Who can be charged with what an audit says.
ghost use Rattle.std.specs.Prelude.{◌≡◌};
ghost use Rattle.audit_report.specs.Parties.{charged, charged_width, nobody, parties_of, party_at, sender_of, taker_of};

use crate::widths::{is_ack_low, is_zero};
use audit_judged::Party;
use audit_notes::AuditNote;
use audit_remarks::{destination_of, initiator_of, seeks_address};
use audit_widths::Misfit;
use line_frames::Addr;

/// The bits of a header's initiator and destination (CEC 6.1.1).
const HEADER: usize = 8;

/// Who sends a reading, and whom it is for, where the line tells.
#[derive(Clone, Copy)]
pub struct Parties {
    pub(crate) sender: Option<u8>,
    pub(crate) taker: Option<u8>,
}

// The initiator, where the header was read. Who polls its own address may be another one.
fn sender_of(bits: &[bool]) -> Option<u8>
    ensures { result ≡ sender_of bits.now }
{
    if bits.len() < HEADER || seeks_address(bits) {
        return None;
    }
    Some(initiator_of(bits))
}

// The destination of a frame to one device, where the header was read.
fn taker_of(bits: &[bool]) -> Option<u8>
    ensures { result ≡ taker_of bits.now }
{
    if bits.len() < HEADER || destination_of(bits) == Addr::BROADCAST {
        return None;
    }
    Some(destination_of(bits))
}

impl Parties {
    /// Of no reading.
    pub(crate) const NOBODY: Parties = Parties {
        sender: None,
        taker: None,
    };

    /// Of a reading of these bits.
    pub(crate) fn of(bits: &[bool]) -> Parties
        ensures { result ≡ parties_of bits.now }
    {
        Parties {
            sender: sender_of(bits),
            taker: taker_of(bits),
        }
    }

    // With a width that is out of its window.
    fn charged_width(self, misfit: Misfit) -> Option<u8>
        ensures { result ≡ charged_width self misfit }
    {
        if !is_ack_low(misfit) {
            self.sender
        } else if is_zero(misfit) {
            self.taker
        } else {
            None
        }
    }

    /// Who is charged with what is said below a reading of these parties.
    pub(crate) fn charged(self, note: AuditNote) -> Option<u8>
        ensures { result ≡ charged self note }
    {
        match note {
            AuditNote::NoAnswer(request) => Some(request.destination),
            AuditNote::LateAnswer(_)
            | AuditNote::Free(_)
            | AuditNote::Unfinished(_)
            | AuditNote::Attempt(_)
            | AuditNote::Receivers(_)
            | AuditNote::Operands(_) => self.sender,
            AuditNote::Misfit(misfit) => self.charged_width(misfit),
            AuditNote::GoesOn(_, who) | AuditNote::Ending(_, who) => party_at(who),
            AuditNote::Sender(initiator, _) => Some(initiator),
            AuditNote::BadStarts(_)
            | AuditNote::LowDrive(_)
            | AuditNote::DriveWithin(_)
            | AuditNote::Cause(_)
            | AuditNote::Moved(_, _)
            | AuditNote::Unreported(_)
            | AuditNote::Read(_)
            | AuditNote::Summary
            | AuditNote::Widths(_, _) => None,
        }
    }
}

fn party_at(who: Party) -> Option<u8>
    ensures { result ≡ party_at who }
{
    match who {
        Party::Initiator(initiator) => initiator,
        Party::Follower(follower) => follower,
        Party::Either(_, _) | Party::Unknown => None,
    }
}
