//! How a message comes, and how many operands it has.
ghost use Rattle.std.specs.Prelude.{◌≡◌};
ghost use Rattle.audit_remarks.specs.Messages.{may_broadcast, missed_receivers, missing_by, missing_operands, receivers_by};

use crate::frames::{opcode_of, receiver};
use line_frames::Addr;
use message_table::{Rule, rule};

/// The opcode of Report Power Status.
const REPORT_POWER_STATUS: u8 = 0x90;

/// Whom a message is for.
#[derive(Clone, Copy, Debug, PartialEq, Eq)]
pub enum Receivers {
    OneDevice,
    AllDevices,
}

/// Fewer operands than the opcode has: how many bytes there are, and how many there are to be at least.
#[derive(Clone, Copy, Debug, PartialEq, Eq)]
pub struct Missing {
    pub count: usize,
    pub least: u8,
}

fn may_broadcast(opcode: u8, rule: Rule) -> bool
    ensures { result ≡ may_broadcast opcode rule }
{
    rule.broadcast || opcode == REPORT_POWER_STATUS
}

fn receivers_by(to_all: bool, opcode: u8, rule: Rule) -> Option<Receivers>
    ensures { result ≡ receivers_by to_all opcode rule }
{
    if to_all {
        if may_broadcast(opcode, rule) {
            None
        } else {
            Some(Receivers::OneDevice)
        }
    } else if rule.direct {
        None
    } else {
        Some(Receivers::AllDevices)
    }
}

/// Whom the message of a frame is for, where it came to others.
pub fn missed_receivers(frame: &[u8]) -> Option<Receivers>
    ensures { result ≡ missed_receivers frame.now }
{
    if frame.len() < 2 {
        return None;
    }
    let opcode = opcode_of(frame);
    receivers_by(receiver(frame) == Addr::BROADCAST, opcode, rule(opcode))
}

fn missing_by(count: usize, least: u8) -> Option<Missing>
    ensures { result ≡ missing_by count least }
{
    if count < least as usize {
        Some(Missing { count, least })
    } else {
        None
    }
}

/// Whether the message of a frame has fewer operands than its opcode.
pub fn missing_operands(frame: &[u8]) -> Option<Missing>
    ensures { result ≡ missing_operands frame.now }
{
    if frame.len() < 2 {
        return None;
    }
    missing_by(frame.len() - 2, rule(opcode_of(frame)).least)
}
