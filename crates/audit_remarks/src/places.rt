//! The physical addresses that devices report.
ghost use Rattle.std.specs.Prelude.{◌≡◌, ◌<◌, None};
ghost use Rattle.audit_remarks.specs.Frames.{sender};
ghost use Rattle.audit_remarks.specs.Places.{moved_from, no_places, other_than, phys_in, same_phys, with_places};

use crate::frames::{opcode_of, sender};
use line_frames::Addr;
use text_core::{Phys, byte_at};

/// The opcode of Report Physical Address.
pub(crate) const REPORT: u8 = 0x84;

/// What each logical address reported last.
pub type Places = [Option<Phys>; 16];

/// Nothing was reported.
pub fn no_places() -> Places
    ensures { result ≡ no_places }
{
    [None; 16]
}

/// The address in a frame of this opcode.
pub(crate) fn phys_in(opcode: u8, frame: &[u8]) -> Option<Phys>
    ensures { result ≡ phys_in opcode frame.now }
{
    if opcode_of(frame) != opcode || frame.len() < 4 {
        return None;
    }
    Some(Phys {
        high: byte_at(frame, 2),
        low: byte_at(frame, 3),
    })
}

pub(crate) fn same_phys(one: Phys, other: Phys) -> bool
    ensures { result ≡ same_phys one other }
{
    one.high == other.high && one.low == other.low
}

fn other_than(before: Option<Phys>, phys: Phys) -> Option<Phys>
    ensures { result ≡ other_than before phys }
{
    match before {
        None => None,
        Some(before) => {
            if same_phys(before, phys) {
                return None;
            }
            Some(before)
        }
    }
}

/// The address that the sender of a report had reported before, where that was another one.
pub fn moved_from(frame: &[u8], places: &Places) -> Option<Phys>
    ensures { result ≡ moved_from frame.now places.now }
{
    let initiator = sender(frame);
    match phys_in(REPORT, frame) {
        None => None,
        Some(phys) => {
            if initiator == Addr::BROADCAST {
                return None;
            }
            other_than(places[initiator as usize], phys)
        }
    }
}

/// A frame was delivered.
pub fn note_report(frame: &[u8], places: &mut Places)
    ensures { places.new ≡ with_places frame.now places.old }
{
    let initiator = sender(frame);
    if let Some(phys) = phys_in(REPORT, frame) {
        places[initiator as usize] = Some(phys);
    }
}
