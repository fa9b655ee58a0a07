//! What the slots of a piece say: initiator and destination, and which of its blocks were taken.
ghost use Rattle.std.specs.Prelude.{◌≡◌, ◌<◌, ◌≤◌, length, option_map};
ghost use Rattle.line_frames.specs.Blocks.{bit_value};
ghost use Rattle.line_frames.specs.Bits.{most_bits};
ghost use Rattle.audit_judged.specs.Header.{bit_at, destination_of, failed_block, initiator_of, is_taken, is_to_all, nibble_at};

use audit_pieces::{Slot, slot_at};
use line_frames::Addr;

/// The slots of a block: eight bits, end-of-message and acknowledge (CEC 6.1).
pub(crate) const BLOCK: usize = 10;

/// The slots of an address (CEC 6.1.1): the initiator's first, and the destination's after it.
const INITIATOR: usize = 4;

const ADDRESSES: usize = 8;

/// The bit of a slot, from 1. One that was not read counts as 0.
pub(crate) fn bit_at(slots: &[Slot], k: usize) -> bool
    ensures { result ≡ bit_at slots.now k }
{
    k <= slots.len() && slot_at(slots, k).bit()
}

fn weighed(weight: u8, bit: bool) -> u8
    ensures value { result ≡ bit_value weight bit }
    ensures within { result ≤ weight }
{
    if bit { weight } else { 0 }
}

fn nibble_at(slots: &[Slot], k: usize) -> u8
    requires { k < 1000 }
    ensures value { result ≡ nibble_at slots.now k }
    ensures small { result < 16 }
{
    weighed(8, bit_at(slots, k))
        + weighed(4, bit_at(slots, k + 1))
        + weighed(2, bit_at(slots, k + 2))
        + weighed(1, bit_at(slots, k + 3))
}

/// Who sends it, where that was read.
pub fn initiator_of(slots: &[Slot]) -> Option<u8>
    ensures { result ≡ initiator_of slots.now }
{
    if slots.len() < INITIATOR {
        return None;
    }
    Some(nibble_at(slots, 1))
}

/// Whom it is for, where that was read.
pub fn destination_of(slots: &[Slot]) -> Option<u8>
    ensures { result ≡ destination_of slots.now }
{
    if slots.len() < ADDRESSES {
        return None;
    }
    Some(nibble_at(slots, INITIATOR + 1))
}

/// Whether it is for all. What was not read counts as 0.
pub fn is_to_all(slots: &[Slot]) -> bool
    ensures { result ≡ is_to_all slots.now }
{
    nibble_at(slots, INITIATOR + 1) == Addr::BROADCAST
}

fn is_taken(slots: &[Slot], block: usize) -> bool
    requires { block < 1000 }
    ensures { result ≡ is_taken slots.now block }
{
    bit_at(slots, BLOCK * block) == is_to_all(slots)
}

/// The first block, from 1, that was not acknowledged or, of a frame to all, was refused (CEC 6.1.2).
pub fn failed_block(slots: &[Slot]) -> Option<usize>
    requires { length slots.now ≤ most_bits }
    ensures { result ≡ failed_block slots.now }
{
    let blocks = slots.len() / BLOCK;
    for block in 1..blocks + 1 {
        if !is_taken(slots, block) {
            return Some(block);
        }
    }
    None
}
