//! What is pulled for the blocks of a line, with its fault.
ghost use Rattle.std.specs.Prelude.{◌≡◌, ◌+◌, ◌-◌, ◌*◌, ◌<◌, ◌≤◌, ◌^◌, true, ◌∷◌, length};
ghost use Rattle.line_wave.specs.Bounds.{latest_event};
ghost use Rattle.message_lay.specs.Bits.{most_blocks, most_slots, stretches_of};
ghost use Rattle.message_lay.specs.Faults.{fits, glitch_at, is_among, pulls_in, pulls_read, start_times, with_fault};

use crate::bits::{BitTimes, MOST_SLOTS, Slots, nominal_bit, nominal_start, push_blocks};
use crate::fault::LayCause;
use crate::glitch::with_pull;
use arrayvec::ArrayVec;
use line_rounds::SHORT_PULL;
use line_wave::{FIRST_SLOT, SLOT, Stretch};
use text_core::{AtWord, at_word};

/// The most pulls of a line: those of the start bit and of the slots, and a glitch.
pub const MOST_LAID: usize = 642;

/// The pulls of a line.
pub type LinePulls = ArrayVec<Stretch, MOST_LAID>;

/// What is otherwise than a sender of nominal times would have it. Slots and blocks count from 1.
#[derive(Clone, Copy, Debug, PartialEq, Eq)]
pub enum Fault {
    /// Nothing.
    Absent,
    /// The end-of-message bit of a block.
    Eom { block: u64, bit: bool },
    /// The times of a slot.
    Bit { slot: u64, times: BitTimes },
    /// The times of the start bit.
    Start { times: BitTimes },
    /// Nothing is pulled after a slot.
    Last { slot: u64 },
    /// A low drive from the fall of a slot on, and then nothing.
    Drive { slot: u64 },
    /// A pull more, which begins so long after the fall of a slot.
    Glitch { slot: u64, after: u32, low: u32 },
}

/// A low drive (CEC 7.4).
fn low_drive() -> BitTimes
    ensures { result ≡ Rattle.message_lay.specs.Faults.low_drive }
{
    BitTimes {
        low: SHORT_PULL as u32,
        total: SHORT_PULL as u32,
    }
}

fn is_among(number: u64, count: usize) -> bool
    ensures { result ≡ is_among number count }
{
    1 <= number && number <= count as u64
}

/// Whether so many slots have the slot or the block of a fault.
fn fits(fault: Fault, slots: usize) -> bool
    ensures { result ≡ fits fault slots }
{
    match fault {
        Fault::Absent | Fault::Start { .. } => true,
        Fault::Eom { block, .. } => is_among(block, slots / 10),
        Fault::Bit { slot, .. } => is_among(slot, slots),
        Fault::Last { slot } => is_among(slot, slots),
        Fault::Drive { slot } => is_among(slot, slots),
        Fault::Glitch { slot, .. } => is_among(slot, slots),
    }
}

fn start_times(fault: Fault) -> BitTimes
    ensures { result ≡ start_times fault }
{
    match fault {
        Fault::Start { times } => times,
        _ => nominal_start(),
    }
}

/// Puts a fault into the slots that it fits.
fn put_fault(fault: Fault, slots: &mut Slots)
    requires { fits fault (length slots.old.items) ≡ true }
    ensures items { slots.new.items ≡ with_fault fault slots.old.items }
    ensures few { length slots.new.items ≤ length slots.old.items }
{
    match fault {
        Fault::Absent | Fault::Start { .. } | Fault::Glitch { .. } => {}
        Fault::Eom { block, bit } => slots[10 * (block as usize) - 2] = nominal_bit(bit),
        Fault::Bit { slot, times } => slots[slot as usize - 1] = times,
        Fault::Last { slot } => slots.truncate(slot as usize),
        Fault::Drive { slot } => {
            slots.truncate(slot as usize);
            slots[slot as usize - 1] = low_drive();
        }
    }
}

// The low of a bit that falls at an instant.
fn low_of(fall: u64, bit: BitTimes) -> Stretch
    requires { fall ≤ 2 ^ 50 }
    ensures { result ≡ record { from = fall; to = fall + bit.low } }
{
    Stretch {
        from: fall,
        to: fall + u64::from(bit.low),
    }
}

// The fall after that of a bit.
fn fall_after(fall: u64, bit: BitTimes) -> u64
    requires { fall ≤ 2 ^ 50 }
    ensures value { result ≡ fall + bit.total }
    ensures soon { result < fall + 2 ^ 32 }
{
    fall + u64::from(bit.total)
}

/// The lows of these bits, the first of which falls at an instant.
fn stretches_of(start: u64, begin: BitTimes, slots: &[BitTimes]) -> LinePulls
    requires early { start ≤ latest_event }
    requires few { length slots.now ≤ most_slots }
    ensures items { result.items ≡ stretches_of start (begin ∷ slots.now) }
    ensures few { length result.items ≤ most_slots + 1 }
{
    let mut pulls = ArrayVec::new();
    pulls.push(low_of(start, begin));
    let mut fall = fall_after(start, begin);
    for slot in slots {
        pulls.push(low_of(fall, *slot));
        fall = fall_after(fall, *slot);
    }
    pulls
}

/// A pull that begins so long after the fall of a slot at its nominal time (CEC 5.2).
fn glitch_at(start: u64, slot: u64, after: u32, low: u32) -> Stretch
    requires early { start ≤ latest_event }
    requires slot { is_among slot most_slots ≡ true }
    ensures { result ≡ glitch_at start slot after low }
{
    let from = start + FIRST_SLOT + SLOT * (slot - 1) + u64::from(after);
    Stretch {
        from,
        to: from + u64::from(low),
    }
}

/// What is pulled for these blocks from an instant on.
///
/// # Errors
///
/// `Slot` where they have not the slot or the block of the fault.
pub fn pulls_read(start: u64, fault: Fault, bytes: &[u8]) -> Result<LinePulls, AtWord<LayCause>>
    requires early { start ≤ latest_event }
    requires few { length bytes.now ≤ most_blocks }
    ensures { pulls_in result ≡ pulls_read start fault bytes.now }
{
    let mut slots = ArrayVec::<BitTimes, MOST_SLOTS>::new();
    push_blocks(bytes, &mut slots);
    if !fits(fault, slots.len()) {
        return Err(at_word(2, LayCause::Slot));
    }
    put_fault(fault, &mut slots);
    let pulls = stretches_of(start, start_times(fault), &slots);
    match fault {
        Fault::Glitch { slot, after, low } => {
            Ok(with_pull(glitch_at(start, slot, after, low), &pulls))
        }
        _ => Ok(pulls),
    }
}
