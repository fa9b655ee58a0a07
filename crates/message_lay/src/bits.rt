//! The bits of a frame, each as long as a sender makes it.
ghost use Rattle.std.specs.Prelude.{◌≡◌, ◌==◌, ◌<◌, ◌≤◌, ◌+◌, ◌*◌, ◌++◌, length, map};
ghost use Rattle.std.specs.Int.{bit_at};
ghost use Rattle.line_frames.specs.Bits.{block_bits, frame_bits};
ghost use Rattle.message_lay.specs.Bits.{most_slots, nominal_bit, nominal_start};

use arrayvec::ArrayVec;
use line_wave::{FIRST_SLOT, LOW_OF_0, LOW_OF_1, SLOT, START_LOW};

/// The most blocks of what is laid. A frame has 16 at most (CEC 6).
pub const MOST_BLOCKS: usize = 64;

/// Ten slots for each block.
pub const MOST_SLOTS: usize = 640;

/// How long the line is low from a fall on, and how long it is to the next fall, in microseconds.
#[derive(Clone, Copy, Debug, Default, PartialEq, Eq)]
pub struct BitTimes {
    pub low: u32,
    pub total: u32,
}

/// The slots of what is laid.
pub type Slots = ArrayVec<BitTimes, MOST_SLOTS>;

/// A start bit at its nominal times (CEC 5.2.1).
pub fn nominal_start() -> BitTimes
    ensures { result ≡ nominal_start }
{
    BitTimes {
        low: START_LOW as u32,
        total: FIRST_SLOT as u32,
    }
}

/// A bit at its nominal times (CEC 5.2.2).
pub fn nominal_bit(bit: bool) -> BitTimes
    ensures { result ≡ nominal_bit bit }
{
    let low = if bit { LOW_OF_1 } else { LOW_OF_0 };
    BitTimes {
        low: low as u32,
        total: SLOT as u32,
    }
}

fn is_one(byte: u8, place: u32) -> bool
    requires { place < 8 }
    ensures { result ≡ (bit_at byte place == 1) }
{
    (byte >> place) & 1 == 1
}

fn add(slots: &mut Slots, more: &[BitTimes])
    requires { length slots.old.items + length more.now ≤ most_slots }
    ensures { slots.new.items ≡ slots.old.items ++ more.now }
{
    let _ = slots.try_extend_from_slice(more);
}

// A bit of a byte, counted from the least significant one.
fn bit_of(byte: u8, place: u32) -> BitTimes
    requires { place < 8 }
    ensures { result ≡ nominal_bit (bit_at byte place == 1) }
{
    nominal_bit(is_one(byte, place))
}

fn push_block(byte: u8, is_last: bool, slots: &mut Slots)
    requires { length slots.old.items + 10 ≤ most_slots }
    ensures { slots.new.items ≡ slots.old.items ++ map nominal_bit (block_bits byte is_last) }
{
    add(
        slots,
        &[
            bit_of(byte, 7),
            bit_of(byte, 6),
            bit_of(byte, 5),
            bit_of(byte, 4),
            bit_of(byte, 3),
            bit_of(byte, 2),
            bit_of(byte, 1),
            bit_of(byte, 0),
            nominal_bit(is_last),
            nominal_bit(true),
        ],
    );
}

/// Adds the slots of these blocks, the header first.
pub fn push_blocks(bytes: &[u8], slots: &mut Slots)
    requires { length slots.old.items + 10 * length bytes.now ≤ most_slots }
    ensures { slots.new.items ≡ slots.old.items ++ map nominal_bit (frame_bits bytes.now) }
{
    let [byte, others @ ..] = bytes else {
        return;
    };
    push_block(*byte, others.is_empty(), slots);
    push_blocks(others, slots);
}
