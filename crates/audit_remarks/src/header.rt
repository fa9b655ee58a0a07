//! The header of a frame, and which of its blocks were taken.
ghost use Rattle.std.specs.Prelude.{◌≡◌, ◌+◌, ◌*◌, ◌<◌, ◌≤◌, length, false, slice_index_or};
ghost use Rattle.line_frames.specs.Blocks.{bit_value};
ghost use Rattle.message_text.specs.ReadingText.{is_complete};
ghost use Rattle.audit_remarks.specs.Header.{breaks_off, destination_of, ends_untaken, failed_block, goes_on, head_of, head_read, initiator_of, is_delivered, is_last, is_poll, is_taken, is_to_all, is_unfinished, nibble_at, opcode_read, seeks_address, stops_untaken, unfinished};

use line_frames::{Addr, Ending};

/// The slots of a block: eight bits, end-of-message and acknowledge (CEC 6.1).
pub(crate) const BLOCK: usize = 10;

/// What is read of a frame: its header, and its opcode, if that was read.
#[derive(Clone, Copy, Debug, PartialEq, Eq)]
pub struct FrameHead {
    pub initiator: u8,
    pub destination: u8,
    pub opcode: Option<u8>,
}

/// The bits of a header's initiator and destination (CEC 6.1.1).
pub(crate) const HEADER: usize = 8;

/// A bit that was not read counts as 0.
pub(crate) fn bit_at(bits: &[bool], k: usize) -> bool
    ensures { result ≡ slice_index_or bits.now k false }
{
    bits.get(k).copied().unwrap_or(false)
}

fn weighed(weight: u8, bit: bool) -> u8
    ensures value { result ≡ bit_value weight bit }
    ensures within { result ≤ weight }
{
    if bit { weight } else { 0 }
}

fn nibble_at(bits: &[bool], k: usize) -> u8
    requires { k < 1000 }
    ensures value { result ≡ nibble_at bits.now k }
    ensures small { result < 16 }
{
    weighed(8, bit_at(bits, k))
        + weighed(4, bit_at(bits, k + 1))
        + weighed(2, bit_at(bits, k + 2))
        + weighed(1, bit_at(bits, k + 3))
}

/// The initiator of a header. A bit that was not read counts as 0 (CEC 6.1.1).
pub fn initiator_of(bits: &[bool]) -> u8
    ensures value { result ≡ initiator_of bits.now }
    ensures small { result < 16 }
{
    nibble_at(bits, 0)
}

/// The destination of a header, in the same way (CEC 6.1.1).
pub fn destination_of(bits: &[bool]) -> u8
    ensures value { result ≡ destination_of bits.now }
    ensures small { result < 16 }
{
    nibble_at(bits, 4)
}

pub(crate) fn is_to_all(bits: &[bool]) -> bool
    ensures { result ≡ is_to_all bits.now }
{
    destination_of(bits) == Addr::BROADCAST
}

/// Whether a block follows the header: its end-of-message bit was read 0 (CEC 6.1.2).
fn goes_on(bits: &[bool]) -> bool
    ensures { result ≡ goes_on bits.now }
{
    bits.len() > HEADER && !bit_at(bits, HEADER)
}

/// Whether it is a header alone: its end-of-message bit was read 1 (CEC 6.1.2).
pub(crate) fn is_poll(bits: &[bool]) -> bool
    ensures { result ≡ is_poll bits.now }
{
    bit_at(bits, HEADER)
}

/// Whether it polls its own address (CEC 10.2.1).
pub fn seeks_address(bits: &[bool]) -> bool
    ensures { result ≡ seeks_address bits.now }
{
    let initiator = initiator_of(bits);
    initiator == destination_of(bits) && initiator != Addr::BROADCAST && !goes_on(bits)
}

fn is_taken(bits: &[bool], block: usize) -> bool
    requires { (1 ≤ block) × (block < 1000) }
    ensures { result ≡ is_taken bits.now block }
{
    bit_at(bits, BLOCK * block - 1) == is_to_all(bits)
}

/// The first block, from 1, that was not acknowledged or, of a frame to all, was refused (CEC 6.1.2).
pub(crate) fn failed_block(bits: &[bool]) -> Option<usize>
    requires { length bits.now ≤ 160 }
    ensures { result ≡ failed_block bits.now }
{
    let blocks = bits.len() / BLOCK;
    for block in 1..blocks + 1 {
        if !is_taken(bits, block) {
            return Some(block);
        }
    }
    None
}

/// Whether a reading is whole.
pub(crate) fn is_complete(ending: Ending) -> bool
    ensures { result ≡ is_complete ending }
{
    match ending {
        Ending::Complete => true,
        Ending::Short | Ending::Silent | Ending::BadStart | Ending::Long | Ending::Open => false,
    }
}

/// Whether a frame was read whole, and taken.
pub(crate) fn is_delivered(ending: Ending, bits: &[bool]) -> bool
    requires { length bits.now ≤ 160 }
    ensures { result ≡ is_delivered ending bits.now }
{
    is_complete(ending) && failed_block(bits).is_none()
}

fn is_last(block: usize, failed: Option<usize>) -> bool
    ensures { result ≡ is_last block failed }
{
    match failed {
        None => false,
        Some(failed) => block == failed,
    }
}

/// Whether the last block of these bits was not taken.
pub(crate) fn ends_untaken(bits: &[bool]) -> bool
    requires { length bits.now ≤ 160 }
    ensures { result ≡ ends_untaken bits.now }
{
    !seeks_address(bits)
        && bits.len() % BLOCK == 0
        && is_last(bits.len() / BLOCK, failed_block(bits))
}

/// Whether a frame stops with a block that was not taken, as it has to (CEC 7.1).
pub fn stops_untaken(ending: Ending, bits: &[bool]) -> bool
    requires { length bits.now ≤ 160 }
    ensures { result ≡ stops_untaken ending bits.now }
{
    match ending {
        Ending::Silent => ends_untaken(bits),
        Ending::Complete | Ending::Short | Ending::BadStart | Ending::Long | Ending::Open => false,
    }
}

fn breaks_off(ending: Ending) -> bool
    ensures { result ≡ breaks_off ending }
{
    match ending {
        Ending::Silent | Ending::Long => true,
        Ending::Complete | Ending::Short | Ending::BadStart | Ending::Open => false,
    }
}

fn is_unfinished(ending: Ending, bits: &[bool]) -> bool
    requires { length bits.now ≤ 160 }
    ensures { result ≡ is_unfinished ending bits.now }
{
    breaks_off(ending)
        && bits.len() >= BLOCK
        && bits.len() % BLOCK == 0
        && failed_block(bits).is_none()
        && !bit_at(bits, bits.len() - 2)
}

/// The block, from 1, after which a frame ends though its end-of-message bit says that another one follows (CEC 6.1.2), where all
/// were taken.
pub fn unfinished(ending: Ending, bits: &[bool]) -> Option<usize>
    requires { length bits.now ≤ 160 }
    ensures { result ≡ unfinished ending bits.now }
{
    if is_unfinished(ending, bits) {
        Some(bits.len() / BLOCK)
    } else {
        None
    }
}

fn opcode_read(bits: &[bool]) -> Option<u8>
    ensures { result ≡ opcode_read bits.now }
{
    if bits.len() < 2 * BLOCK {
        return None;
    }
    Some(nibble_at(bits, BLOCK) * 16 + nibble_at(bits, BLOCK + 4))
}

fn head_of(bits: &[bool]) -> FrameHead
    ensures { result ≡ head_of bits.now }
{
    FrameHead {
        initiator: initiator_of(bits),
        destination: destination_of(bits),
        opcode: opcode_read(bits),
    }
}

/// What is read of a frame that was not read whole, where at least its header was (CEC 6.1).
pub fn head_read(ending: Ending, bits: &[bool]) -> Option<FrameHead>
    ensures { result ≡ head_read ending bits.now }
{
    if is_complete(ending) || bits.len() < BLOCK {
        return None;
    }
    Some(head_of(bits))
}
