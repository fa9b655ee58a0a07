//! Frames of the CEC line: one to sixteen blocks of a byte each, the header block first, sent slot by slot (HDMI 1.4
//! Supplement 1, CEC 6); and which of several wins the line by arbitration (CEC 9).
#![tactic(auto)]

ghost use Rattle.std.specs.Prelude.{◌≡◌, ◌+◌, ◌-◌, ◌*◌, ◌/◌, ◌%◌, ◌<◌, ◌≤◌, ◌==◌, ◌↔◌, length, Some, slice_get, slice_index, IsTrue, IfOk, IsErrOf};
ghost use Rattle.line_frames.specs.Bits.{frame_bits, comes_before, least_among, winners_of};

mod blocks;
mod free_time;
mod laws;

use arrayvec::ArrayVec;
pub use free_time::FreeTime;
pub use laws::{acknowledge_slots_decide_nothing, frames_are_read, slots_have_their_places};
use std::marker::Model;
use thiserror::Error;

/// A logical address, 0 to 15 (CEC 10.2). As a destination 15 is a broadcast, to everybody, as an initiator nobody in
/// particular.
#[derive(Clone, Copy, Debug, PartialEq, Eq)]
pub struct Addr {
    value: u8,
}

impl Model for Addr {
    ghost use Rattle.std.specs.Prelude.{ℕ, ◌<◌};

    ghost Value = { ℕ };

    ghost view = { λ a. a.value };

    ghost invariant = { λ a. a.value < 16 };

    ghost inverse = { λ n. record { value = n } };
}

impl Addr {
    /// The address of a frame to everybody, and of a device that has none of its own.
    pub const BROADCAST: u8 = 15;

    /// The address of this value, which is below 16.
    pub fn new(value: u8) -> Self
        requires { value < 16 }
        ensures { result ≡ value }
    {
        Addr { value }
    }

    /// The address as a number, 0 to 15.
    pub fn value(self) -> u8
        ensures value { result ≡ self }
        ensures in_range { result < 16 }
    {
        self.value
    }
}

/// How a reading of the line ends. The windows are this profile's own.
#[derive(Clone, Copy, Debug, PartialEq, Eq)]
pub enum Ending {
    /// With the acknowledge slot of a block whose end-of-message bit (EOM) was read 1.
    Complete,
    /// With a fall too early for the next slot.
    Short,
    /// With no fall in time for the next slot.
    Silent,
    /// With a start bit whose rise or end was out of time.
    BadStart,
    /// With a sixteenth block whose end-of-message bit was read 0.
    Long,
    /// Not yet: the line was heard no longer.
    Open,
}

/// The most bits of a reading: ten for each of 16 blocks (CEC 6).
pub const MOST_BITS: usize = 160;

/// What is read from the line, from a fall on. Times are whole microseconds.
#[derive(Debug, Drop)]
pub struct Reading {
    /// The fall of the start bit.
    pub begin: u64,
    /// The instant of the ending.
    pub at: u64,
    pub ending: Ending,
    /// What was read in each slot that was sampled, from slot 1 on.
    pub bits: ArrayVec<bool, MOST_BITS>,
}

/// What becomes of a frame that is sent, by arbitration (CEC 9) and the acknowledge bit (CEC 6.1), with this profile's own
/// windows.
#[derive(Clone, Copy, Debug, PartialEq, Eq)]
pub enum Fate {
    /// It was read whole and acknowledged or, as a broadcast, refused by nobody.
    Delivered,
    /// It was read whole and not acknowledged, or refused; or a block of it was.
    Unacked,
    /// Its sender was out in the first four slots, the initiator's address: that is how arbitration is lost (CEC 9).
    Lost,
    /// Anything else broke it.
    Broken,
}

/// Why some bytes are no frame.
#[derive(Clone, Copy, Debug, Drop, PartialEq, Eq, Error)]
pub enum FrameError {
    #[error("a frame has at least one block")]
    Empty,
    #[error("a frame has at most 16 blocks")]
    TooLong,
}

/// One to sixteen blocks of a byte each: the header block with initiator and destination, then the data blocks, an opcode
/// and its operands (CEC 6). As a value it is the list of its bytes.
#[derive(Debug, Drop)]
pub struct Frame {
    blocks: ArrayVec<u8, 16>,
}

impl Model for Frame {
    ghost use Rattle.std.specs.Prelude.{◌<◌, List, ℕ, length};

    ghost Value = { List ℕ };

    ghost view = { λ f. f.blocks.items };

    ghost invariant = { λ f. 0 < length f.blocks.items };
}

impl Frame {
    /// The frame of these bytes, the header first. Refused where there is none, or more than 16.
    pub fn new(bytes: &[u8]) -> Result<Self, FrameError>
        ensures ok { IfOk result (λ f. f ≡ bytes.now) }
        ensures empty { IsErrOf result FrameError.Empty ↔ (length bytes.now ≡ 0) }
        ensures too_long { IsErrOf result FrameError.TooLong ↔ (16 < length bytes.now) }
    {
        if bytes.is_empty() {
            return Err(FrameError::Empty);
        }
        match ArrayVec::try_from(bytes) {
            Ok(blocks) => Ok(Frame { blocks }),
            Err(_) => Err(FrameError::TooLong),
        }
    }

    /// The bytes, the header first.
    pub fn bytes(&self) -> &[u8]
        ensures value { result.now ≡ self.now }
        ensures within { (0 < length result.now) × (length result.now ≤ 16) }
    {
        self.blocks.as_slice()
    }

    /// The same frame again.
    pub fn copy(&self) -> Self
        ensures value { result ≡ self.now }
        ensures within { (0 < length result) × (length result ≤ 16) }
    {
        match ArrayVec::try_from(self.bytes()) {
            Ok(blocks) => Frame { blocks },
            Err(_) => unreachable!(),
        }
    }

    /// Who sends it, the initiator: the header block's high four bits (CEC 6.1).
    pub fn initiator(&self) -> Addr
        ensures { result ≡ slice_index self.now 0 / 16 }
    {
        Addr {
            value: self.blocks[0] / 16,
        }
    }

    /// Whom it is for, the destination: the header block's low four bits (CEC 6.1). The frame is a broadcast where they are
    /// 15, and directly addressed else.
    pub fn destination(&self) -> Addr
        ensures { result ≡ slice_index self.now 0 % 16 }
    {
        Addr {
            value: self.blocks[0] % 16,
        }
    }

    /// Whether it is a header block alone: the polling message, which asks if its destination is there (CEC 7.3).
    pub fn is_poll(&self) -> bool
        ensures { IsTrue result ↔ (length self.now ≡ 1) }
    {
        self.blocks.len() == 1
    }

    /// How many slots it takes: ten for each block.
    pub fn slots(&self) -> usize
        ensures { result ≡ length (frame_bits self.now) }
    {
        10 * self.blocks.len()
    }

    /// What the frame sends in slot `k`, from 1 to `slots`. In each block the byte's bits come first, the most
    /// significant one before the others, then EOM, the end-of-message bit, then ACK, the acknowledge bit, which is sent as
    /// 1 (CEC 6.1).
    pub fn bit(&self, k: usize) -> bool
        requires { (1 ≤ k) × (k ≤ length (frame_bits self.now)) }
        ensures { slice_get (frame_bits self.now) (k - 1) ≡ Some result }
    {
        let block = (k - 1) / 10;
        let place = (k - 1) % 10;
        if place < 8 {
            (self.blocks[block] >> (7 - place)) & 1 == 1
        } else if place == 8 {
            block + 1 == self.blocks.len()
        } else {
            true
        }
    }

    /// Whether this frame wins arbitration over the other: where they first differ, it sends a 0 (CEC 9). Equal
    /// frames win together, and neither precedes the other.
    pub fn precedes(&self, other: &Frame) -> bool
        ensures { result ≡ comes_before (frame_bits self.now) (frame_bits other.now) }
    {
        for place in 0..self.slots().min(other.slots()) {
            let sent = self.bit(place + 1);
            let other_sent = other.bit(place + 1);
            if sent != other_sent {
                return other_sent;
            }
        }
        false
    }
}

// No frame of the list wins over this one.
fn is_least(frames: &[Frame], frame: &Frame) -> bool
    ensures { result ≡ least_among frames.now frame.now }
{
    for other in frames {
        if other.precedes(frame) {
            return false;
        }
    }
    true
}

/// The indices of the frames that win arbitration, in order: those that no other of them precedes (CEC 9).
pub fn winners(frames: &[Frame]) -> ArrayVec<usize, 15>
    requires { (1 ≤ length frames.now) × (length frames.now ≤ 15) }
    ensures { result.items ≡ winners_of frames.now }
{
    let mut winners = ArrayVec::new();
    for (place, frame) in frames.iter().enumerate() {
        if is_least(frames, frame) {
            winners.push(place);
        }
    }
    winners
}
