//! The bytes of a frame that was delivered, or was sent.
ghost use Rattle.std.specs.Prelude.{◌≡◌, ◌<◌};
ghost use Rattle.line_frames.specs.declared.Ending.TheVariants.{Complete};
ghost use Rattle.line_reading.specs.Reports.{listed_as};
ghost use Rattle.audit_remarks.specs.Frames.{bytes_or_none, delivered_frame, opcode_of, receiver, sender, sent_frame};

use crate::header::{ends_untaken, is_complete, is_delivered};
use arrayvec::ArrayVec;
use line_frames::{Ending, Frame, Reading};
use text_core::byte_at;

/// The initiator, in the high half of the header.
pub fn sender(frame: &[u8]) -> u8
    ensures value { result ≡ sender frame.now }
    ensures small { result < 16 }
{
    byte_at(frame, 0) / 16
}

/// The destination, in its low half.
pub fn receiver(frame: &[u8]) -> u8
    ensures { result ≡ receiver frame.now }
{
    byte_at(frame, 0) % 16
}

/// The opcode, which comes after the header.
pub fn opcode_of(frame: &[u8]) -> u8
    ensures { result ≡ opcode_of frame.now }
{
    byte_at(frame, 1)
}

fn bytes_or_none(frame: &Option<Frame>) -> ArrayVec<u8, 16>
    ensures { result.items ≡ bytes_or_none frame.now }
{
    let mut bytes = ArrayVec::new();
    if let Some(frame) = frame {
        let _ = bytes.try_extend_from_slice(frame.bytes());
    }
    bytes
}

/// The bytes of a reading's frame, where it was delivered, and else none.
pub fn delivered_frame(reading: &Reading) -> ArrayVec<u8, 16>
    ensures { result.items ≡ delivered_frame (listed_as reading.now) }
{
    if !is_delivered(reading.ending, &reading.bits) {
        return ArrayVec::new();
    }
    bytes_or_none(&reading.frame())
}

// A reading of the same bits that ends with its last block.
fn as_whole(reading: &Reading) -> Reading
    ensures bits { result.bits.items ≡ reading.now.bits.items }
    ensures ending { result.ending ≡ Complete }
{
    let mut bits = ArrayVec::new();
    let _ = bits.try_extend_from_slice(&reading.bits);
    Reading {
        begin: reading.begin,
        at: reading.at,
        ending: Ending::Complete,
        bits,
    }
}

/// The bytes of a reading's frame, where it was read whole, acknowledged or not, or up to the block that was not taken, and else none.
pub fn sent_frame(reading: &Reading) -> ArrayVec<u8, 16>
    ensures { result.items ≡ sent_frame (listed_as reading.now) }
{
    if !(is_complete(reading.ending) || ends_untaken(&reading.bits)) {
        return ArrayVec::new();
    }
    bytes_or_none(&as_whole(reading).frame())
}
