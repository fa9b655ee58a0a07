//! Readings of the line, in plain numbers.
ghost use Rattle.std.specs.Prelude.{◌≡◌, option_map};
ghost use Rattle.line_reading.specs.Reports.{listed_as};
ghost use Rattle.library_wire.specs.Readings.{AreReadingParts, IsFrameAnswer, IsReadingFrame, IsReadingPut, reading_in};

use crate::heard::{ending_in, ending_number};
use arrayvec::ArrayVec;
use library_answers::{Answer, Code, put, refused};
use line_frames::{Frame, MOST_BITS, Reading};

/// A reading of the line, in plain numbers.
#[repr(C)]
#[derive(Debug, Drop)]
pub struct ReadingParts {
    /// The fall of the start bit, in microseconds.
    pub begin: u64,
    /// The instant of the ending, in microseconds.
    pub at: u64,
    /// 1 complete, 2 short, 3 silent, 4 with a bad start, 5 too long, 6 not ended yet.
    pub ending: u8,
    /// How many bits were sampled.
    pub count: u8,
    /// The bits, from slot 1 on.
    pub bits: [bool; MOST_BITS],
}

fn parts_of(reading: &Reading) -> ReadingParts
    ensures { AreReadingParts (listed_as reading.now) result }
{
    let mut bits = [false; MOST_BITS];
    let sampled = reading.bits.as_slice();
    bits[..sampled.len()].copy_from_slice(sampled);
    ReadingParts {
        begin: reading.begin,
        at: reading.at,
        ending: ending_number(reading.ending),
        count: sampled.len() as u8,
        bits,
    }
}

/// Puts a reading, if there is one.
pub(crate) fn put_reading(reading: Option<Reading>, place: &mut ReadingParts)
    ensures { IsReadingPut (option_map listed_as reading) place.old place.new }
{
    match reading {
        Some(reading) => *place = parts_of(&reading),
        None => {}
    }
}

pub(crate) fn reading_in(parts: &ReadingParts) -> Option<Reading>
    ensures { result ≡ reading_in parts.now }
{
    let count = usize::from(parts.count);
    if count > MOST_BITS {
        return None;
    }
    let ending = ending_in(parts.ending)?;
    let mut bits = ArrayVec::new();
    let _ = bits.try_extend_from_slice(&parts.bits[..count]);
    Some(Reading {
        begin: parts.begin,
        at: parts.at,
        ending,
        bits,
    })
}

// Puts the bytes of a frame, if there is one.
fn put_frame(frame: Option<Frame>, room: &mut [u8]) -> Answer
    ensures { IsFrameAnswer frame room.old room.new result }
{
    match frame {
        Some(frame) => put(frame.bytes(), room),
        None => refused(Code::Absent, 0),
    }
}

/// Puts the bytes of the frame into the room that a complete reading has read: 1 to 16. Its last bit says whether it was
/// acknowledged: 0 takes a frame to one device, and refuses one to all (CEC 6.1).
///
/// Refused where the numbers are no reading's, and then where it is not complete.
pub fn put_reading_frame(reading: &ReadingParts, room: &mut [u8]) -> Answer
    ensures { IsReadingFrame (reading_in reading.now) room.old room.new result }
{
    match reading_in(reading) {
        Some(reading) => put_frame(reading.frame(), room),
        None => refused(Code::State, 0),
    }
}
