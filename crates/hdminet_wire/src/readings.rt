//! Readings of the line.
ghost use Rattle.library_wire.specs.Readings.{IsReadingFrame, reading_in};

use library_answers::Answer;
use library_wire::{ReadingParts, put_reading_frame};

/// Puts the bytes of the frame into the room that a complete reading has read: 1 to 16. Its last bit says whether it was
/// acknowledged: 0 takes a frame to one device, and refuses one to all (CEC 6.1).
///
/// Refused where the numbers are no reading's, and then where it is not complete.
#[unsafe(no_mangle)]
pub extern "C" fn hdminet_reading_frame(reading: &ReadingParts, room: &mut [u8]) -> Answer
    ensures { IsReadingFrame (reading_in reading.now) room.old room.new result }
{
    put_reading_frame(reading, room)
}
