//! Frames and their texts.
ghost use Rattle.library_wire.specs.Frames.{AnswersFrameBytes, AnswersFrameText};

use library_answers::Answer;
use library_wire::{put_frame_bytes, put_frame_text};

/// Puts the one text of the frame of some bytes into the room: at most 96 bytes, with no 0 after them.
///
/// Refused where there is no byte, or more than 16.
#[unsafe(no_mangle)]
pub extern "C" fn hdminet_frame_text(bytes: &[u8], room: &mut [u8]) -> Answer
    ensures { AnswersFrameText bytes.now room.old room.new result }
{
    put_frame_text(bytes, room)
}

/// Puts the bytes of the frame that has this text into the room: 1 to 16.
///
/// Refused with the first cause for which it is no frame's text.
#[unsafe(no_mangle)]
pub extern "C" fn hdminet_frame_bytes(text: &[u8], room: &mut [u8]) -> Answer
    ensures { AnswersFrameBytes text.now room.old room.new result }
{
    put_frame_bytes(text, room)
}
