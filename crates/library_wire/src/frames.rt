//! Frames and their texts.
ghost use Rattle.library_wire.specs.Frames.{AnswersFrameBytes, AnswersFrameText};

use library_answers::{Answer, frame_code, put, refused, text_code};
use line_frames::Frame;
use message_text::{assemble, frame_text};

/// Puts the one text of the frame of some bytes into the room: at most 96 bytes, with no 0 after them.
///
/// Refused where there is no byte, or more than 16.
pub fn put_frame_text(bytes: &[u8], room: &mut [u8]) -> Answer
    ensures { AnswersFrameText bytes.now room.old room.new result }
{
    match Frame::new(bytes) {
        Ok(frame) => put(&frame_text(&frame), room),
        Err(error) => refused(frame_code(error), 0),
    }
}

/// Puts the bytes of the frame that has this text into the room: 1 to 16.
///
/// Refused with the first cause for which it is no frame's text.
pub fn put_frame_bytes(text: &[u8], room: &mut [u8]) -> Answer
    ensures { AnswersFrameBytes text.now room.old room.new result }
{
    match assemble(text) {
        Ok(frame) => put(frame.bytes(), room),
        Err(error) => refused(text_code(error), 0),
    }
}
