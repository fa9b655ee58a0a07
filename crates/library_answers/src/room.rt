//! Bytes in the room that a caller lends.
ghost use Rattle.std.specs.Prelude.{◌≡◌};
ghost use Rattle.library_answers.specs.Room.{IsPut, refusal};

use crate::answer::Answer;
use crate::code::Code;

/// Puts bytes into the room, where they fit; else the room stays as it was.
pub fn put(bytes: &[u8], room: &mut [u8]) -> Answer
    ensures { IsPut bytes.now room.old room.new result }
{
    if bytes.len() > room.len() {
        return Answer {
            code: Code::Room.number(),
            line: 0,
            length: bytes.len(),
        };
    }
    room[..bytes.len()].copy_from_slice(bytes);
    Answer {
        code: Code::Done.number(),
        line: 0,
        length: bytes.len(),
    }
}

/// The answer of a call that put nothing into the room, with the line at fault or 0.
pub fn refused(code: Code, line: u64) -> Answer
    ensures { result ≡ refusal code line }
{
    Answer {
        code: code.number(),
        line,
        length: 0,
    }
}
