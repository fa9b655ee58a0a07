//! What a call has answered, and what stands in the room that it was lent, of which each byte was 9.
use library_answers::Answer;
use std::process::Abort;

/// Each byte of a room before a call.
pub(crate) const UNTOUCHED: u8 = 9;

/// Asserts that a row holds.
pub(crate) fn holds(rt: &impl Abort, holds: bool, row: &str) {
    assert!(rt; holds, "{row}");
}

fn is_untouched(room: &[u8]) -> bool {
    room.iter().all(|byte| *byte == UNTOUCHED)
}

/// These bytes stand at the front of the room, and after them nothing changed.
pub(crate) fn is_put(answer: Answer, room: &[u8], bytes: &[u8]) -> bool {
    let want = Answer {
        code: 0,
        line: 0,
        length: bytes.len(),
    };
    match room.get(bytes.len()..) {
        Some(rest) => answer == want && room.starts_with(bytes) && is_untouched(rest),
        None => false,
    }
}

/// The room is too small for so many bytes, and is as it was.
pub(crate) fn is_small(answer: Answer, room: &[u8], length: usize) -> bool {
    let want = Answer {
        code: 1,
        line: 0,
        length,
    };
    answer == want && is_untouched(room)
}

/// The call was refused with this number, and the room is as it was.
pub(crate) fn is_refused(answer: Answer, room: &[u8], code: u32) -> bool {
    let want = Answer {
        code,
        line: 0,
        length: 0,
    };
    answer == want && is_untouched(room)
}

/// The first of some words, and those after it.
pub(crate) fn first_word(words: &str) -> (&str, &str) {
    words.split_once(' ').unwrap_or((words, ""))
}

pub(crate) fn number(rt: &impl Abort, word: &str) -> u32 {
    u32::from_str_radix(word, 10).expect(rt, "a number")
}

pub(crate) fn byte(rt: &impl Abort, word: &str) -> u8 {
    u8::from_str_radix(word, 10).expect(rt, "a byte")
}

/// Asserts what is told of a row.
pub(crate) fn is_told(rt: &impl Abort, told: &str, want: &str, row: &str) {
    assert!(rt; told == want, "{row}: {told}");
}
