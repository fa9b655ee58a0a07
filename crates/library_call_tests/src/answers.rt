//! Bytes in a room, and the numbers of refusals, as the headers in include/ have them.
use crate::rooms::holds;
use edid_base::BaseError;
use edid_core::EdidError;
use edid_cta::ExtError;
use library_answers::{Answer, Code, edid_code, frame_code, put, refused, text_code};
use line_frames::FrameError;
use message_text::AssembleError;
use std::process::Abort;

/// Three bytes are put into the front of four, and what is answered, and what then stands there.
fn is_put(rt: &impl Abort, count: usize, want: Answer, left: &[u8], case: &str) {
    let mut room = [9u8; 4];
    if count > 4 {
        return;
    }
    let answer = put(b"abc", &mut room[..count]);
    holds(rt, answer == want && room.as_slice() == left, case);
}

#[test]
fn bytes_are_put_where_they_fit(rt: HostRuntime) {
    let done = Answer {
        code: 0,
        line: 0,
        length: 3,
    };
    let small = Answer {
        code: 1,
        line: 0,
        length: 3,
    };
    is_put(&rt, 4, done, b"abc\x09", "more room");
    is_put(&rt, 3, done, b"abc\x09", "just enough room");
    is_put(&rt, 2, small, b"\x09\x09\x09\x09", "one byte too small");
    is_put(&rt, 0, small, b"\x09\x09\x09\x09", "no room");
}

fn is_number(rt: &impl Abort, code: Code, number: u32, case: &str) {
    let want = Answer {
        code: number,
        line: 3,
        length: 0,
    };
    holds(rt, code.number() == number, case);
    holds(rt, refused(code, 3) == want, case);
}

#[test]
fn frames_and_texts_are_refused_by_numbers(rt: HostRuntime) {
    is_number(&rt, frame_code(FrameError::Empty), 10, "no byte");
    is_number(&rt, frame_code(FrameError::TooLong), 11, "frame too long");
    is_number(&rt, text_code(AssembleError::Address), 20, "address");
    is_number(&rt, text_code(AssembleError::Name), 21, "name");
    is_number(&rt, text_code(AssembleError::TooLong), 22, "operands");
    is_number(&rt, text_code(AssembleError::Count), 23, "count");
    is_number(&rt, text_code(AssembleError::Operand), 24, "operand");
}

fn base(error: BaseError) -> Code {
    edid_code(EdidError::Base(error))
}

fn extension(number: u8) -> Code {
    edid_code(EdidError::Ext(number, ExtError::Checksum))
}

#[test]
fn edids_are_refused_by_numbers(rt: HostRuntime) {
    is_number(&rt, edid_code(EdidError::Length), 30, "length");
    is_number(&rt, edid_code(EdidError::Count), 31, "count");
    is_number(&rt, base(BaseError::Header), 32, "header");
    is_number(&rt, base(BaseError::Checksum), 33, "checksum");
    is_number(&rt, base(BaseError::Revision), 34, "revision");
    is_number(&rt, base(BaseError::Maker), 35, "maker");
    is_number(&rt, extension(1), 36, "the first extension");
    is_number(&rt, extension(2), 37, "the second extension");
    is_number(&rt, extension(3), 38, "the third extension");
}
