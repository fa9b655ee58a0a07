//! Readings in plain numbers, and the frames in them.
use crate::rooms::{UNTOUCHED, byte, first_word, holds, is_put, is_refused, is_small, number};
use library_wire::{ReadingParts, put_reading_frame};
use std::process::Abort;

/// What was sampled of a reading that ended so: its bits, from slot 1 on.
pub(crate) fn reading_of(ending: u8, bits: &str) -> ReadingParts {
    let mut reading = ReadingParts {
        begin: 1000,
        at: 60_000,
        ending,
        count: u8::try_from(bits.len()).unwrap_or(255),
        bits: [false; 160],
    };
    for (place, digit) in bits.as_bytes().iter().enumerate() {
        if let Some(bit) = reading.bits.get_mut(place) {
            *bit = *digit == b'1';
        }
    }
    reading
}

/// <Image View On> from 4 to 0, 40 04, a block of ten slots each: eight bits, whether it is the last block, and 0 where the
/// block is acknowledged (CEC 6.1). In the second row the last block is not.
const COMPLETE: &str = "\
01000000000000010010
01000000000000010011";

fn has_frame(rt: &impl Abort, bits: &str) {
    let reading = reading_of(1, bits);
    let mut room = [UNTOUCHED; 16];
    let answer = put_reading_frame(&reading, &mut room);
    holds(rt, is_put(answer, &room, b"\x40\x04"), bits);
    let mut small = [UNTOUCHED; 1];
    let answer = put_reading_frame(&reading, &mut small);
    holds(rt, is_small(answer, &small, 2), bits);
}

#[test]
fn complete_readings_have_frames(rt: HostRuntime) {
    for bits in COMPLETE.lines() {
        has_frame(&rt, bits);
    }
}

/// How a reading ended, its bits, and with which number its frame is refused: 2 to 6 is no complete one, and others are no
/// ending. Nine bits are no frame.
const REFUSED: &str = "\
0 01000000000000010010 => 2
1 010000001 => 4
2 01000000000000010010 => 4
3 01000000000000010010 => 4
4 01000000000000010010 => 4
5 01000000000000010010 => 4
6 01000000000000010010 => 4
7 01000000000000010010 => 2
255 01000000000000010010 => 2";

fn has_no_frame(rt: &impl Abort, words: &str, code: u32) -> bool {
    let (ending, bits) = first_word(words);
    let mut room = [UNTOUCHED; 16];
    let answer = put_reading_frame(&reading_of(byte(rt, ending), bits), &mut room);
    is_refused(answer, &room, code)
}

#[test]
fn other_readings_have_none(rt: HostRuntime) {
    for row in REFUSED.lines() {
        let (words, code) = row.split_once(" => ").expect(&rt, row);
        let is_left = has_no_frame(&rt, words, number(&rt, code));
        holds(&rt, is_left, row);
    }
}

// Sixteen blocks of ten slots are the most.
#[test]
fn readings_have_at_most_160_bits(rt: HostRuntime) {
    let mut reading = reading_of(5, "");
    reading.count = 160;
    let mut room = [UNTOUCHED; 16];
    let answer = put_reading_frame(&reading, &mut room);
    holds(&rt, is_refused(answer, &room, 4), "160 bits");
    reading.count = 161;
    let answer = put_reading_frame(&reading, &mut room);
    holds(&rt, is_refused(answer, &room, 2), "161 bits");
}
