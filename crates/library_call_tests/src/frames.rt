//! Frames and their texts, and each number with which one is refused.
use crate::rooms::{UNTOUCHED, holds, is_put, is_refused, is_small, number};
use library_wire::{put_frame_bytes, put_frame_text};
use std::process::Abort;

/// Frames, and their texts: a poll is a header alone, 0x36 is <Standby>, 0x82 <Active Source> with an address (CEC 15), and
/// 0xe5 is no opcode of the standard. The last one has the most bytes, 16, of which 14 are raw operands.
const FRAMES: &str = "\
44 => 4>4
0436 => 0>4 standby
4f821200 => 4>f active-source 1.2.0.0
40e5000102030405060708090a0b0c0d => 4>0 op-e5 :000102030405060708090a0b0c0d";

/// Texts that are no frame's, and the number of each: the last but one has 15 raw operands, and the last one is empty.
const REFUSED: &str = "\
4-0 standby => 20
4>g standby => 20
4>0 frob => 21
4>0 standby now => 23
4>0 play => 23
4>0 play sideways => 24
4>0 op-e5 :000102030405060708090a0b0c0d0e => 22
 => 20";

fn is_text(rt: &impl Abort, frame: &[u8], text: &str) {
    let mut room = [UNTOUCHED; 96];
    let answer = put_frame_text(frame, &mut room);
    holds(rt, is_put(answer, &room, text.as_bytes()), text);
    let mut room = [UNTOUCHED; 2];
    let answer = put_frame_text(frame, &mut room);
    holds(rt, is_small(answer, &room, text.len()), text);
}

fn is_frame(rt: &impl Abort, text: &str, frame: &[u8]) {
    let mut room = [UNTOUCHED; 20];
    let answer = put_frame_bytes(text.as_bytes(), &mut room);
    holds(rt, is_put(answer, &room, frame), text);
    let mut room = [UNTOUCHED; 0];
    let answer = put_frame_bytes(text.as_bytes(), &mut room);
    holds(rt, is_small(answer, &room, frame.len()), text);
}

#[test]
fn frames_have_texts(rt: HostRuntime) {
    for row in FRAMES.lines() {
        let (digits, text) = row.split_once(" => ").expect(&rt, row);
        let frame = hex::decode(rt.alloc(), digits).expect(&rt, row);
        is_text(&rt, &frame, text);
        is_frame(&rt, text, &frame);
    }
}

#[test]
fn frames_are_refused_by_numbers(rt: HostRuntime) {
    let mut room = [UNTOUCHED; 96];
    let answer = put_frame_text(b"", &mut room);
    holds(&rt, is_refused(answer, &room, 10), "no byte");
    let answer = put_frame_text(&[0x4f; 17], &mut room);
    holds(&rt, is_refused(answer, &room, 11), "17 bytes");
}

fn is_no_frame(text: &str, code: u32) -> bool {
    let mut room = [UNTOUCHED; 20];
    let answer = put_frame_bytes(text.as_bytes(), &mut room);
    is_refused(answer, &room, code)
}

#[test]
fn texts_are_refused_by_numbers(rt: HostRuntime) {
    for row in REFUSED.lines() {
        let (text, code) = row.split_once(" => ").expect(&rt, row);
        holds(&rt, is_no_frame(text, number(&rt, code)), row);
    }
}
