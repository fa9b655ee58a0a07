//! Frames and their bits.
use crate::words::{bits_of, bits_text, frame_of};
use arrayvec::ArrayVec;
use line_frames::{Ending, Frame, Reading, winners};
use std::process::Abort;

/// Whether the first of two frames goes before the second, and the second before the first, and who wins.
fn order_of(rt: &(impl Abort + AllocGlobal), first: Frame, second: Frame) -> String {
    let (before, after) = (first.precedes(&second), second.precedes(&first));
    let winners = winners(&[first, second]);
    format!(in rt.alloc(); "{before} {after} {:?}", winners.as_slice()).expect(rt, "a text")
}

pub(crate) fn order_text(rt: &(impl Abort + AllocGlobal), words: &str) -> String {
    let (first, second) = words.split_once(' ').expect(rt, "two frames");
    order_of(rt, frame_of(rt, first), frame_of(rt, second))
}

/// The bits that a frame sends.
fn sent_bits(frame: &Frame) -> ArrayVec<bool, 160> {
    let mut bits = ArrayVec::new();
    for slot in 0..frame.slots() {
        let _ = bits.try_push(frame.bit(slot + 1));
    }
    bits
}

/// Who sends a frame to whom, whether it is a poll, the bits that it sends, or the bytes of its copy.
fn part_of(rt: &(impl Abort + AllocGlobal), verb: &str, frame: &Frame) -> String {
    match verb {
        "from" => format!(in rt.alloc(); "{}", frame.initiator().value()).expect(rt, "a text"),
        "to" => format!(in rt.alloc(); "{}", frame.destination().value()).expect(rt, "a text"),
        "poll" => format!(in rt.alloc(); "{}", frame.is_poll()).expect(rt, "a text"),
        "bits" => bits_text(rt, &sent_bits(frame)),
        "bytes" => format!(in rt.alloc(); "{:?}", frame.copy().bytes()).expect(rt, "a text"),
        _ => String::from_str(rt.alloc(), "no such verb").expect(rt, "a text"),
    }
}

pub(crate) fn part_text(rt: &(impl Abort + AllocGlobal), verb: &str, word: &str) -> String {
    part_of(rt, verb, &frame_of(rt, word))
}

/// A reading that ended complete, or else in silence.
fn reading_of(ending: &str, bits: &str) -> Reading {
    Reading {
        begin: 1_000_000,
        at: 1_051_150,
        ending: if ending == "Complete" {
            Ending::Complete
        } else {
            Ending::Silent
        },
        bits: bits_of(bits),
    }
}

/// The bytes of the frame that a reading has, if any.
pub(crate) fn received_text(rt: &(impl Abort + AllocGlobal), words: &str) -> String {
    let (ending, bits) = words.split_once(' ').expect(rt, "bits");
    match reading_of(ending, bits).frame() {
        Some(frame) => format!(in rt.alloc(); "{:?}", frame.bytes()).expect(rt, "a text"),
        None => String::from_str(rt.alloc(), "none").expect(rt, "a text"),
    }
}
