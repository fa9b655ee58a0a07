//! States of receivers and senders, taken back from their parts.
use line_frames::Frame;
use line_reading::{Receiver, Sender};
use parts_laws::{receivers_are_their_parts, senders_are_their_parts};
use std::process::Abort;

fn holds(rt: &impl Abort, holds: bool, case: &str) {
    assert!(rt; holds, "{case}");
}

// A start bit falls at 1,000: a receiver wakes where its rise is too late, 3,901 after that.
#[test]
fn receivers_are_taken_back(rt: HostRuntime) {
    let mut receiver = Receiver::new();
    receiver.fall(1000);
    let _ = receiver.tick(1000);
    let mut parts = receiver.parts();
    holds(&rt, parts.place == 1 && parts.begin == 1000, "parts");
    match receivers_are_their_parts(&receiver) {
        Some(again) => holds(&rt, again.wakes_at() == Some(4901), "wake"),
        None => holds(&rt, false, "a receiver"),
    }
    parts.place = 5;
    holds(&rt, Receiver::of_parts(&parts).is_none(), "no place");
}

// A start bit is low for 3,700 (CEC 5.2.1).
#[test]
fn senders_are_taken_back(rt: HostRuntime) {
    let Ok(frame) = Frame::new(&[0x40, 0x04]) else {
        return holds(&rt, false, "a frame");
    };
    let sender = Sender::begin(frame, 1000);
    let mut parts = sender.parts();
    holds(&rt, parts.count == 2 && parts.state == 0, "parts");
    match senders_are_their_parts(&sender) {
        Some(again) => holds(&rt, again.next_change(1000) == Some(4700), "rise"),
        None => holds(&rt, false, "a sender"),
    }
    parts.count = 0;
    holds(&rt, Sender::of_parts(&parts).is_none(), "no frame");
}
