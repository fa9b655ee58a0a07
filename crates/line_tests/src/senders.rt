//! Senders of a poll.
use crate::words::number;
use line_frames::{Ending, Frame};
use line_reading::{Sender, Told};
use std::process::Abort;

/// The bit of a slot, or an early end.
fn reported_of(rt: &impl Abort, word: &str) -> Told {
    match word.split_once(':') {
        Some((slot, bit)) => Told::Bit(slot.parse().expect(rt, "a slot"), bit == "1"),
        None => Told::Ended(Ending::Short),
    }
}

/// It hears what a receiver reports at an instant.
fn hear(rt: &impl Abort, sender: &mut Sender, word: &str) {
    let (reported, at) = word.split_once('@').expect(rt, "an instant");
    sender.heard(reported_of(rt, reported), u64::from(number(rt, at)));
}

/// A sender of a poll that began at 12,000 and has heard this.
fn sender_of(rt: &impl Abort, words: &str) -> Sender {
    let poll = Frame::new(&[0x40]).expect(rt, "a poll");
    let mut sender = Sender::begin(poll, 12_000);
    for word in words.split_whitespace() {
        hear(rt, &mut sender, word);
    }
    sender
}

/// How far it has come.
pub(crate) fn state_text(rt: &(impl Abort + AllocGlobal), words: &str) -> String {
    format!(in rt.alloc(); "{:?}", sender_of(rt, words).state()).expect(rt, "a text")
}

/// Whether it pulls at an instant, and when it changes after it.
pub(crate) fn pull_text(rt: &(impl Abort + AllocGlobal), words: &str) -> String {
    let (at, heard) = words.split_once(' ').unwrap_or((words, ""));
    let (at, sender) = (u64::from(number(rt, at)), sender_of(rt, heard));
    format!(in rt.alloc(); "{} {:?}", sender.pulls(at), sender.next_change(at)).expect(rt, "a text")
}
