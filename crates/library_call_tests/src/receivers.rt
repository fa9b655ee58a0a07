//! A receiver that hears a line from edge to edge, and what each call answers of it.
use crate::readings::reading_of;
use crate::rooms::{holds, is_told, number};
use arrayvec::ArrayVec;
use library_wire::{
    InstantHeard, ReadingParts, receiver_hear, receiver_new, receiver_running, receiver_wakes_at,
};
use line_reading::ReceiverParts;
use line_wave::{Stretch, lay};
use std::process::Abort;

/// The last instant that a receiver hears.
const LATEST: u64 = 3_000_000_000_000;

/// A receiver of a line, what an instant told last, and the reading that was put last.
#[derive(Drop)]
struct Listener {
    receiver: ReceiverParts,
    is_low: bool,
    heard: InstantHeard,
    reading: ReadingParts,
}

impl Listener {
    fn new() -> Self {
        Listener {
            receiver: receiver_new(),
            is_low: false,
            heard: InstantHeard {
                code: 0,
                kind: 0,
                ending: 0,
                bit: false,
                slot: 0,
            },
            reading: reading_of(0, ""),
        }
    }

    /// Hears the line at `t`, and keeps what that tells, if it tells something.
    fn hear(&mut self, t: u64) {
        let heard = receiver_hear(&mut self.receiver, t, self.is_low, &mut self.reading);
        if heard.kind != 0 || heard.code != 0 {
            self.heard = heard;
        }
    }

    /// Hears it at each wake before `t`.
    fn wait(&mut self, t: u64) {
        for _wake in 0..200 {
            let wake = receiver_wakes_at(&self.receiver);
            if wake.code != 0 || wake.at >= t {
                return;
            }
            self.hear(wake.at);
        }
    }

    fn change(&mut self, t: u64) {
        self.wait(t);
        self.is_low = !self.is_low;
        self.hear(t);
    }

    /// An instant at which the line falls or rises, one at which it stays as it is, as `.6550`, or the bits that a sender
    /// pulls, as `12000:01`.
    fn take(&mut self, rt: &impl Abort, word: &str) {
        if let Some(at) = word.strip_prefix('.') {
            self.wait(instant(rt, at));
            self.hear(instant(rt, at));
        } else if let Some((start, bits)) = word.split_once(':') {
            self.take_bits(number(rt, start), bits);
        } else {
            self.change(instant(rt, word));
        }
    }

    fn take_bits(&mut self, start: u32, digits: &str) {
        let mut bits: ArrayVec<bool, 160> = ArrayVec::new();
        for digit in digits.as_bytes() {
            let _ = bits.try_push(*digit == b'1');
        }
        self.take_line(lay(&bits, u64::from(start)).as_slice());
    }

    fn take_line(&mut self, line: &[Stretch]) {
        for stretch in line {
            self.change(stretch.from);
            self.change(stretch.to);
        }
    }
}

fn instant(rt: &impl Abort, word: &str) -> u64 {
    u64::from(number(rt, word))
}

fn listener_of(rt: &impl Abort, words: &str) -> Listener {
    let mut listener = Listener::new();
    for word in words.split_whitespace() {
        listener.take(rt, word);
    }
    listener
}

/// Instants at which a line falls and rises in turn, and what was told last: code, kind, ending, bit and slot.
const HEARD: &str = "\
1000 => 0 0 0 false 0
1000 4700 => 0 0 0 false 0
1000 4700 5500 6100 .6550 => 0 1 0 true 1
1000 4700 5500 7000 7900 .8950 => 0 1 0 false 2
12000:0000000011 .39150 => 0 2 1 true 0
1000:0000000000000000000000000000000000000000000000000000000000000000000000000000000000000000000000000000000000000000000000000000000000000000000000000000000000000000 => 0 2 5 false 0
1000 4700 5500 6100 7549 => 0 3 2 false 0
1000 4700 5500 6100 .8251 => 0 3 3 false 0
1000 4499 => 0 3 4 false 0";

fn heard_text(rt: &(impl Abort + AllocGlobal), heard: &InstantHeard) -> String {
    let InstantHeard {
        code,
        kind,
        ending,
        bit,
        slot,
    } = *heard;
    format!(in rt.alloc(); "{code} {kind} {ending} {bit} {slot}").expect(rt, "a text")
}

#[test]
fn instants_tell_kinds_and_endings(rt: HostRuntime) {
    for row in HEARD.lines() {
        let (words, want) = row.split_once(" => ").expect(&rt, row);
        let told = heard_text(&rt, &listener_of(&rt, words).heard);
        is_told(&rt, told.as_str(), want, row);
    }
}

/// Such instants, and the reading that they ended: begin, instant of the ending, ending, and how many bits.
const READ: &str = "\
12000:0000000011 .39150 => 12000 39150 1 10
1000:0000000000000000000000000000000000000000000000000000000000000000000000000000000000000000000000000000000000000000000000000000000000000000000000000000000000000000 => 1000 388150 5 160
1000 4700 5500 6100 7549 => 1000 7549 2 1
1000 4700 5500 6100 .8251 => 1000 8251 3 1
1000 4499 => 1000 4499 4 0
1000 4700 .5701 => 1000 5701 4 0";

fn reading_text(rt: &(impl Abort + AllocGlobal), reading: &ReadingParts) -> String {
    let (begin, at) = (reading.begin, reading.at);
    let (ending, count) = (reading.ending, reading.count);
    format!(in rt.alloc(); "{begin} {at} {ending} {count}").expect(rt, "a text")
}

#[test]
fn endings_have_numbers(rt: HostRuntime) {
    for row in READ.lines() {
        let (words, want) = row.split_once(" => ").expect(&rt, row);
        let read = reading_text(&rt, &listener_of(&rt, words).reading);
        is_told(&rt, read.as_str(), want, row);
    }
}

// A start bit is low for at most 3,900, so that one that stays low ends at 3,901 (CEC 5.2.1). What runs is open.
#[test]
fn what_runs_is_open(rt: HostRuntime) {
    let mut reading = reading_of(0, "");
    let idle = receiver_new();
    holds(&rt, receiver_wakes_at(&idle).code == 4, "no wake");
    let code = receiver_running(&idle, 5, &mut reading);
    holds(&rt, code == 4 && reading.ending == 0, "no reading");
    let listener = listener_of(&rt, "1000");
    let wake = receiver_wakes_at(&listener.receiver);
    holds(&rt, wake.code == 0 && wake.at == 4901, "a wake");
    let listener = listener_of(&rt, "1000 4700 5500 6100 7900");
    let code = receiver_running(&listener.receiver, 8000, &mut reading);
    let text = reading_text(&rt, &reading);
    holds(&rt, code == 0 && reading.bits[0], "the bit of a reading");
    is_told(&rt, text.as_str(), "1000 8000 6 1", "an open reading");
}

/// Turns one number of a state into one that no receiver keeps.
fn spoilt(field: u32) -> ReceiverParts {
    let mut receiver = receiver_new();
    match field {
        0 => receiver.place = 5,
        1 => receiver.count = 160,
        2 => receiver.begin = 3_000_000_000_001,
        _ => receiver.fall = 3_000_000_000_001,
    }
    receiver
}

#[test]
fn spoilt_receivers_are_refused(rt: HostRuntime) {
    for field in 0..4 {
        let mut receiver = spoilt(field);
        let mut reading = reading_of(0, "");
        let heard = receiver_hear(&mut receiver, 1, true, &mut reading);
        let told = heard_text(&rt, &heard);
        is_told(&rt, told.as_str(), "2 0 0 false 0", "a spoilt state");
        holds(&rt, receiver_wakes_at(&receiver).code == 2, "a wake");
        let code = receiver_running(&receiver, 1, &mut reading);
        holds(&rt, code == 2 && reading.ending == 0, "a reading");
    }
}

#[test]
fn instants_have_a_limit(rt: HostRuntime) {
    let mut receiver = receiver_new();
    let mut reading = reading_of(0, "");
    let late = receiver_hear(&mut receiver, LATEST + 1, true, &mut reading);
    holds(&rt, late.code == 3 && !receiver.is_low, "one too late");
    let last = receiver_hear(&mut receiver, LATEST, true, &mut reading);
    holds(&rt, last.code == 0 && receiver.is_low, "the last");
}
