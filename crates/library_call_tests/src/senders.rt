//! A sender whose state its caller keeps, and each number that its calls answer.
use crate::rooms::{byte, first_word, holds, is_told, number};
use library_wire::{InstantHeard, sender_begin, sender_heard, sender_next_change, sender_pulls};
use line_reading::SenderParts;
use std::process::Abort;

/// The last instant that a sender takes, in microseconds.
const LATEST: u64 = 3_000_000_000_000;

/// A struct that no call has filled.
pub(crate) fn nothing() -> SenderParts {
    SenderParts {
        begin: 0,
        last: 0,
        slot: 0,
        state: 0,
        count: 0,
        bytes: [0; 16],
    }
}

/// A sender of a poll of address 0 by 4, from 12,000 on: the bits 0100 0000 and the end of message.
fn poll() -> SenderParts {
    let mut sender = nothing();
    let _ = sender_begin(&mut sender, b"\x40", 12_000);
    sender
}

#[test]
fn senders_begin(rt: HostRuntime) {
    let mut sender = nothing();
    let code = sender_begin(&mut sender, b"", 1);
    holds(&rt, code == 10 && sender.count == 0, "no byte");
    let code = sender_begin(&mut sender, &[0x40; 17], 1);
    holds(&rt, code == 11 && sender.count == 0, "17 bytes");
    let code = sender_begin(&mut sender, b"\x40", LATEST + 1);
    holds(&rt, code == 3 && sender.count == 0, "one too late");
    let code = sender_begin(&mut sender, b"\x40", LATEST);
    holds(&rt, code == 0 && sender.count == 1, "the last");
    let code = sender_begin(&mut sender, &[0x40; 16], 1);
    holds(&rt, code == 0 && sender.count == 16, "16 bytes");
}

/// What a receiver told at 17,550: kind, ending, bit and slot; what the sender answers, its state then, and the slot at which it
/// is out. Kinds go from 0 to 3, endings from 1 to 6.
const HEARD: &str = "\
0 0 0 0 => 0 0 0
1 0 0 1 => 0 0 0
1 0 1 1 => 0 1 1
1 0 0 2 => 0 1 2
2 1 1 0 => 0 2 0
3 1 0 0 => 0 2 0
3 2 0 0 => 0 2 0
3 3 0 0 => 0 2 0
3 4 0 0 => 0 2 0
3 5 0 0 => 0 2 0
3 6 0 0 => 0 2 0
2 0 1 0 => 5 0 0
2 7 1 0 => 5 0 0
3 0 0 0 => 5 0 0
3 7 0 0 => 5 0 0
4 1 0 0 => 5 0 0
255 1 0 0 => 5 0 0";

fn heard_of(rt: &impl Abort, words: &str) -> InstantHeard {
    let (kind, words) = first_word(words);
    let (ending, words) = first_word(words);
    let (bit, slot) = first_word(words);
    InstantHeard {
        code: 0,
        kind: byte(rt, kind),
        ending: byte(rt, ending),
        bit: bit == "1",
        slot: u64::from(number(rt, slot)),
    }
}

fn state_text(rt: &(impl Abort + AllocGlobal), words: &str) -> String {
    let mut sender = poll();
    let code = sender_heard(&mut sender, &heard_of(rt, words), 17_550);
    let (state, slot) = (sender.state, sender.slot);
    format!(in rt.alloc(); "{code} {state} {slot}").expect(rt, "a text")
}

#[test]
fn what_is_heard_has_kinds_and_endings(rt: HostRuntime) {
    for row in HEARD.lines() {
        let (words, want) = row.split_once(" => ").expect(&rt, row);
        is_told(&rt, state_text(&rt, words).as_str(), want, row);
    }
}

fn nothing_heard() -> InstantHeard {
    InstantHeard {
        code: 0,
        kind: 0,
        ending: 0,
        bit: false,
        slot: 0,
    }
}

// A start bit is low for 3,700; a 0 is low for 1,500 from 4,500 on, a 1 for 600 (CEC 5.2).
#[test]
fn pulls_and_changes_are_reported(rt: HostRuntime) {
    let sender = poll();
    let pull = sender_pulls(&sender, 15_699);
    holds(&rt, pull.code == 0 && pull.is_low, "the start bit");
    let pull = sender_pulls(&sender, 15_700);
    holds(&rt, pull.code == 0 && !pull.is_low, "after it");
    let change = sender_next_change(&sender, 12_000);
    holds(&rt, change.code == 0 && change.at == 15_700, "the rise");
    let change = sender_next_change(&sender, 15_700);
    holds(&rt, change.code == 0 && change.at == 16_500, "a fall");
    let change = sender_next_change(&sender, 38_700);
    holds(&rt, change.code == 4 && change.at == 0, "no change");
}

#[test]
fn senders_have_a_last_instant(rt: HostRuntime) {
    let mut sender = poll();
    let pull = sender_pulls(&sender, LATEST);
    holds(&rt, pull.code == 0 && !pull.is_low, "the last pull");
    let pull = sender_pulls(&sender, LATEST + 1);
    holds(&rt, pull.code == 3 && !pull.is_low, "a pull too late");
    let change = sender_next_change(&sender, LATEST);
    holds(&rt, change.code == 4, "the last change");
    let change = sender_next_change(&sender, LATEST + 1);
    holds(&rt, change.code == 3 && change.at == 0, "a change too late");
    let code = sender_heard(&mut sender, &nothing_heard(), LATEST);
    holds(&rt, code == 0, "the last that is heard");
    let code = sender_heard(&mut sender, &nothing_heard(), LATEST + 1);
    holds(&rt, code == 3, "too late to hear");
}

/// Turns one number of a state into one that no sender keeps.
fn spoilt(field: u32) -> SenderParts {
    let mut sender = poll();
    match field {
        0 => sender.count = 0,
        1 => sender.count = 17,
        2 => sender.state = 3,
        3 => sender.begin = LATEST + 1,
        _ => sender.slot = 1,
    }
    sender
}

#[test]
fn spoilt_senders_are_refused(rt: HostRuntime) {
    for field in 0..5 {
        let mut sender = spoilt(field);
        let code = sender_heard(&mut sender, &nothing_heard(), 1);
        holds(&rt, code == 2, "heard");
        holds(&rt, sender_pulls(&sender, 1).code == 2, "a pull");
        let change = sender_next_change(&sender, 1);
        holds(&rt, change.code == 2, "a change");
    }
}
