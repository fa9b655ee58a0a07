//! What became of a sender's frame, and the number of each fate.
use crate::readings::reading_of;
use crate::rooms::{byte, first_word, is_told, number};
use crate::senders::nothing;
use library_wire::{sender_begin, sender_fate};
use line_reading::SenderParts;
use std::process::Abort;

/// A sender of <Image View On> from 4 to 0 that stands so.
fn sender_at(state: u8, slot: u64) -> SenderParts {
    let mut sender = nothing();
    let _ = sender_begin(&mut sender, b"\x40\x04", 1000);
    sender.state = state;
    sender.slot = slot;
    sender
}

/// How a sender stands and at which slot it was out, how its reading ended, and the reading's bits; and what is answered: the
/// number of a code and that of a fate, 1 delivered, 2 not acknowledged, 3 lost to another initiator, 4 broken. Arbitration is
/// decided in the first four slots, the initiator's address, and each tenth slot is an acknowledge slot (CEC 6.1 and 9).
const FATES: &str = "\
2 0 1 01000000000000010010 => 0 1
2 0 1 01000000000000010011 => 0 2
1 10 1 01000000000000010010 => 0 2
1 20 1 01000000000000010010 => 0 2
1 1 1 01000000000000010010 => 0 3
1 4 1 01000000000000010010 => 0 3
1 5 1 01000000000000010010 => 0 4
1 11 1 01000000000000010010 => 0 4
2 0 2 01000000000000010010 => 0 4
2 0 3 01000000000000010010 => 0 4
2 0 4 01000000000000010010 => 0 4
2 0 5 01000000000000010010 => 0 4
0 0 1 01000000000000010010 => 4 0
2 0 6 01000000000000010010 => 4 0
2 0 0 01000000000000010010 => 2 0
2 0 7 01000000000000010010 => 2 0
3 0 1 01000000000000010010 => 2 0
2 1 1 01000000000000010010 => 2 0";

fn fate_text(rt: &(impl Abort + AllocGlobal), words: &str) -> String {
    let (state, words) = first_word(words);
    let (slot, words) = first_word(words);
    let (ending, bits) = first_word(words);
    let sender = sender_at(byte(rt, state), u64::from(number(rt, slot)));
    let answer = sender_fate(&sender, &reading_of(byte(rt, ending), bits));
    let (code, fate) = (answer.code, answer.fate);
    format!(in rt.alloc(); "{code} {fate}").expect(rt, "a text")
}

#[test]
fn fates_have_numbers(rt: HostRuntime) {
    for row in FATES.lines() {
        let (words, want) = row.split_once(" => ").expect(&rt, row);
        is_told(&rt, fate_text(&rt, words).as_str(), want, row);
    }
}
