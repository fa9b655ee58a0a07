//! Worked lines: what is laid, what is read, and what receivers and frames tell.
use crate::frames::{order_text, part_text, received_text};
use crate::receivers::{due_text, last_text, read_text, standing_text};
use crate::senders::{pull_text, state_text};
use crate::words::{bits_of, is_reported, number, stretches_of};
use line_wave::{Pulls, Pulses, Stretch, Wave, lay};
use std::process::Abort;

/// What is asked, of which words, and what is reported. `12000:01` are a sender's bits from 12,000 on.
const CASES: &str = "\
# What is laid for a 0 and a 1, and pulses that are far enough apart.
lay 12000:01 => [Stretch { from: 12000, to: 15700 }, Stretch { from: 16500, to: 18000 }, Stretch { from: 18900, to: 19500 }]
pulses 100000-100400 125400-125401 => [Stretch { from: 100000, to: 100400 }, Stretch { from: 125400, to: 125401 }]
# So many pulses, the first as it stands there: that they are too many comes before what is wrong with the first.
crowd 4096 5-405 => 4096
crowd 4097 5-405 => TooMany
crowd 4097 5-5 => TooMany
crowd 4097 7-5 => TooMany
crowd 4096 7-5 => Width
crowd 4097 125001-125401 => TooMany
crowd 4096 125001-125401 => Order
crowd 4097 125000-125400 => TooMany
crowd 4096 125000-125400 => Close
# Pulls that are in order, and some that are not: one touches another, one is empty, one ends before it begins.
dense 5-405 406-407 500-40000 => 3
dense 5-405 405-407 => none
dense 5-405 404-407 => none
dense 5-5 => none
dense 7-5 => none
# A copy of those that begin after an instant.
left 405 5-405 406-407 500-40000 => [Stretch { from: 406, to: 407 }, Stretch { from: 500, to: 40000 }]
left 406 5-405 406-407 500-40000 => [Stretch { from: 500, to: 40000 }]
# When and how a reading ends, and its bits: a sender that nobody acknowledges, and one that is cut off after its header.
read 12000:0000000011 => 39150 Complete [0000000011]
read 1000000:0100100001 => 1028851 Silent [0100100001]
# A start bit and the first of a slot, and then nothing.
read 1000-4700 5500-6100 => 8251 Silent [1]
# Low for 3,000, and low for more than 3,900.
read 5000-8000 => 8000 BadStart []
read 12000-15901 => 15901 BadStart []
# A fall 2,049 after a slot's is too early, one 2,050 after it is the next slot's.
read 1000000-1003700 1004500-1006000 1006549-1006949 => 1006549 Short [0]
read 1000000-1003700 1004500-1006000 1006550-1006950 => 1009301 Silent [01]
# What a receiver tells last of a line that falls and rises in turn. The start bit's rise is due 3,500 to 3,900 after its fall.
last 1000 4499 => 4499 Ended(BadStart)
last 1000 4500 => 5701 Ended(BadStart)
last 1000 4900 => 5701 Ended(BadStart)
last 1000 4901 => 4901 Ended(BadStart)
# The first slot's fall is due 4,300 to 4,700 after the start bit's. A fall at 4,701 begins a reading of its own.
last 1000 4700 5299 5899 => 5299 Ended(BadStart)
last 1000 4700 5300 5900 => 8051 Ended(Silent)
last 1000 4700 5700 6300 => 8451 Ended(Silent)
last 1000 4700 5701 6301 => 6301 Ended(BadStart)
# The next slot's fall is due 2,050 to 2,750 after the slot's; a fall at 2,751 begins a reading of its own.
last 1000 4700 5500 6100 7549 7949 => 7549 Ended(Short)
last 1000 4700 5500 6100 7550 7950 => 10301 Ended(Silent)
last 1000 4700 5500 6100 8250 8650 => 11001 Ended(Silent)
last 1000 4700 5500 6100 8251 8651 => 8651 Ended(BadStart)
# A fall up to the sample goes before it.
last 1000 4700 5500 6000 6550 => 6550 Ended(Short)
last 1000 4700 5500 6000 6551 => 6551 Ended(Short)
# Sixteen blocks without an end of message end with the sample of slot 160.
last 1000:0000000000000000000000000000000000000000000000000000000000000000000000000000000000000000000000000000000000000000000000000000000000000000000000000000000000000000 => 388150 Last(false, Long)
# In the acknowledge slot of the last block a fall up to the sample is too early, and a later one begins no slot.
last 12000:0000000011 => 39150 Last(true, Complete)
last 12000:0000000011 39150 => 39150 Ended(Short)
# An acknowledgement that began before the fall at 38,100 would make the early fall that it answers.
last 12000 15700 16500 18000 18900 20400 21300 22800 23700 25200 26100 27600 28500 30000 30900 32400 33300 34800 35700 36300 37900 39400 => 38950 Last(false, Complete)
# A receiver stands in each of its states in turn, wakes when the line stays as it is too long, and has told so much.
stand => Idle None 0
stand 1000 => StartLow Some(4901) 0
stand 1000 4700 => StartHigh Some(5701) 0
stand 1000 4700 5500 => Slot(1, []) Some(6550) 0
stand 1000 4700 5500 6100 7900 => Slot(2, [true]) Some(8950) 1
stand 1000 4700 5500 6100 7000 => WaitHigh None 2
stand 1000 4700 5500 6100 7000 7400 => Idle None 2
# An ending that needs no edge leaves its instant to the line: a fall there begins the next reading, and tells nothing.
last 1000 4700 => 5701 Ended(BadStart)
stand 1000 4700 .5701 => Idle None 1
stand 1000 4700 .5701 5701 => StartLow Some(9602) 1
# A reading is due at one instant, where the fall that ends the start bit or a slot did not come in time.
due => -
due 1000 => -
due 1000 4700 => 5701
due 1000 4700 5500 => -
due 1000 4700 5500 6100 .6550 => 8251
# Image View On from 4 to 0, and Give Device Power Status from 5 to 0, sent together: 4 wins.
order 50,8f 40,04 => false true [1]
# A broadcast of four bytes.
from 4f,82,10,00 => 4
to 4f,82,10,00 => 15
poll 4f,82,10,00 => false
bits 4f,82,10,00 => 0100111101100000100100010000010000000011
bytes 4f,82,10,00 => [79, 130, 16, 0]
# 4 to 0, not the last block, acknowledged; Image View On, the last block, acknowledged.
received Complete 01000000000000010010 => [64, 4]
received Silent 01000000000000010010 => none
# Whether a sender of a poll from 12,000 on pulls, and when it changes next: it goes by the nominal times.
pulls 0 => false Some(12000)
pulls 11999 => false Some(12000)
pulls 12000 => true Some(15700)
pulls 15699 => true Some(15700)
pulls 15700 => false Some(16500)
pulls 16499 => false Some(16500)
pulls 16500 => true Some(18000)
pulls 38700 => false None
# It stops where another bit is read, at the first such slot.
state 1:0@17550 => Sending
state 1:0@17550 2:0@19950 => Out(2)
state 1:0@17550 2:0@19950 3:1@22350 => Out(2)
# Cut off in a low stretch, it lets go one microsecond after it stopped.
state short@16600 => Stopped
pulls 16500 short@16600 => true Some(16601)
pulls 16600 short@16600 => true Some(16601)
pulls 16601 short@16600 => false None
";

/// What a sender of such bits pulls, as `12000:01`.
pub(crate) fn laid(rt: &impl Abort, word: &str) -> Wave<161> {
    let (start, bits) = word.split_once(':').expect(rt, "bits");
    lay(&bits_of(bits), u64::from(number(rt, start)))
}

fn laid_text(rt: &(impl Abort + AllocGlobal), word: &str) -> String {
    format!(in rt.alloc(); "{:?}", laid(rt, word).as_slice()).expect(rt, "a text")
}

fn pulses_text(rt: &(impl Abort + AllocGlobal), words: &str) -> String {
    let pulses = Pulses::new(&stretches_of(rt, words)).expect(rt, "pulses");
    format!(in rt.alloc(); "{:?}", pulses.as_slice()).expect(rt, "a text")
}

/// So many stretches, of which the others are 400 wide and as near as they may be to each other.
fn crowd(rt: &(impl Abort + AllocGlobal), first: &str, count: u32) -> Vec<Stretch> {
    let mut stretches = Vec::new(rt.alloc());
    stretches
        .extend_from_slice(&stretches_of(rt, first))
        .expect(rt, "stretches");
    for place in 1..count {
        let from = 100_000 + u64::from(place) * 25_400;
        let to = from + 400;
        stretches.push(Stretch { from, to }).expect(rt, "stretches");
    }
    stretches
}

fn crowd_text(rt: &(impl Abort + AllocGlobal), words: &str) -> String {
    let (count, first) = words.split_once(' ').expect(rt, "a count");
    let text = match Pulses::new(&crowd(rt, first, number(rt, count))) {
        Ok(pulses) => format!(in rt.alloc(); "{}", pulses.as_slice().len()),
        Err(error) => format!(in rt.alloc(); "{error:?}"),
    };
    text.expect(rt, "a text")
}

fn dense_text(rt: &(impl Abort + AllocGlobal), words: &str) -> String {
    let text = match Pulls::new(&stretches_of(rt, words)) {
        Some(pulls) => format!(in rt.alloc(); "{}", pulls.as_slice().len()),
        None => format!(in rt.alloc(); "none"),
    };
    text.expect(rt, "a text")
}

fn left_text(rt: &(impl Abort + AllocGlobal), words: &str) -> String {
    let (instant, stretches) = words.split_once(' ').expect(rt, "an instant");
    let mut pulls = Pulls::new(&stretches_of(rt, stretches)).expect(rt, "pulls");
    pulls.drop_until(u64::from(number(rt, instant)));
    format!(in rt.alloc(); "{:?}", pulls.copy().as_slice()).expect(rt, "a text")
}

/// What is reported of what is asked.
fn reported(rt: &(impl Abort + AllocGlobal), asked: &str) -> String {
    let (verb, words) = asked.split_once(' ').unwrap_or((asked, ""));
    match verb {
        "lay" => laid_text(rt, words),
        "pulses" => pulses_text(rt, words),
        "crowd" => crowd_text(rt, words),
        "dense" => dense_text(rt, words),
        "left" => left_text(rt, words),
        "read" => read_text(rt, words),
        "last" => last_text(rt, words),
        "stand" => standing_text(rt, words),
        "due" => due_text(rt, words),
        "order" => order_text(rt, words),
        "received" => received_text(rt, words),
        "pulls" => pull_text(rt, words),
        "state" => state_text(rt, words),
        _ => part_text(rt, verb, words),
    }
}

/// Asserts that a case comes out as it was worked out. A comment is none.
fn comes_out(rt: &(impl Abort + AllocGlobal), case: &str) {
    if !case.starts_with('#') {
        let (asked, want) = case.split_once(" => ").expect(rt, "an answer");
        is_reported(rt, reported(rt, asked), want, asked);
    }
}

#[test]
fn cases_come_out_as_worked_out(rt: HostRuntime) {
    for case in CASES.lines() {
        comes_out(&rt, case);
    }
}
