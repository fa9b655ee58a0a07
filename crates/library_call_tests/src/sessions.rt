//! Sessions, as docs/live.md has them: what each call answers, and each refusal.
use crate::rooms::{UNTOUCHED, holds, is_put, is_refused, is_small};
use crate::runs::TOPOLOGY;
use library_answers::Answer;
use library_live::LiveRoom;
use std::alloc::AllocGlobal;
use std::process::Abort;

const ROOM: usize = 400;

/// The session of docs/live.md: lines, and what is put for each.
const TALK: [(&str, &str); 7] = [
    (
        "run to 400000",
        "\
12000 39150 complete 0>0 nack by tv out -
50705 77855 complete 4>4 nack by p1 out -
89405 212555 complete 0>f report-physical-address 0.0.0.0 tv ok by tv out -
224105 347255 complete 4>f report-physical-address 1.0.0.0 playback ok by p1 out -
= 400000
",
    ),
    ("wait", "= 400000 idle\n"),
    ("at 1000000 press p1 play", "= 400000\n"),
    ("frob", "! 4 word\n"),
    ("pulse 1006500 100", "= 400000\n"),
    ("wait", "1000000 event 3 ok\n= 1000001\n"),
    ("wait", "1000000 1006500 short 0 by p1 out -\n= 1010101\n"),
];

/// The pin's lines of docs/live.md, in a room with a television alone.
const PINS: [(u64, bool, &str); 2] = [
    (1026400, true, "= 1000000\n"),
    (1027600, false, "= 1000000\n"),
];

/// What a call answers of a topology whose line of this number is at fault: there is no such line.
const fn unknown(line: u64) -> Answer {
    Answer {
        code: 60,
        line,
        length: 0,
    }
}

fn opened(rt: &(impl Abort + AllocGlobal), live: &mut LiveRoom, topology: &str) {
    let mut room = [UNTOUCHED; ROOM];
    let answer = live.open(rt.alloc(), topology.as_bytes(), &mut room);
    holds(rt, is_put(answer, &room, b""), "opened");
}

/// A line is answered so.
fn says(rt: &(impl Abort + AllocGlobal), live: &mut LiveRoom, line: &str, text: &str) {
    let mut room = [UNTOUCHED; ROOM];
    let answer = live.line(rt.alloc(), line.as_bytes(), &mut room);
    holds(rt, is_put(answer, &room, text.as_bytes()), line);
}

#[test]
fn lines_are_answered_as_live_answers_them(rt: HostRuntime) {
    let mut live = LiveRoom::closed();
    opened(&rt, &mut live, TOPOLOGY);
    for (line, text) in TALK {
        says(&rt, &mut live, line, text);
    }
    live.close(rt.alloc());
}

/// What is put for `run to 80000` in that room.
const POLLS: &[u8] = b"\
12000 39150 complete 0>0 nack by tv out -
50705 77855 complete 4>4 nack by p1 out -
= 80000
";

#[test]
fn a_text_that_does_not_fit_is_put_again(rt: HostRuntime) {
    let mut live = LiveRoom::closed();
    opened(&rt, &mut live, TOPOLOGY);
    let mut small = [UNTOUCHED; 8];
    let answer = live.line(rt.alloc(), b"run to 12001", &mut small);
    holds(&rt, is_put(answer, &small, b"= 12001\n"), "eight bytes");
    let mut small = [UNTOUCHED; 91];
    let answer = live.line(rt.alloc(), b"run to 80000", &mut small);
    holds(&rt, is_small(answer, &small, 92), "one byte too many");
    let mut room = [UNTOUCHED; 92];
    let answer = live.again(rt.alloc(), &mut room);
    holds(&rt, is_put(answer, &room, POLLS), "it is put again");
    says(&rt, &mut live, "run to 80001", "= 80001\n");
    live.close(rt.alloc());
}

#[test]
fn pins_and_edges_are_lines(rt: HostRuntime) {
    let mut live = LiveRoom::closed();
    opened(&rt, &mut live, "device tv tv 4\n");
    let mut room = [UNTOUCHED; ROOM];
    let answer = live.edge(rt.alloc(), 20000, &mut room);
    holds(
        &rt,
        is_put(answer, &room, b"~ 12000 0\n= 12001\n"),
        "the next edge",
    );
    let mut room = [UNTOUCHED; ROOM];
    let _ = live.line(rt.alloc(), b"run to 1000000", &mut room);
    for (t, is_low, text) in PINS {
        let mut room = [UNTOUCHED; ROOM];
        let answer = live.pin(rt.alloc(), t, is_low, &mut room);
        holds(&rt, is_put(answer, &room, text.as_bytes()), text);
    }
    let mut room = [UNTOUCHED; ROOM];
    let answer = live.edge(rt.alloc(), 1030000, &mut room);
    holds(
        &rt,
        is_put(answer, &room, b"~ 1026400 0\n= 1026401\n"),
        "the pin's edge",
    );
    live.close(rt.alloc());
}

#[test]
fn refusals_have_numbers(rt: HostRuntime) {
    let mut live = LiveRoom::closed();
    let mut room = [UNTOUCHED; ROOM];
    let answer = live.line(rt.alloc(), b"wait", &mut room);
    holds(&rt, is_refused(answer, &room, 6), "none is open");
    let answer = live.again(rt.alloc(), &mut room);
    holds(&rt, is_refused(answer, &room, 6), "nothing to put again");
    let answer = live.open(rt.alloc(), b"device tv tv 4\nfrob\n", &mut room);
    holds(&rt, answer == unknown(2), "a topology");
    opened(&rt, &mut live, TOPOLOGY);
    let answer = live.line(rt.alloc(), b"wait\n", &mut room);
    holds(&rt, is_refused(answer, &room, 7), "a line's end");
    let answer = live.line(rt.alloc(), &[b'a'; 4097], &mut room);
    holds(&rt, is_refused(answer, &room, 7), "a long line");
    let answer = live.line(rt.alloc(), &[b'a'; 4096], &mut room);
    holds(
        &rt,
        is_put(answer, &room, b"! 1 word\n"),
        "the longest line",
    );
    let mut room = [UNTOUCHED; ROOM];
    let answer = live.open(rt.alloc(), b"frob\n", &mut room);
    holds(&rt, answer == unknown(1), "another topology");
    says(&rt, &mut live, "run to 5", "= 5\n");
    let _ = live.line(rt.alloc(), b"end 5", &mut room);
    let mut room = [UNTOUCHED; ROOM];
    let answer = live.line(rt.alloc(), b"wait", &mut room);
    holds(&rt, is_refused(answer, &room, 6), "its script has ended");
    live.close(rt.alloc());
    let answer = live.again(rt.alloc(), &mut room);
    holds(&rt, is_refused(answer, &room, 6), "it is closed");
}
