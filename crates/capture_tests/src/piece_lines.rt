//! What is said of the pieces of captured lines.
use crate::piece_spelling::line_of;
use piece_audit::add_pieces;
use record_core::Form;
use std::process::Abort;
use text_core::{Counted, Writes};

/// A line, and its pieces: where each begins, how it ends, and what is said of it.
type Row = (&'static str, &'static str);

/// Frames that the standard allows, a poll of 0 by 4 first, acknowledged or not (CEC 6.1.2, 7.2, 7.3).
const LEGAL: &[Row] = &[
    (
        "@100000 S 0 1 0 0 0 0 0 0 1 0",
        "100000 127150 complete 4>0 ack\n",
    ),
    (
        "@100000 S 0 1 0 0 0 0 0 0 1 0 @200000 S 0 1 0 0 0 0 0 0 1 0",
        "100000 127150 complete 4>0 ack\n200000 227150 complete 4>0 ack\n",
    ),
    (
        "@100000 S 0 1 0 0 0 0 0 1 1 1",
        "100000 127150 complete 4>1 nack\n  poll unanswered\n",
    ),
    (
        "@100000 S 0 1 0 0 0 0 0 0 0 1",
        "100000 126100 silent 0100000001\n  not acknowledged\n",
    ),
    (
        "@100000 S 0 1 0 0 1 1 1 1 0 0",
        "100000 126100 silent 0100111100\n  refused\n",
    ),
    (
        "@100000 S 0 1 0 0 1 1 1 1 1 0",
        "100000 127150 complete 4>f refused\n  refused\n",
    ),
    (
        "@100000 S 0 1 0 0 1 1 1 1 1 1",
        "100000 127150 complete 4>f ok\n",
    ),
    (
        "@100000 S 0 1 0",
        "100000 109300 silent 010\n  arbitration lost\n",
    ),
    (
        "@3000 1 0",
        "3000 5400 bad-start -\n  begins in mid frame\n",
    ),
    (
        "@5999 1 0",
        "5999 8399 bad-start -\n  begins in mid frame\n",
    ),
    (
        "@100000 S 0 1 |",
        "100000 106900 open 01\n  cut by the end\n",
    ),
];

/// Frames that end otherwise.
const ENDINGS: &[Row] = &[
    (
        "@100000 S 0 1 0 0 0 0 0 0 0 0",
        "100000 126100 silent 0100000000\n  ends after block 1 without EOM by initiator 4\n",
    ),
    (
        "@100000 S 0 1 0 0 0 0 0 0",
        "100000 121300 silent 01000000\n  stops after slot 8 by initiator 4\n",
    ),
    (
        "@100000 S 0 1",
        "100000 106900 silent 01\n  stops after slot 2 by initiator -\n",
    ),
    (
        "@100000 S 0 1 0 0 0",
        "100000 114100 silent 01000\n  stops after slot 5 by initiator 4\n",
    ),
    (
        "@100000 S",
        "100000 100000 silent -\n  low for 3700 and nothing after it\n",
    ),
    (
        "@100000 5540/900",
        "100000 100000 silent -\n  low for 5540 and nothing after it\n",
    ),
    (
        "@100000 5541/900",
        "100000 100000 silent -\n  low for 5541, at most 5540\n",
    ),
    (
        "@100000 S 0 1 0 0 3600/900",
        "100000 114100 short 0100\n  low drive 3600 after slot 4, 2400 from its fall\n",
    ),
    (
        "@100000 S 0 1 0 0 3600/200 1 1 0",
        "100000 114100 short 0100\n  low drive 3600 after slot 4, 2400 from its fall\n",
    ),
    (
        "@100000 S 0 1 0 0 3000/900",
        "100000 114100 short 0100\n  low drive 3000 not 3360..3840 after slot 4, 2400 from its fall by a follower\n",
    ),
    (
        "@100000 S 0 1 0 0 S 0 1 0 0 0 0 0 0 1 0",
        "100000 111700 short 0100\n  another start bit after slot 4\n114100 141250 complete 4>0 ack\n",
    ),
    (
        "@100000 S 0 600/849 600/1800 1",
        "100000 108349 short 01\n  another fall after slot 2, 1449 from its fall\n",
    ),
    (
        "@100000 S 0 1 0 0 0 0 0 0 1 0 1 1 1",
        "100000 127150 complete 4>0 ack\n  bits after EOM: 3 by initiator 4\n",
    ),
    (
        "@100000 1 1 0",
        "100000 104800 bad-start -\n  bits without a start bit: 3\n",
    ),
    (
        "@6000 1",
        "6000 6000 bad-start -\n  bits without a start bit: 1\n",
    ),
    (
        "@100000 S 0 1 0 0 0 0 0 0 0 1 0 0 1 1 0 1 1 0 1 0",
        "100000 151150 complete 4>0 standby ack\n  not acknowledged\n  goes on after block 1, which was not taken, by initiator 4\n",
    ),
];

/// Widths within their windows and out of them (CEC 5.2): each kind is said once, of who may be at fault.
const WIDTHS: &[Row] = &[
    (
        "@100000 3499/1001 0 1 0 0 0 0 0 0 1 0",
        "100000 127150 complete 4>0 ack\n  start low 3499 not 3500..3900 by initiator 4\n",
    ),
    (
        "@100000 3500/1000 0 1 0 0 0 0 0 0 1 0",
        "100000 127150 complete 4>0 ack\n",
    ),
    (
        "@100000 3700/1001 0 1 0 0 0 0 0 0 1 0",
        "100000 127351 complete 4>0 ack\n  start total 4701 not 4300..4700 by initiator 4\n",
    ),
    (
        "@100000 3700/1000 0 1 0 0 0 0 0 0 1 0",
        "100000 127350 complete 4>0 ack\n",
    ),
    (
        "@100000 S 0 801/1599 0 0 0 0 0 0 1 0",
        "100000 127150 complete 4>0 ack\n  slot 2 block 1 bit 2 low 801 not 400..800 by initiator 4\n",
    ),
    (
        "@100000 S 0 399/2001 0 0 0 0 0 0 1 0",
        "100000 127150 complete 4>0 ack\n  slot 2 block 1 bit 2 low 399 not 400..800 by initiator 4\n",
    ),
    (
        "@100000 S 1299/1101 1 1298/1102 1299/1101 0 0 0 0 1 0",
        "100000 127150 complete 4>0 ack\n  slot 1 block 1 bit 1 low 1299 not 1300..1700 (1298..1299 in 3 slots) by initiator 4\n",
    ),
    (
        "@100000 S 0 1 0 0 0 0 0 0 1 1299/1101",
        "100000 127150 complete 4>0 ack\n  slot 10 block 1 bit 10 low 1299 not 1300..1700 by follower 0\n",
    ),
    (
        "@100000 S 0 1 0 0 0 0 0 0 1 900/1500",
        "100000 127150 complete 4>0 nack\n  slot 10 block 1 bit 10 low 900 not 400..800 by initiator 4 or follower 0\n  poll unanswered\n",
    ),
    (
        "@100000 S 0 1 0 0 1 1 1 1 1 900/1500",
        "100000 127150 complete 4>f ok\n  slot 10 block 1 bit 10 low 900 not 400..800 by initiator 4 or a follower\n",
    ),
    (
        "@100000 S 0 1 0 0 0 0 0 0 1 600/400 900/500",
        "100000 127150 complete 4>0 ack\n  slot 10 block 1 bit 10 late 1000 not 0..350 by follower 0\n",
    ),
    (
        "@100000 S 0 1 0 0 0 0 600/1449 0 1 0",
        "100000 126799 complete 4>2 ack\n  slot 7 block 1 bit 7 total 2049 not 2050..2750 by initiator 4\n",
    ),
    (
        "@100000 S 0 1 0 0 0 0 600/1450 0 1 0",
        "100000 126800 complete 4>2 ack\n",
    ),
    (
        "@100000 S 0 1 0 0 0 0 600/2151 0 1 0",
        "100000 127501 complete 4>2 ack\n  slot 7 block 1 bit 7 total 2751 not 2050..2750 by initiator 4\n",
    ),
];

/// What is said of the line of these words.
fn told(rt: &(impl Abort + AllocGlobal), words: &str) -> String {
    let line = line_of(rt, words);
    let mut text = Vec::new(rt.alloc());
    let mut sink = Writes::new(&mut text);
    let mut out = Counted::new(&mut sink);
    add_pieces(&mut out, Form::Text, 1, &line.edges, line.end);
    String::from_utf8(text).ok().expect(rt, "a text")
}

fn are_told(rt: &(impl Abort + AllocGlobal), rows: &[Row]) {
    for (words, want) in rows {
        let text = told(rt, words);
        assert!(rt; text.as_str() == *want, "{words}: {text}");
    }
}

#[test]
fn legal_frames_have_no_remark(rt: HostRuntime) {
    are_told(&rt, LEGAL);
}

#[test]
fn each_other_ending_has_one_remark(rt: HostRuntime) {
    are_told(&rt, ENDINGS);
}

#[test]
fn widths_are_said_once_of_who_drove_them(rt: HostRuntime) {
    are_told(&rt, WIDTHS);
}
