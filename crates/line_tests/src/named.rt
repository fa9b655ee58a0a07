//! The names of what one sees on the line, worked out by hand.
use arrayvec::ArrayVec;
use line_frames::{Ending, Reading};
use line_wave::Stretch;
use room_named::add_named_round;
use std::process::Abort;
use text_core::{Counted, Writes};

/// The poll of address 0 from 12,000 on, which nobody acknowledges (CEC 5.2): a start bit of 3,700 of 4,500 microseconds, eight bits 0
/// of 1,500 of 2,400, then the end of the message and the acknowledge bit, 1, of 600.
const POLL: &str = "\
#12000
0!
s0>0\\x20nack \"
sstart %
#15700
1!
#16500
0!
s0 %
#18000
1!
#18900
0!
s0 %
#20400
1!
#21300
0!
s0 %
#22800
1!
#23700
0!
s0 %
#25200
1!
#26100
0!
s0 %
#27600
1!
#28500
0!
s0 %
#30000
1!
#30900
0!
s0 %
#32400
1!
#33300
0!
s0 %
#34800
1!
#35700
0!
sEOM=1 %
#36300
1!
#38100
0!
sACK=1 %
#38700
1!
#39150
s \"
s %
";

/// Readings, and what the two wires have in turn: a frame that is acknowledged, one whose initiator has no end of it, a fall too
/// early, no fall in time, a start that is none, a bit that is too long, and a line that is still read.
const ROWS: &str = "\
complete 01000000000000010010 => s4>0\\x20image-view-on\\x20ack \" sstart % s0 % s1 % s0 % s0 % s0 % s0 % s0 % s0 % sEOM=0 % sACK=0 % s0 % s0 % s0 % s0 % s0 % s1 % s0 % s0 % sEOM=1 % sACK=0 % s \" s %
complete 1111111111 => sf>f\\x20ok \" sstart % s1 % s1 % s1 % s1 % s1 % s1 % s1 % s1 % sEOM=1 % sACK=1 % s \" s %
short 01 => sshort\\x2001 \" sstart % s0 % s1 % s \" s %
silent 0100000011 => ssilent\\x200100000011 \" sstart % s0 % s1 % s0 % s0 % s0 % s0 % s0 % s0 % sEOM=1 % sACK=1 % s \" s %
bad-start - => sbad-start\\x20- \" sstart % s \" s %
long 1 => slong\\x201 \" sstart % s1 % s \" s %
open - => sopen\\x20- \" sstart % s \" s %";

fn ending_of(word: &str) -> Ending {
    match word {
        "short" => Ending::Short,
        "silent" => Ending::Silent,
        "bad-start" => Ending::BadStart,
        "long" => Ending::Long,
        "open" => Ending::Open,
        _ => Ending::Complete,
    }
}

/// The round of a reading with these bits, which begins at 12,000.
fn named(rt: &(impl Abort + AllocGlobal), ending: Ending, digits: &str) -> String {
    let mut wave = ArrayVec::<Stretch, 161>::new();
    let mut bits = ArrayVec::new();
    let _ = wave.try_push(Stretch {
        from: 12_000,
        to: 15_700,
    });
    let mut fall = 16_500u64;
    for digit in digits.bytes() {
        if digit == b'-' {
            continue;
        }
        let low = if digit == b'1' { 600u64 } else { 1500 };
        let _ = wave.try_push(Stretch {
            from: fall,
            to: fall.saturating_add(low),
        });
        let _ = bits.try_push(digit == b'1');
        fall = fall.saturating_add(2400);
    }
    let at = fall.saturating_sub(1350).min(1_000_000);
    let rest = fall.saturating_sub(1800).clamp(12_000, 1_000_000);
    let reading = Reading {
        begin: 12_000,
        at,
        ending,
        bits,
    };
    let mut out = Vec::new(rt.alloc());
    let mut sink = Writes::new(&mut out);
    let mut text = Counted::new(&mut sink);
    add_named_round(&mut text, &wave, &[], &[], &reading, 12_000, rest);
    let _ = text.into_sink();
    String::from_utf8(out).expect(rt, "a text")
}

/// The lines of the two wires, with blanks between.
fn notes_of(rt: &(impl Abort + AllocGlobal), text: &str) -> String {
    let mut notes = String::new(rt.alloc());
    for line in text.lines() {
        if line.starts_with('s') {
            if !notes.is_empty() {
                let _ = notes.push_str(" ");
            }
            let _ = notes.push_str(line);
        }
    }
    notes
}

#[test]
fn a_poll_is_named(rt: HostRuntime) {
    let text = named(&rt, Ending::Complete, "0000000011");
    assert!(rt; text.as_str() == POLL, "the poll of 0: {text}");
}

#[test]
fn readings_are_named(rt: HostRuntime) {
    for row in ROWS.lines() {
        let (reading, wanted) = row.split_once(" => ").expect(&rt, "a row");
        let (ending, digits) = reading.split_once(' ').expect(&rt, "a reading");
        let text = named(&rt, ending_of(ending), digits);
        let notes = notes_of(&rt, text.as_str());
        assert!(rt; notes.as_str() == wanted, "{reading}: {notes}");
    }
}
