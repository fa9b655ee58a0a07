//! The trace, the edges and the report of a run, and each number with which a topology or a script is refused.
use crate::edids::{REFUSED as REFUSED_EDIDS, SILENT};
use crate::rooms::{UNTOUCHED, first_word, holds, is_put, is_small, number};
use crate::samples::first_bytes_of;
use library_answers::Answer;
use library_run::{TestCounts, put_edges, put_report, put_trace};
use std::alloc::Global;
use std::process::Abort;

/// A television with a player in its first port.
pub(crate) const TOPOLOGY: &str = "device tv tv 4\ndevice p1 player 0\nplug p1 tv 1\n";

/// The key `play` of the player is pressed.
const SCRIPT: &str = "at 1000000 press p1 play\nend 1500000\n";

const TRACE: &str = "\
12000 39150 complete 0>0 nack by tv out -
50705 77855 complete 4>4 nack by p1 out -
89405 212555 complete 0>f report-physical-address 0.0.0.0 tv ok by tv out -
224105 347255 complete 4>f report-physical-address 1.0.0.0 playback ok by p1 out -
1000000 event 1 ok
1000000 1051150 complete 4>0 image-view-on ack by p1 out -
1068400 1167550 complete 4>f active-source 1.0.0.0 ok by p1 out -
state tv tv 0 0.0.0.0 on active=1.0.0.0 path=1.0.0.0 deck=1a menu=off audio=off volume=20 mute=off arc=off sel=- lang=656e67 osd=- held=- heard=4:84:10 sub=- queue=0 dropped=0
state p1 player 4 1.0.0.0 on active=1.0.0.0 path=1.0.0.0 deck=11 menu=off audio=off volume=20 mute=off arc=off sel=- lang=656e67 osd=- held=- heard=0:84:00 sub=- queue=0 dropped=0
1500000 end
";

/// A television alone polls address 0, and the script ends before the round has closed: the start bit, eight bits 0, and EOM
/// and ACK 1.
pub(crate) const EDGES: &str = "\
12000 0
15700 1
16500 0
18000 1
18900 0
20400 1
21300 0
22800 1
23700 0
25200 1
26100 0
27600 1
28500 0
30000 1
30900 0
32400 1
33300 0
34800 1
35700 0
36300 1
38100 0
38700 1
39150 end
";

/// The counts of a report before a call.
const BEFORE: TestCounts = TestCounts {
    count: 7,
    failed: 7,
};

/// A call that puts what a run gives into a room.
#[derive(Clone, Copy, Debug)]
enum Call {
    Trace,
    Edges,
    Report,
}

/// Makes a call over a room of four bytes, and returns its answer, what then stands in the room, and the counts.
fn answers(
    alloc: Global,
    call: Call,
    topology: &str,
    script: &str,
) -> (Answer, [u8; 4], TestCounts) {
    let (topology, script) = (topology.as_bytes(), script.as_bytes());
    let mut room = [UNTOUCHED; 4];
    let mut counts = BEFORE;
    let answer = match call {
        Call::Trace => put_trace(alloc, topology, script, &mut room),
        Call::Edges => put_edges(alloc, topology, script, &mut room),
        Call::Report => put_report(alloc, topology, script, &mut room, &mut counts),
    };
    (answer, room, counts)
}

/// Each call refuses such texts with this number and line, or finds that the room is too small where the number is 1.
fn is_answered(
    rt: &(impl Abort + AllocGlobal),
    topology: &str,
    script: &str,
    code: u32,
    line: u64,
    row: &str,
) {
    for call in [Call::Trace, Call::Edges, Call::Report] {
        let (answer, room, counts) = answers(rt.alloc(), call, topology, script);
        let (given, at) = (answer.code, answer.line);
        assert!(rt; given == code && at == line, "{row}: {call:?} {given} {at}");
        holds(rt, room.as_slice() == [UNTOUCHED; 4].as_slice(), row);
        holds(rt, (answer.length == 0) == (code != 1), row);
        holds(rt, code == 1 || counts == BEFORE, row);
    }
}

/// A text of lines, from lines between `|`.
pub(crate) fn lines_of(rt: &(impl Abort + AllocGlobal), words: &str) -> String {
    let mut text = String::new(rt.alloc());
    for line in words.split('|') {
        text.push_str(line).expect(rt, words);
        text.push('\n').expect(rt, words);
    }
    text
}

/// The number and the line of a row.
pub(crate) fn wanted(rt: &impl Abort, words: &str) -> (u32, u64) {
    let (code, line) = first_word(words);
    (number(rt, code), u64::from(number(rt, line)))
}

/// Topologies, and the number and line of each refusal; 1 is that of a room which is too small. A device has at most 15
/// ports, and there are at most 15 devices.
const TOPOLOGIES: &str = "\
device tv tv 4 => 1 0
frob => 60 1
device tv box 4 => 60 1
device tv tv 4|edid 00|edid 00 => 60 3
device tv tv 04 => 61 1
device tv tv 15 => 1 0
device tv tv 16 => 61 1
device tv tv 4|device tv player 0 => 62 2
device tv tv 4|plug p1 tv 1 => 62 2
device tv tv 4|device a tv 4 => 64 2
device a player 0 => 65 2
device tv tv 4|device a player 0|plug a tv 4 => 1 0
device tv tv 4|device a player 0|plug a tv 5 => 66 3
device tv tv 4|device a player 0|device b player 0|plug a tv 1|plug b tv 1 => 67 5
device tv tv 4|device a player 0|plug a tv 1|plug a tv 2 => 68 4
device tv tv 4|device a switch 2|plug a a 1 => 69 3
device tv tv 4|edid 0 => 70 2
device tv tv 4|edid 0g => 70 2
device tv tv 4|edid 00 => 30 0
device tv tv 4|device a player 0|device b player 0|device c player 0|device d player 0|device e player 0|device f player 0|device g player 0|device h player 0|device i player 0|device j player 0|device k player 0|device l player 0|device m player 0|device n player 0 => 1 0
device tv tv 4|device a player 0|device b player 0|device c player 0|device d player 0|device e player 0|device f player 0|device g player 0|device h player 0|device i player 0|device j player 0|device k player 0|device l player 0|device m player 0|device n player 0|device o player 0 => 63 16";

#[test]
fn topologies_are_refused_by_numbers(rt: HostRuntime) {
    for row in TOPOLOGIES.lines() {
        let (words, want) = row.split_once(" => ").expect(&rt, row);
        let (code, line) = wanted(&rt, want);
        is_answered(&rt, &lines_of(&rt, words), "end 5\n", code, line, row);
    }
}

/// Scripts for the television with a player, and the number and line of each refusal, those of the texts of frames among them:
/// a pulse is 1 to 10,000 wide and 25,000 after the end of the one above, and a time is at most 1,000,000,000,000.
const SCRIPTS: &str = "\
end 5 => 1 0
frob|end 5 => 80 1
at 5 press p1 frob|end 10 => 80 1
at x press p1 play|end 10 => 81 1
end 1000000000000 => 1 0
end 1000000000001 => 81 1
at 5 press p2 play|end 10 => 82 1
pulse 5 0|end 20000 => 83 1
pulse 5 10000|end 20000 => 1 0
pulse 5 10001|end 20000 => 83 1
at 10 press p1 play|at 9 press p1 play|end 20 => 84 2
pulse 100000 400|pulse 100399 1|end 200000 => 84 2
pulse 100000 400|pulse 125399 1|end 200000 => 85 2
pulse 100000 400|pulse 125400 1|end 200000 => 1 0
# no end => 87 2
at 10 press p1 play|end 10 => 87 2
at 10 press p1 play|end 20|at 30 press p1 play => 87 3
at 5 send p1 4>g|end 10 => 20 1
at 5 send p1 4>0 frob|end 10 => 21 1
at 5 send p1 4>0 op-e5 :000102030405060708090a0b0c0d0e|end 10 => 22 1
at 5 send p1 4>0 op-e5 :000102030405060708090a0b0c0d|end 10 => 1 0
at 5 send p1 4>0 play|end 10 => 23 1
at 5 send p1 4>0 play :24|end 10 => 24 1";

#[test]
fn scripts_are_refused_by_numbers(rt: HostRuntime) {
    for row in SCRIPTS.lines() {
        let (words, want) = row.split_once(" => ").expect(&rt, row);
        let (code, line) = wanted(&rt, want);
        is_answered(&rt, TOPOLOGY, &lines_of(&rt, words), code, line, row);
    }
}

/// A script of so many pulses, each 25,000 after the end of the one above.
fn pulses(rt: &(impl Abort + AllocGlobal), count: u32) -> String {
    let mut script = String::new(rt.alloc());
    for number in 0..count {
        let from = u64::from(number) * 25_400;
        let line = format!(in rt.alloc(); "pulse {from} 400\n").expect(rt, "a pulse");
        script.push_str(&line).expect(rt, "a script");
    }
    script.push_str("end 200000000\n").expect(rt, "a script");
    script
}

#[test]
fn pulses_have_a_limit(rt: HostRuntime) {
    let (answer, ..) = answers(rt.alloc(), Call::Trace, TOPOLOGY, &pulses(&rt, 4096));
    holds(&rt, answer.code == 1, "4096 pulses");
    is_answered(&rt, TOPOLOGY, &pulses(&rt, 4097), 86, 4097, "4097 pulses");
}

/// A television with the EDID that these words give.
fn television_of(rt: &(impl Abort + AllocGlobal), words: &str) -> String {
    let digits = hex::encode(rt.alloc(), &first_bytes_of(rt, words)).expect(rt, words);
    format!(in rt.alloc(); "device tv tv 4\nedid {digits}\n").expect(rt, words)
}

#[test]
fn edids_of_topologies_are_refused_by_numbers(rt: HostRuntime) {
    for row in REFUSED_EDIDS.lines() {
        let (words, code) = row.split_once(" => ").expect(&rt, row);
        let code = number(&rt, code);
        if !words.starts_with("0 ") {
            is_answered(&rt, &television_of(&rt, words), "end 5\n", code, 0, row);
        }
    }
    for words in SILENT.lines() {
        is_answered(&rt, &television_of(&rt, words), "end 5\n", 39, 0, words);
    }
}

#[test]
fn traces_are_put(rt: HostRuntime) {
    let (topology, script) = (TOPOLOGY.as_bytes(), SCRIPT.as_bytes());
    let mut room = [UNTOUCHED; 2048];
    let answer = put_trace(rt.alloc(), topology, script, &mut room);
    holds(&rt, is_put(answer, &room, TRACE.as_bytes()), "a trace");
    let mut room = [UNTOUCHED; 16];
    let answer = put_trace(rt.alloc(), topology, script, &mut room);
    holds(&rt, is_small(answer, &room, TRACE.len()), "a trace");
}

#[test]
fn edges_are_put(rt: HostRuntime) {
    let (topology, script) = (b"device tv tv 1\n", b"end 20000\n");
    let mut room = [UNTOUCHED; 2048];
    let answer = put_edges(rt.alloc(), topology, script, &mut room);
    holds(&rt, is_put(answer, &room, EDGES.as_bytes()), "edges");
    let mut room = [UNTOUCHED; 16];
    let answer = put_edges(rt.alloc(), topology, script, &mut room);
    holds(&rt, is_small(answer, &room, EDGES.len()), "edges");
}
