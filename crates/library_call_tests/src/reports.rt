//! The report of a script's expectations, and the readings of an edge file, with each number.
use crate::rooms::{UNTOUCHED, holds, is_put, is_refused, is_small};
use crate::runs::{EDGES, TOPOLOGY, lines_of, wanted};
use capture_monitor::WatchError;
use edid_core::{EdidCause, EdidError};
use expect_run::CheckError;
use expect_text::ExpectCause;
use library_answers::Answer;
use library_run::{
    TestCounts, check_refused, put_readings, put_report, run_refused, watch_refused,
};
use room_run::emulate::EmulateError;
use room_script::{AssembleError, ScriptCause, TopologyCause};
use std::process::Abort;
use text_core::At;

/// Scripts for the television with a player, and the number and line with which their first expectation is refused. A name
/// has the number of a script's.
const REFUSED: &str = "\
at 5 press p1 play|expect|end 10 => 90 2
at 5 press p1 play|expect once 5 of a short|end 10 => 90 2
at 5 press p1 play|label a|end 10 => 90 2
at 5 press p1 play|expect from 1 to 2 *a*b*c*d*|end 10 => 90 2
at 5 press p1 play|expect from 01 to 2 short|end 10 => 91 2
expect state 1000000000001 tv on|end 10 => 91 1
at 5 press p1 play|expect within 1 of a short|end 10 => 92 2
label a at 5 press p1 play|label a at 6 press p1 play|end 10 => 92 2
at 5 press p1 play|expect from 2 to 1 short|end 10 => 93 2
expect state 11 tv on|end 10 => 93 1
expect state 5 p2 on|end 10 => 82 1";

/// The counts of a report before a call.
const BEFORE: TestCounts = TestCounts {
    count: 7,
    failed: 7,
};

/// The call was refused with this number and line, and the room is as it was.
pub(crate) fn is_line_refused(answer: Answer, room: &[u8], code: u32, line: u64) -> bool {
    answer.line == line && is_refused(Answer { line: 0, ..answer }, room, code)
}

#[test]
fn expectations_are_refused_by_numbers(rt: HostRuntime) {
    for row in REFUSED.lines() {
        let (words, want) = row.split_once(" => ").expect(&rt, row);
        let (code, line) = wanted(&rt, want);
        let mut room = [UNTOUCHED; 16];
        let mut counts = BEFORE;
        let script = lines_of(&rt, words);
        let (topology, script) = (TOPOLOGY.as_bytes(), script.as_bytes());
        let answer = put_report(rt.alloc(), topology, script, &mut room, &mut counts);
        let (given, at) = (answer.code, answer.line);
        let is_left = is_line_refused(answer, &room, code, line) && counts == BEFORE;
        assert!(&rt; is_left, "{row}: {given} {at}");
    }
}

/// A script that expects a round with a pattern of so many bytes: a star, or bits that were read.
fn pattern_of(rt: &(impl Abort + AllocGlobal), length: u32) -> String {
    let mut script = String::from_str(rt.alloc(), "expect from 1 to 2 ").expect(rt, "a script");
    if length < 7 {
        for _ in 0..length {
            script.push('*').expect(rt, "a pattern");
        }
    } else {
        script.push_str("short ").expect(rt, "a pattern");
        for _ in 6..length {
            script.push('0').expect(rt, "a pattern");
        }
    }
    script.push_str("\nend 10\n").expect(rt, "a script");
    script
}

// A pattern has 1 to 160 bytes.
#[test]
fn patterns_have_a_limit(rt: HostRuntime) {
    for (length, code) in [(0, 90), (1, 1), (160, 1), (161, 90)] {
        let mut room = [UNTOUCHED; 16];
        let mut counts = BEFORE;
        let script = pattern_of(&rt, length);
        let (topology, script) = (TOPOLOGY.as_bytes(), script.as_bytes());
        let answer = put_report(rt.alloc(), topology, script, &mut room, &mut counts);
        let given = answer.code;
        assert!(&rt; given == code, "a pattern of {length} bytes: {given}");
    }
}

/// The first expectation holds, the second does not.
const EXPECTING: &str = "\
label film at 1000000 press p1 play
expect within 60000 of film 4>0 image-view-on ack
expect none within 200000 of film 4>f active-source
end 1500000
";

#[test]
fn reports_are_put_and_counted(rt: HostRuntime) {
    let (topology, script) = (TOPOLOGY.as_bytes(), EXPECTING.as_bytes());
    let want = TestCounts {
        count: 2,
        failed: 1,
    };
    let mut room = [UNTOUCHED; 2048];
    let mut counts = BEFORE;
    let answer = put_report(rt.alloc(), topology, script, &mut room, &mut counts);
    holds(&rt, answer.code == 0 && counts == want, "a report");
    let report = room.get(..answer.length).unwrap_or(b"");
    let first = b"TAP version 13\nok 1 - line 2: expect within 60000 of film ";
    holds(&rt, report.starts_with(first), "a report");
    let mut small = [UNTOUCHED; 16];
    let mut counts = BEFORE;
    let answer = put_report(rt.alloc(), topology, script, &mut small, &mut counts);
    holds(&rt, is_small(answer, &small, report.len()), "a room");
    holds(&rt, counts == want, "counts");
}

/// Edge files, and the number and line of each refusal.
const REFUSED_EDGES: &str = "\
1000 2|20000 end => 100 1
1000 0|4700 1 => 100 3
2000000000001 end => 100 1
1000 1|20000 end => 101 1
1000 0|2000 1|1999 end => 101 3";

#[test]
fn edge_files_are_refused_by_numbers(rt: HostRuntime) {
    for row in REFUSED_EDGES.lines() {
        let (words, want) = row.split_once(" => ").expect(&rt, row);
        let (code, line) = wanted(&rt, want);
        let mut room = [UNTOUCHED; 16];
        let answer = put_readings(rt.alloc(), lines_of(&rt, words).as_bytes(), &mut room);
        let (given, at) = (answer.code, answer.line);
        assert!(&rt;
            is_line_refused(answer, &room, code, line),
            "{row}: {given} {at}"
        );
    }
}

#[test]
fn readings_are_put(rt: HostRuntime) {
    let mut room = [UNTOUCHED; 64];
    let answer = put_readings(rt.alloc(), EDGES.as_bytes(), &mut room);
    holds(
        &rt,
        is_put(answer, &room, b"12000 39150 complete 0>0 nack\n"),
        "readings",
    );
    let mut small = [UNTOUCHED; 29];
    let answer = put_readings(rt.alloc(), EDGES.as_bytes(), &mut small);
    holds(&rt, is_small(answer, &small, 30), "a room");
}

/// An edge file of so many short low stretches.
fn edges_of(rt: &(impl Abort + AllocGlobal), count: u32) -> String {
    let mut file = String::new(rt.alloc());
    for number in 0..count {
        let fall = u64::from(number) * 10_000 + 10_000;
        let rise = fall + 100;
        let lines = format!(in rt.alloc(); "{fall} 0\n{rise} 1\n").expect(rt, "edges");
        file.push_str(&lines).expect(rt, "a file");
    }
    file.push_str("1000000000 end\n").expect(rt, "a file");
    file
}

// Each stretch is a start bit that is too short, and has a line of its own.
#[test]
fn long_files_are_read(rt: HostRuntime) {
    let file = edges_of(&rt, 9000);
    let mut room = [UNTOUCHED; 16];
    let answer = put_readings(rt.alloc(), file.as_bytes(), &mut room);
    let (code, length) = (answer.code, answer.length);
    assert!(&rt; code == 1 && length > 200_000, "{code} {length}");
}

pub(crate) fn is_number(rt: &impl Abort, answer: Answer, code: u32, line: u64, case: &str) {
    let want = Answer {
        code,
        line,
        length: 0,
    };
    holds(rt, answer == want, case);
}

fn topology(rt: &impl Abort, cause: TopologyCause, code: u32) {
    let error = EmulateError::Topology {
        line: 3,
        cause,
        word: 1,
    };
    is_number(rt, run_refused(&error), code, 3, "a topology");
}

fn script(rt: &impl Abort, cause: ScriptCause, code: u32) {
    let error = EmulateError::Script {
        line: 3,
        cause,
        word: 1,
    };
    is_number(rt, run_refused(&error), code, 3, "a script");
    let error = CheckError::Emulate(error);
    is_number(rt, check_refused(&error), code, 3, "a script");
}

#[test]
fn causes_of_topologies_have_numbers(rt: HostRuntime) {
    topology(&rt, TopologyCause::Word, 60);
    topology(&rt, TopologyCause::Number, 61);
    topology(&rt, TopologyCause::Name, 62);
    topology(&rt, TopologyCause::Full, 63);
    topology(&rt, TopologyCause::SecondRoot, 64);
    topology(&rt, TopologyCause::NoRoot, 65);
    topology(&rt, TopologyCause::PortRange, 66);
    topology(&rt, TopologyCause::PortTaken, 67);
    topology(&rt, TopologyCause::NotLoose, 68);
    topology(&rt, TopologyCause::Loop, 69);
    topology(&rt, TopologyCause::Hex, 70);
}

#[test]
fn causes_of_scripts_have_numbers(rt: HostRuntime) {
    script(&rt, ScriptCause::Word, 80);
    script(&rt, ScriptCause::Number, 81);
    script(&rt, ScriptCause::Name, 82);
    script(&rt, ScriptCause::Frame(AssembleError::Count), 23);
    script(&rt, ScriptCause::Width, 83);
    script(&rt, ScriptCause::Order, 84);
    script(&rt, ScriptCause::Close, 85);
    script(&rt, ScriptCause::TooMany, 86);
    script(&rt, ScriptCause::End, 87);
    script(&rt, ScriptCause::Hex, 88);
}

fn expectation(rt: &impl Abort, cause: ExpectCause, code: u32) {
    let error = CheckError::Expect(At {
        line: 3,
        cause,
        word: 1,
    });
    is_number(rt, check_refused(&error), code, 3, "an expectation");
}

#[test]
fn causes_of_expectations_have_numbers(rt: HostRuntime) {
    expectation(&rt, ExpectCause::Word, 90);
    expectation(&rt, ExpectCause::Pattern, 90);
    expectation(&rt, ExpectCause::Number, 91);
    expectation(&rt, ExpectCause::Name, 82);
    expectation(&rt, ExpectCause::Label, 92);
    expectation(&rt, ExpectCause::Order, 93);
    expectation(&rt, ExpectCause::Unmet, 90);
}

// What is written stands in memory, so that a write fails for want of memory alone.
#[test]
fn want_of_memory_has_a_number(rt: HostRuntime) {
    let write = EmulateError::Write(5);
    is_number(&rt, run_refused(&write), 50, 0, "a write");
    is_number(&rt, run_refused(&EmulateError::Memory), 50, 0, "a run");
    let run = CheckError::Emulate(EmulateError::Memory);
    is_number(&rt, check_refused(&run), 50, 0, "a run");
    let write = CheckError::Write(5);
    is_number(&rt, check_refused(&write), 50, 0, "a report");
    is_number(&rt, check_refused(&CheckError::Memory), 50, 0, "a report");
    is_number(&rt, watch_refused(&WatchError::Write(5)), 50, 0, "a write");
    is_number(&rt, watch_refused(&WatchError::Memory), 50, 0, "readings");
}

#[test]
fn other_causes_have_numbers(rt: HostRuntime) {
    let length = EmulateError::Edid(EdidCause::Edid(EdidError::Length));
    is_number(&rt, run_refused(&length), 30, 0, "an edid");
    let silent = EmulateError::Edid(EdidCause::NoHdmiBlock);
    is_number(&rt, run_refused(&silent), 39, 0, "no address");
    let line = WatchError::Line { line: 3, word: 1 };
    is_number(&rt, watch_refused(&line), 100, 3, "a line");
    let order = WatchError::Order { line: 3, word: 1 };
    is_number(&rt, watch_refused(&order), 101, 3, "an order");
}
