//! Each row through the public calls. Reports of scripts without names stand in tests/cases/reports.txt.
use crate::names::{SCRIPT, TOPOLOGY as ROOM};
use crate::rows::{CUTS, FAULTS, PATTERNS, PLAIN, REFUSALS, TOPOLOGY};
use expect_run::{CheckError, Tally, check, verdicts};
use expect_text::{cut_script, first_fault, fits, plain_script};
use record_core::Form;
use std::io::{self, ErrorKind, Write};
use std::process::Abort;
use text_core::Writes;

pub(crate) fn holds(rt: &impl Abort, holds: bool, case: &str) {
    assert!(rt; holds, "{case}");
}

#[test]
fn patterns_are_met(rt: HostRuntime) {
    for line in PATTERNS.lines() {
        let (asked, want) = line.rsplit_once(" => ").expect(&rt, line);
        let (pattern, text) = asked.split_once(" => ").expect(&rt, line);
        let met = fits(pattern.as_bytes(), text.as_bytes());
        holds(&rt, met == (want == "met"), line);
    }
}

/// The lines of a row, each ended.
pub(crate) fn spelled(rt: &(impl Abort + AllocGlobal), row: &str) -> String {
    let mut text = String::new(rt.alloc());
    for line in row.split('|') {
        text.push_str(line).expect(rt, row);
        text.push('\n').expect(rt, row);
    }
    text
}

pub(crate) fn fault_of(rt: &(impl Abort + AllocGlobal), script: &str) -> String {
    match first_fault(rt.alloc(), TOPOLOGY.as_bytes(), script.as_bytes()).expect(rt, script) {
        None => String::from_str(rt.alloc(), "none").expect(rt, script),
        Some(fault) => {
            let word = fault.word;
            format!(in rt.alloc(); "{fault} at {word}").expect(rt, script)
        }
    }
}

#[test]
fn the_first_line_at_fault_is_found(rt: HostRuntime) {
    for line in FAULTS.lines() {
        let (script, want) = line.rsplit_once(" => ").expect(&rt, line);
        let script = spelled(&rt, script);
        holds(&rt, fault_of(&rt, &script).as_str() == want, line);
    }
}

fn plain_of(rt: &(impl Abort + AllocGlobal), script: &str) -> String {
    let plain = plain_script(rt.alloc(), script.as_bytes()).expect(rt, script);
    String::from_utf8(plain).expect(rt, script)
}

#[test]
fn plain_scripts_have_each_line(rt: HostRuntime) {
    for line in PLAIN.lines() {
        let (script, want) = line.split_once(" => ").expect(&rt, line);
        let want = format!(in rt.alloc(); "{want}\n").expect(&rt, line);
        holds(&rt, plain_of(&rt, script) == want, line);
    }
}

fn cut_of(rt: &(impl Abort + AllocGlobal), time: &str, script: &str) -> String {
    let time = time.parse::<u64>().expect(rt, time);
    let cut = cut_script(rt.alloc(), time, script.as_bytes()).expect(rt, script);
    String::from_utf8(cut).expect(rt, script)
}

#[test]
fn scripts_end_earlier(rt: HostRuntime) {
    for line in CUTS.lines() {
        let (asked, want) = line.split_once(" => ").expect(&rt, line);
        let (time, script) = asked.split_once(' ').expect(&rt, line);
        let cut = cut_of(&rt, time, &spelled(&rt, script));
        holds(&rt, cut == spelled(&rt, want), line);
    }
}

/// The report of a script, and its counts, or why there is none.
pub(crate) fn report_of(
    rt: &(impl Abort + AllocGlobal),
    topology: &str,
    script: &str,
) -> (String, String) {
    let mut out = Vec::new(rt.alloc());
    let done = check(
        rt.alloc(),
        Form::Text,
        topology.as_bytes(),
        script.as_bytes(),
        &mut Writes::new(&mut out),
    );
    let counts = match done {
        Ok(tally) => reported(rt, tally),
        Err(error) => format!(in rt.alloc(); "{error}").expect(rt, "a refusal"),
    };
    (String::from_utf8(out).expect(rt, "a text"), counts)
}

fn reported(rt: &(impl Abort + AllocGlobal), tally: Tally) -> String {
    let Tally { count, failed } = tally;
    format!(in rt.alloc(); "{failed} of {count}").expect(rt, "a tally")
}

/// `o` for each test that holds, `x` for each that fails, or why there are none.
fn verdicts_of(rt: &(impl Abort + AllocGlobal), topology: &str, script: &str) -> String {
    match verdicts(rt.alloc(), topology.as_bytes(), script.as_bytes()) {
        Ok(verdicts) => marks(rt, &verdicts),
        Err(error) => format!(in rt.alloc(); "{error}").expect(rt, "a refusal"),
    }
}

fn marks(rt: &(impl Abort + AllocGlobal), verdicts: &[bool]) -> String {
    let mut text = String::new(rt.alloc());
    for holds in verdicts {
        text.push(if *holds { 'o' } else { 'x' })
            .expect(rt, "a mark");
    }
    text
}

#[test]
fn verdicts_are_those_of_the_report(rt: HostRuntime) {
    let marks = verdicts_of(&rt, ROOM, SCRIPT);
    holds(&rt, marks.as_str() == "ooxoooxoo", "verdicts");
    for line in REFUSALS.lines() {
        let (input, want) = line.rsplit_once(" => ").expect(&rt, line);
        let (topology, script) = input.split_once('|').expect(&rt, line);
        let refusal = verdicts_of(&rt, &spelled(&rt, topology), &spelled(&rt, script));
        holds(&rt, refusal.as_str() == want, line);
    }
}

#[test]
fn refusals_write_nothing(rt: HostRuntime) {
    for line in REFUSALS.lines() {
        let (input, want) = line.rsplit_once(" => ").expect(&rt, line);
        let (topology, script) = input.split_once('|').expect(&rt, line);
        let (text, refusal) = report_of(&rt, &spelled(&rt, topology), &spelled(&rt, script));
        holds(&rt, text.is_empty() && refusal.as_str() == want, line);
    }
}

/// A writer that takes one byte a call, as many as it has room for.
#[derive(Drop)]
struct Narrow {
    bytes: Vec<u8>,
    room: usize,
}

impl Write for Narrow {
    fn write(&mut self, bytes: &[u8]) -> io::Result<usize> {
        if self.bytes.len() >= self.room {
            return Err(io::Error::from(ErrorKind::Other));
        }
        let taken = bytes.get(..1).unwrap_or(bytes);
        self.bytes.extend_from_slice(taken)?;
        Ok(taken.len())
    }

    fn flush(&mut self) -> io::Result<()> {
        Ok(())
    }
}

/// A writer with this much room gets the front of the report that fits, and its length is the count of the fault.
fn is_cut_off(rt: &(impl Abort + AllocGlobal), room: usize) -> bool {
    let mut out = Narrow {
        bytes: Vec::new(rt.alloc()),
        room,
    };
    let done = check(
        rt.alloc(),
        Form::Text,
        b"device tv tv 4\n",
        b"expect from 0 to 9 short\nend 10\n",
        &mut Writes::new(&mut out),
    );
    let count = match done {
        Ok(_) => CUT.len() as u128,
        Err(CheckError::Write(count)) => count,
        Err(_) => return false,
    };
    count == room as u128 && Some(out.bytes.as_slice()) == CUT.as_bytes().get(..room)
}

const CUT: &str = "\
TAP version 13
not ok 1 - line 1: expect from 0 to 9 short
# seen 0 from 0 to 9
1..1
";

#[test]
fn a_writer_that_fails_has_the_front(rt: HostRuntime) {
    for room in 0..=CUT.len() {
        holds(&rt, is_cut_off(&rt, room), CUT);
    }
}
