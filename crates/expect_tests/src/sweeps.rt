//! Sweeps of scripts.
use crate::sweep_rows::{ALONE, DECKS, OBJECTS_OF_SWEEPS, RACE, RACES, SWEEPS};
use expect_sweep::{ProgressHearer, SilentProgress, SweepError, SweepProgress, sweep};
use record_core::Form;
use std::io::{self, ErrorKind, Write};
use std::process::Abort;
use text_core::Writes;

fn holds(rt: &impl Abort, holds: bool, case: &str) {
    assert!(rt; holds, "{case}");
}

/// The lines of a row, each ended.
fn spelled(rt: &(impl Abort + AllocGlobal), row: &str) -> String {
    let mut text = String::new(rt.alloc());
    for line in row.split('|') {
        text.push_str(line).expect(rt, row);
        text.push('\n').expect(rt, row);
    }
    text
}

/// The lines of a text in a row.
fn in_a_row(rt: &(impl Abort + AllocGlobal), text: Vec<u8>) -> String {
    let text = String::from_utf8(text).expect(rt, "a text");
    text.replace(rt.alloc(), "\n", "|").expect(rt, "a row")
}

/// The stretches of a script, and whether all its verdicts are ok, or why there are none.
fn swept(rt: &(impl Abort + AllocGlobal), topology: &str, script: &str) -> String {
    swept_in(rt, Form::Text, topology, script)
}

/// The same in a form.
fn swept_in(rt: &(impl Abort + AllocGlobal), form: Form, topology: &str, script: &str) -> String {
    let topology = spelled(rt, topology);
    let script = spelled(rt, script);
    let mut out = Vec::new(rt.alloc());
    let done = sweep(
        rt.alloc(),
        form,
        topology.as_bytes(),
        script.as_bytes(),
        &mut Writes::new(&mut out),
        &mut SilentProgress,
    );
    let row = in_a_row(rt, out);
    match done {
        Ok(true) => format!(in rt.alloc(); "all: {row}").expect(rt, "a sweep"),
        Ok(false) => format!(in rt.alloc(); "not: {row}").expect(rt, "a sweep"),
        Err(SweepError::Range(fault)) => {
            let word = fault.word;
            format!(in rt.alloc(); "script {fault} in word {word}{row}").expect(rt, "a refusal")
        }
        Err(error) => format!(in rt.alloc(); "{error}{row}").expect(rt, "a refusal"),
    }
}

#[test]
fn stretches_are_objects(rt: HostRuntime) {
    for line in OBJECTS_OF_SWEEPS.lines() {
        let (script, want) = line.split_once(" => ").expect(&rt, line);
        holds(
            &rt,
            swept_in(&rt, Form::Json, ALONE, script).as_str() == want,
            line,
        );
    }
}

#[test]
fn stretches_are_written(rt: HostRuntime) {
    for line in SWEEPS.lines() {
        let (script, want) = line.split_once(" => ").expect(&rt, line);
        holds(&rt, swept(&rt, ALONE, script).as_str() == want, line);
    }
}

#[test]
fn decks_that_announce_themselves_at_once(rt: HostRuntime) {
    for line in RACES.lines() {
        let (range, want) = line.split_once(" => ").expect(&rt, line);
        let script = RACE.replace(rt.alloc(), "RANGE", range).expect(&rt, line);
        let want = format!(in rt.alloc(); "not: {want}").expect(&rt, line);
        holds(&rt, swept(&rt, DECKS, &script) == want, line);
    }
}

/// A writer that takes one byte a call, as many as it has room for.
#[derive(Drop)]
struct Narrow {
    bytes: Vec<u8>,
    room: usize,
}

impl Write for Narrow {
    fn write(&mut self, bytes: &[u8]) -> io::Result<usize> {
        if self.bytes.len() >= self.room {
            return Err(io::Error::from(ErrorKind::Other));
        }
        let taken = bytes.get(..1).unwrap_or(bytes);
        self.bytes.extend_from_slice(taken)?;
        Ok(taken.len())
    }

    fn flush(&mut self) -> io::Result<()> {
        Ok(())
    }
}

const LINES: &str = "39149..39149 not-ok\n39150..39151 ok\n";

/// A writer with this much room gets the front of the lines that fits, and its length is the count of the fault.
fn is_cut_off(rt: &(impl Abort + AllocGlobal), room: usize) -> bool {
    let mut out = Narrow {
        bytes: Vec::new(rt.alloc()),
        room,
    };
    let done = sweep(
        rt.alloc(),
        Form::Text,
        b"device tv tv 4\n",
        b"expect from 0 to 39149..39151 0>0\nend 50000\n",
        &mut Writes::new(&mut out),
        &mut SilentProgress,
    );
    let count = match done {
        Ok(_) => LINES.len() as u128,
        Err(SweepError::Write(count)) => count,
        Err(_) => return false,
    };
    count == room as u128 && Some(out.bytes.as_slice()) == LINES.as_bytes().get(..room)
}

#[test]
fn a_writer_that_fails_has_the_front(rt: HostRuntime) {
    for room in 0..=LINES.len() {
        holds(&rt, is_cut_off(&rt, room), LINES);
    }
}

/// How often a sweep said how far it is, and what it said last.
#[derive(Drop)]
struct Heard {
    times: u64,
    last: Option<SweepProgress>,
}

impl ProgressHearer for Heard {
    ghost hears = { λ r p s. Unit {0} };

    fn hear(&mut self, progress: SweepProgress) {
        self.times = self.times.saturating_add(1);
        self.last = Some(progress);
    }
}

/// What is heard of a sweep of the time at which the television's own poll, from 0 to 39150, is to be over.
fn heard_of(rt: &(impl Abort + AllocGlobal), range: &str) -> Heard {
    let script = format!(in rt.alloc(); "expect from 0 to {range} 0>0\nend 50000\n");
    let script = script.expect(rt, "a script");
    let mut out = Vec::new(rt.alloc());
    let mut heard = Heard {
        times: 0,
        last: None,
    };
    let _ = sweep(
        rt.alloc(),
        Form::Text,
        b"device tv tv 4\n",
        script.as_bytes(),
        &mut Writes::new(&mut out),
        &mut heard,
    );
    heard
}

/// After 1,000 instants of 1,002 there are two stretches: one up to 39149, and one from 39150 on.
#[test]
fn how_far_a_sweep_is_is_told(rt: HostRuntime) {
    let heard = heard_of(&rt, "39000..40001");
    let due = SweepProgress {
        done: 1000,
        count: 1002,
        stretches: 2,
    };
    holds(
        &rt,
        heard.times == 1 && heard.last == Some(due),
        "1002 instants",
    );
}

/// The last instant is over when the stretches are written, so that of a thousand nothing is told.
#[test]
fn of_a_thousand_instants_nothing_is_told(rt: HostRuntime) {
    let heard = heard_of(&rt, "39000..39999");
    holds(
        &rt,
        heard.times == 0 && heard.last.is_none(),
        "1000 instants",
    );
}
