//! Captures that are followed, over a reader that gives one line at each read and a writer that notes when it was written to.
ghost use Rattle.line_reading.specs.Windows.{AreWindows};

use follow_core::{FollowError, LineForm, ReadingView, Reception, follow};
use line_reading::Windows;
use record_core::Form;
use std::cell::RefCell;
use std::io::{self, ErrorKind, Read, Write};
use std::process::Abort;
use text_core::{Buffered, Writes};

/// `FORM:MARGIN TEXT => SAID END`; `csv-NAME` is the form with a name of the wire, `FORM+idle` has one line for the readings before the
/// line is first idle, `FORM+fold` one for bad starts in a row, `MARGIN~N` passes over pulses and gaps shorter than N,
/// and `MARGIN!` reads levels the other way round. In a text `|` ends a line, and `START` is a comment that starts pin events at 100 s; `POLL` has
/// the lines of the television's own poll from 12,000 on up to its last bit, whose fall is at 38,100, and `SLOTS` those after its
/// start bit. `SAID` has `>` for each line
/// that was read, and each reading where it was written, with `|` after it; `END` is `.` or the fault.
const ROWS: &str = "\
# A pulse that is no start bit is over with its rise; that of a pin is known with the next event, of another pin too.
edges:0 12000 0|12300 1|40000 end => >>12000 12300 bad-start -|> .
pin:0 START|100.012000000 0|100.012300000 1|100.012300001 1 => >>>>12000 12300 bad-start -| .
pin:0 START|100.012000000 0|100.012300000 1|100.013000000 3|100.014000000 3 => >>>>12000 12300 bad-start -|> .
pin:0 START|100.012000000 0|100.012300000 1|100.012300000 1 => >>>>12000 12300 bad-start -| .
# A low that is too long for a start bit is over 3,901 after its fall.
pin:0 START|100.012000000 0|100.015901000 2|100.015902000 2 => >>>>12000 15901 bad-start -| .
edges:0 12000 0|15950 1|16000 end => >>12000 15901 bad-start -|> .
# A poll that nobody acknowledges is over 1,050 after its last fall: with the first line that says more than that instant.
edges:0 POLL|38700 1|39150 end => >>>>>>>>>>>>>>>>>>>>>>>12000 39150 complete 0>0 nack| .
edges:0 POLL|38700 1|50000 end|# more => >>>>>>>>>>>>>>>>>>>>>>>12000 39150 complete 0>0 nack|> .
edges:0 POLL|38700 1|50000 0|50001 end => >>>>>>>>>>>>>>>>>>>>>>>12000 39150 complete 0>0 nack|>50000 50001 open -| .
# One that is acknowledged is over before its last bit rises.
edges:0 POLL|39600 1|90000 end => >>>>>>>>>>>>>>>>>>>>>>12000 39150 complete 0>0 ack|> .
# Lines that are skipped say nothing; what stands after the end is at fault.
edges:0 # a pulse|12000 0||12300 1|# no more|40000 end|# none => >>>>12000 12300 bad-start -|>>> .
edges:0 12000 0|12300 1|40000 end|41000 0 => >>12000 12300 bad-start -|>> line 4: line
# Faults, and what was written before them.
edges:0  => line 1: line
edges:0 12000 0|12300 1 => >>12000 12300 bad-start -| line 3: line
edges:0 12000 0|12300 1|12200 0 => >>12000 12300 bad-start -|> line 3: order
edges:0 12000 0|12300 1|frob|40000 end => >>12000 12300 bad-start -|> line 3: line
pin:0 START|100.012000000 0|100.012300000 1|100.013000000 1|100.012900000 0 => >>>>12000 12300 bad-start -|> line 5: order
pin:0 START|99.999999999 0 => >> line 2: order
pin:0 START|100.012000000 6 => >> line 2: word
pin:0 => .
# Rows of comma-separated values: an edge is known with the next row, a level that is told again ends the last of them.
csv:0 Time [s],CEC|0.000000000,1|0.012000000,0|0.012300000,1|0.012300001,1 => >>>>>12000 12300 bad-start -| .
csv:0 Time [s],CEC|0.000000000,1|0.012000000,0|0.012300000,1|0.040000000,1 => >>>>>12000 12300 bad-start -| .
csv:0 Time [s],CEC|0.000000000,1|0.012000000,0|0.015901000,0|0.015902000,0 => >>>>>12000 15901 bad-start -| .
# Where the last row changes the level, the capture goes on for 10,000.
csv:0 Time [s],CEC|5.000000000,1|5.012000000,0 => >>>12000 15901 bad-start -| .
# Times below zero and of the day, a carriage return, more decimals.
csv:0 Time [s],CEC|-1.000000000,1|-0.988,0|-0.9877,1|-0.9,1 => >>>>>12000 12300 bad-start -| .
csv:0 Time,CEC|2026-11-27T10:00:00.000000000+00:00,1|2026-11-27T10:00:00.012+00:00,0|2026-11-27T11:00:00.0123+01:00,1|2026-11-27T10:00:01Z,1 => >>>>>12000 12300 bad-start -| .
# A wire by its name, the second of two.
csv-CEC:0 Time [s],HPD, CEC|0.0,1,1|0.012,0,0|0.0123,1,1|0.02,1,1 => >>>>>12000 12300 bad-start -| .
csv-CEC:0 Time (ms),HPD, CEC|0.0,High,High|12,Low,Low|12.3,High,High|20,High,High => >>>>>12000 12300 bad-start -| .
csv:0 Time [ms],CEC|0,3.3|12,0.1|12.1,1.9|12.3,2.1|12.4,1.0|20,3.3 => >>>>>>12000 12300 bad-start -|> .
csv:0 Time [s],HPD, CEC|0.0,1,1|0.012,1,0|0.0123,1,1|0.02,1,1 => >>>>> .
# No such wire, or no names; rows at fault.
csv-SDA:0 Time [s],CEC|0.0,1 => > line 1: signal
csv:0 Time [s]|0.0 => > line 1: signal
csv:0  => line 1: signal
csv:0 Time [s],CEC|0.0,1|0.012,0|0.0123,1|0.02,2 => >>>>> line 5: word
csv:0 Time [s],CEC|0.0,1|0.012,0|0.0123,1|0.02,1|0.01,1 => >>>>>12000 12300 bad-start -|> line 6: order
csv:0 Time [s],CEC|0.0,1|2000000.000001,0 => >>> line 3: late
csv:0 Time [s],CEC => > .
# A reader that fails.
edges:0 12000 0|12300 1|#fault => >>12000 12300 bad-start -| read fault
# By wider windows a start bit that is low for 3,950 is one.
edges:100 12000 0|15950 1|16000 end => >>>12000 16000 open -| .
# An edge waits until the line has stayed as it is for as long as the shortest pulse; what is over before that edge does not wait.
edges:0~100 12000 0|12300 1|12399 end => >>>12000 12300 bad-start -| .
edges:0~100 12000 0|12300 1|12398 end|# more => >>>>12000 12300 bad-start -| .
edges:0~100 12000 0|12300 1|12400 0|12500 1|20000 end => >>>12000 12300 bad-start -|>>12400 12500 bad-start -| .
edges:0~100 12000 0|12050 1|40000 end => >>> .
edges:0~100 12000 0|12300 1|12350 0|12700 1|40000 end => >>>>>12000 12700 bad-start -| .
edges:0~100 12000 0|15950 1|16000 end => >>12000 15901 bad-start -|> .
edges:0~100 12000 0|12300 1|frob => >>> line 3: line
pin:0~100 START|100.012000000 0|100.012300000 1|100.012399000 1|100.012400000 1 => >>>>>12000 12300 bad-start -| .
csv:0~100 Time [s],CEC|0.0,1|0.012,0|0.0123,1|0.0124,1|0.04,1 => >>>>>12000 12300 bad-start -|> .
# Levels the other way round: a line that is high at first is low from 0 on, where it does not fall there.
edges:0! 0 0|12000 1|12300 0|40000 end => >>>12000 12300 bad-start -|> .
edges:0! 12000 0|12300 1|40000 end => >0 3901 bad-start -|>>12300 16201 bad-start -| .
edges:0! # nothing yet|40000 end => >>0 3901 bad-start -| .
pin:0! START|100.000000000 0|100.012000000 1|100.012300000 0|100.013000000 0 => >>>>>12000 12300 bad-start -| .
csv:0! Time [s],CEC|0.0,0|0.012,1|0.0123,0|0.013,0 => >>>>>12000 12300 bad-start -| .
# First they are turned, and then what is too short is passed over.
edges:0~100! 0 0|12000 1|12300 0|12340 1|12700 0|40000 end => >>>>>>12000 12700 bad-start -| .
edges:0~100! 50 0|12000 1|12300 0|40000 end => >>>>12000 12300 bad-start -| .
# From where the line was high for 7,200: nothing before that instant is known, then one line for the readings that began before.
edges+idle:0 1000 0|1600 1|3400 0|4000 1|30000 0|33000 1|40000 end => >>>>>0 11200 joined -|>30000 33000 bad-start -|> .
edges+idle:0 7199 0|10199 1|40000 end => >>>0 17399 joined -| .
pin+idle:0 START|100.001000000 0|100.001600000 1|100.008800000 1|100.008801000 3 => >>>>>0 8800 joined -| .
csv+idle:0 Time [s],CEC|0.0,1|0.001,0|0.0016,1|0.03,0|0.033,1|0.04,1 => >>>>>0 8800 joined -|>>30000 33000 bad-start -| .
# Where none is before the end, that line comes with the end.
edges+idle:0 7199 0|10199 1|17000 end => >>>0 17000 joined -| .
edges+idle:0! 12000 0|12300 1|40000 end => >>>0 40000 joined -| .
# Without such readings there is no such line.
edges+idle:0 12000 0|12300 1|40000 end => >>12000 12300 bad-start -|> .
edges+idle:0! 0 0|12000 1|12300 0|40000 end => >>>12000 12300 bad-start -|> .
edges+idle:0 40000 end => > .
# Pulses that are passed over are none there.
edges+idle:0~100 1000 0|1600 1|1650 0|1700 1|30000 0|33000 1|40000 end => >>>>>0 8900 joined -|>>30000 33000 bad-start -| .
# Bad starts in a row wait until another reading is over, or for the end; one alone has its own line.
edges+fold:0 1000 0|1400 1|20000 end => >>>1000 1400 bad-start -| .
edges+fold:0 1000 0|1400 1|2000 0|2400 1|3000 0|3600 1|20000 end => >>>>>>>1000 3600 bad-starts 3| .
edges+fold:0 1000 0|1400 1|2000 0|2400 1|21000 0|24700 1|25500 0|26100 1|30000 0|30400 1|31000 0|31400 1|40000 end => >>>>>>>>>1000 2400 bad-starts 2|21000 28251 silent 1|>>>>30000 31400 bad-starts 2| .
pin+fold:0 START|100.012000000 0|100.012300000 1|100.013000000 0|100.013300000 1|100.014000000 1 => >>>>>>12000 13300 bad-starts 2| .
csv+fold:0 Time [s],CEC|0.0,1|0.012,0|0.0123,1|0.02,1 => >>>>>12000 12300 bad-start -| .
edges+fold:0 1000 0|1400 1|2000 0|2400 1|frob => >>>>> line 5: line
# The line for the readings before the line is idle is none of them.
edges+idle+fold:0 1000 0|1400 1|12000 0|12300 1|13000 0|13300 1|40000 end => >>>0 8600 joined -|>>>>12000 13300 bad-starts 2| .
# A fault before it leaves nothing.
edges+idle:0 1000 0|1600 1|frob|40000 end => >>> line 3: line
edges+idle:0 1000 0|1600 1|30000 0|frob|40000 end => >>>0 8800 joined -|> line 4: line
";

const START: &str = "# start_monotonic 100.000000000";

const POLL: &str = "12000 0|15700 1|SLOTS";

const SLOTS: &str =
    "16500 0|18000 1|18900 0|20400 1|21300 0|22800 1|23700 0|25200 1|26100 0|27600 1|28500 0|30000 1|30900 0|32400 1|33300 0|34800 1|35700 0|36300 1|38100 0";

/// A reader that gives one line at each read, at most as many bytes as there is room for, and notes that it did. A line `#fault`
/// can't be read.
#[derive(Drop)]
pub(crate) struct Driver<'a> {
    pub(crate) rest: &'a [u8],
    pub(crate) said: &'a RefCell<Vec<u8>>,
}

impl<'a> Read for Driver<'a> {
    fn read(&mut self, buf: &mut [u8]) -> io::Result<usize> {
        if self.rest.starts_with(b"#fault") {
            return Err(io::Error::from(ErrorKind::Other));
        }
        let length = match self.rest.iter().position(|byte| *byte == b'\n') {
            Some(end) => end.saturating_add(1),
            None => self.rest.len(),
        };
        let length = length.min(buf.len());
        let (Some(line), Some(rest)) = (self.rest.get(..length), self.rest.get(length..)) else {
            return Ok(0);
        };
        let Some(place) = buf.get_mut(..length) else {
            return Err(io::Error::from(ErrorKind::Other));
        };
        place.copy_from_slice(line);
        if length > 0 {
            let Ok(mut said) = self.said.try_borrow_mut() else {
                return Err(io::Error::from(ErrorKind::Other));
            };
            said.extend_from_slice(b">")?;
        }
        self.rest = rest;
        Ok(length)
    }
}

/// A writer that notes what it is handed, and fails once its room is full.
#[derive(Drop)]
pub(crate) struct Told<'a> {
    pub(crate) said: &'a RefCell<Vec<u8>>,
    pub(crate) room: usize,
}

impl<'a> Write for Told<'a> {
    fn write(&mut self, bytes: &[u8]) -> io::Result<usize> {
        let count = bytes.len().min(self.room);
        if count == 0 && !bytes.is_empty() {
            return Err(io::Error::from(ErrorKind::BrokenPipe));
        }
        let Some(taken) = bytes.get(..count) else {
            return Ok(0);
        };
        let Ok(mut said) = self.said.try_borrow_mut() else {
            return Err(io::Error::from(ErrorKind::Other));
        };
        said.extend_from_slice(taken)?;
        self.room = self.room.saturating_sub(count);
        Ok(count)
    }

    fn flush(&mut self) -> io::Result<()> {
        Ok(())
    }
}

/// How a capture that was followed ended.
fn end_text(rt: &(impl Abort + AllocGlobal), end: &Result<(), FollowError>) -> String {
    match end {
        Ok(()) => format!(in rt.alloc(); ".").expect(rt, "an end"),
        Err(error) => format!(in rt.alloc(); "{error}").expect(rt, "a fault"),
    }
}

/// What was said, and how it ended.
pub(crate) fn with_end(rt: &(impl Abort + AllocGlobal), said: Vec<u8>, end: String) -> String {
    let reported = String::from_utf8(said).expect(rt, "a text");
    let reported = reported.replace(rt.alloc(), "\n", "|").expect(rt, "a text");
    if reported.is_empty() {
        return end;
    }
    format!(in rt.alloc(); "{reported} {end}").expect(rt, "a text")
}

/// The form that a word of a row names.
pub(crate) fn form_of(word: &str) -> LineForm {
    match word {
        "pin" => LineForm::Pin,
        "csv" => LineForm::Csv,
        _ => LineForm::Edges,
    }
}

/// How the words after the form have a capture read: `MARGIN`, `MARGIN~GLITCH`, and `!` where its levels are turned.
pub(crate) fn reception_of(rt: &(impl Abort + AllocGlobal), words: &str) -> Reception
    ensures { AreWindows result.windows }
{
    let (words, inverted) = match words.strip_suffix("!") {
        Some(words) => (words, true),
        None => (words, false),
    };
    let (margin, glitch) = words.split_once('~').unwrap_or((words, "0"));
    let margin = margin.parse::<u64>().expect(rt, "a margin");
    Reception {
        windows: Windows::wider(margin.min(300)),
        inverted,
        glitch: glitch.parse::<u64>().expect(rt, "a width"),
    }
}

/// What is shown of readings, by the words after the form.
fn view_of(words: &str) -> ReadingView {
    ReadingView {
        written: Form::Text,
        from_idle: words.contains("idle"),
        folds: words.contains("fold"),
    }
}

/// What is said where a capture is followed, over a writer with so much room.
fn said_of(
    rt: &(impl Abort + AllocGlobal),
    form: LineForm,
    signal: &[u8],
    view: ReadingView,
    how: Reception,
    text: &[u8],
    room: usize,
) -> String
    requires { AreWindows how.windows }
{
    let said = RefCell::new(Vec::new(rt.alloc()));
    let mut driver = Driver {
        rest: text,
        said: &said,
    };
    let mut out = Buffered::new(Writes::new(Told { said: &said, room }));
    let end = follow(form, signal, view, how, &mut driver, &mut out);
    drop(out);
    drop(driver);
    with_end(rt, said.into_inner(), end_text(rt, &end))
}

/// A text without its short forms.
pub(crate) fn spelled(rt: &(impl Abort + AllocGlobal), text: &str) -> String {
    let text = text
        .replace(rt.alloc(), "START", START)
        .expect(rt, "a text");
    let text = text.replace(rt.alloc(), "POLL", POLL).expect(rt, "a text");
    let text = text
        .replace(rt.alloc(), "SLOTS", SLOTS)
        .expect(rt, "a text");
    text.replace(rt.alloc(), "|", "\n").expect(rt, "a text")
}

fn check(rt: &(impl Abort + AllocGlobal), row: &str) {
    let (asked, want) = row.split_once(" => ").expect(rt, "a row");
    let (words, text) = asked.split_once(' ').unwrap_or((asked, ""));
    let (form, how) = words.split_once(':').expect(rt, "a form");
    let (form, signal) = form.split_once('-').unwrap_or((form, ""));
    let (form, view) = form.split_once('+').unwrap_or((form, ""));
    let text = spelled(rt, text);
    let said = said_of(
        rt,
        form_of(form),
        signal.as_bytes(),
        view_of(view),
        reception_of(rt, how),
        text.as_bytes(),
        usize::MAX,
    );
    assert!(rt; said.as_str() == want, "{row}: {said}");
}

#[test]
fn readings_are_written_when_they_are_over(rt: HostRuntime) {
    for row in ROWS.lines() {
        if !row.starts_with("# ") {
            check(&rt, row);
        }
    }
}

#[test]
fn a_writer_that_is_full_ends_it(rt: HostRuntime) {
    let text = b"12000 0\n12300 1\n40000 0\n40300 1\n50000 end\n";
    let how = reception_of(&rt, "0");
    let said = said_of(&rt, LineForm::Edges, b"", view_of(""), how, text, 10);
    assert!(&rt;
        said.as_str() == ">>12000 1230 write fault after 10 bytes",
        "{said}"
    );
    let said = said_of(&rt, LineForm::Edges, b"", view_of(""), how, text, 30);
    assert!(&rt;
        said.as_str() == ">>12000 12300 bad-start -|>>40000  write fault after 30 bytes",
        "{said}"
    );
}
