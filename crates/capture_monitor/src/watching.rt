//! From an edge file to the lines of its readings.
ghost use Rattle.std.specs.Prelude.{◌≡◌, ◌<◌, MatchResult, option_map, Ok, Err};
ghost use Rattle.line_reading.specs.Reports.{listed_as};
ghost use Rattle.capture_monitor.specs.EdgeFile.{EdgeFile, file_of};
ghost use Rattle.capture_monitor.specs.Watch.{Answers, WritesFile, file_readings, readings_text, reported_text, reported_so};
ghost use Rattle.text_core.specs.Adds.{Adds};

use crate::edge_file::{EdgeFault, EdgeLine, EdgeLines};
use crate::monitor::Monitor;
use line_frames::Reading;
use message_text::add_reading;
use std::alloc::Global;
use text_core::{Counted, Sink, WriteFault};
use thiserror::Error;

/// Why the readings of an edge file are not written, or not all of them.
#[derive(Clone, Copy, Debug, Drop, PartialEq, Eq, Error)]
pub enum WatchError {
    /// The first line at fault, counted from 1, is ill-formed, its time is past the limit, or it stands after the
    /// end. Without an end it is the line after the last. The word at fault counts from 0; where it is missing, it has the
    /// number that it would have.
    #[error("line {line}: line")]
    Line { line: u64, word: usize },
    /// The first line at fault is an edge out of turn, or its time goes back.
    #[error("line {line}: order")]
    Order { line: u64, word: usize },
    /// A `put` took none. So many bytes were written.
    #[error("write fault after {0} bytes")]
    Write(u128),
    #[error("no memory")]
    Memory,
}

fn reported_so(fault: EdgeFault) -> WatchError
    ensures { result ≡ reported_so fault }
{
    match fault {
        EdgeFault::Line { line, word } => WatchError::Line { line, word },
        EdgeFault::Order { line, word } => WatchError::Order { line, word },
    }
}

// Looks for a line at fault.
fn check_file(text: &[u8]) -> Result<(), EdgeFault>
    ensures { MatchResult result
        (λ _. (f : EdgeFile) × (file_of text.now ≡ Ok f))
        (λ fault. file_of text.now ≡ Err fault) }
{
    let mut lines = EdgeLines::new(text);
    'edges: loop {
        match lines.next() {
            Err(fault) => return Err(fault),
            Ok(line) => match line {
                EdgeLine::Edge(_) => {}
                EdgeLine::End(_) => return Ok(()),
            },
        }
    }
}

// Adds the line of a reading, if there is one.
#[tactic(auto, using(text_core::proofs::Adding::nothing))]
pub(crate) fn add_reported<S: Sink>(out: &mut Counted<'_, S>, reading: &Option<Reading>)
    ensures { Adds out.old out.new (reported_text (option_map listed_as reading.now)) }
{
    match reading {
        None => {}
        Some(reading) => add_reading(out, reading),
    }
}

// Adds the readings of a file without a fault, up to a fault of the sink.
fn add_readings<S: Sink>(out: &mut Counted<'_, S>, text: &[u8])
    ensures { (f : EdgeFile) → file_of text.now ≡ Ok f → Adds out.old out.new (readings_text (file_readings f)) }
{
    let mut lines = EdgeLines::new(text);
    let mut monitor = Monitor::new();
    'edges: loop {
        match lines.next() {
            Err(_) => return,
            Ok(line) => match line {
                EdgeLine::Edge(edge) => {
                    let reading = monitor.edge(edge);
                    add_reported(out, &reading);
                    if out.has_failed() {
                        return;
                    }
                }
                EdgeLine::End(t) => {
                    let reading = monitor.finish(t);
                    add_reported(out, &reading);
                    return;
                }
            },
        }
    }
}

// Writes the readings of a file without a fault.
fn write_readings<S: Sink>(text: &[u8], out: &mut S) -> Result<(), WriteFault>
    ensures { (f : EdgeFile) → file_of text.now ≡ Ok f
        → WritesFile (S.contents out.old) (S.contents out.new) (S.is_stuck out.old) (S.is_stuck out.new) f result }
{
    let mut readings = Counted::new(out);
    add_readings(&mut readings, text);
    let written = readings.written();
    // No effect at run time. The proof reads what `out` holds from the sink that comes back.
    let _below = readings.into_sink();
    match written {
        Ok(_) => Ok(()),
        Err(fault) => Err(fault),
    }
}

/// Writes the readings of an edge file, a line each: those of any line of the bus, in order, each once, and last the
/// one that is open at the end. It reads the file twice and takes no memory.
///
/// # Errors
///
/// `Line` or `Order` with the first line at fault: then nothing was written. `Write` where the sink takes no more:
/// then the front of the readings was written, as long as it reports. Lines that are empty or begin with `#` are
/// skipped, but counted. `Memory` never comes.
pub fn watch<S: Sink>(_alloc: Global, text: &[u8], out: &mut S) -> Result<(), WatchError>
    ensures { Answers (S.contents out.old) (S.contents out.new) (S.is_stuck out.old) (S.is_stuck out.new) text.now result }
{
    if let Err(fault) = check_file(text) {
        return Err(reported_so(fault));
    }
    match write_readings(text, out) {
        Ok(()) => Ok(()),
        Err(fault) => Err(WatchError::Write(fault.count)),
    }
}
