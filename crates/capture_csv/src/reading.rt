//! From a file to the edges of a line.
ghost use Rattle.std.specs.Prelude.{◌≡◌};
ghost use Rattle.capture_core.specs.Reading.{Gives, GivesEdges};
ghost use Rattle.capture_csv.specs.Csv.{edges_in};

use crate::column::column_of;
use crate::reader::CsvReader;
use capture_core::{Capture, CaptureError, Cause, read_lines};
use line_wave::Edge;
use std::alloc::Global;
use text_core::{at_word, first_line};

// No name after that of the time is the signal's.
fn no_signal() -> CaptureError
    ensures { result ≡ CaptureError.Fault (record { line = 1; cause = Cause.Signal; word = 1 }) }
{
    CaptureError::Fault(at_word(1, Cause::Signal).on_line(1))
}

// Reads the edges, and the end.
fn read_edges(alloc: Global, signal: &[u8], text: &[u8]) -> Result<(Vec<Edge>, u64), CaptureError>
    ensures { GivesEdges result (edges_in signal.now text.now) }
{
    let Some((line, rest)) = first_line(text) else {
        return Err(no_signal());
    };
    match column_of(line, signal) {
        None => Err(no_signal()),
        Some(column) => read_lines(alloc, &mut CsvReader::new(column), 2, rest),
    }
}

/// Reads a file: the edges of the column of this name, or of the first one where the name is empty. Times are counted from
/// the first row, in the unit that the name of their column has, and rounded up to whole microseconds; of several rows in one the last counts, and a level that is reported
/// again is no edge. A voltage between the thresholds leaves the level as it is. Before the first row the line counts as high. The capture ends with the last row where that reports the
/// level again, and else 10,000 microseconds after it.
///
/// # Errors
///
/// The first line at fault, or no memory.
pub fn read_csv(alloc: Global, signal: &[u8], text: &[u8]) -> Result<Capture, CaptureError>
    ensures { Gives result (edges_in signal.now text.now) }
{
    let (edges, end) = read_edges(alloc, signal, text)?;
    Ok(Capture::new(edges, end))
}
