//! The lines of a capture, taken as they come.
ghost use Rattle.std.specs.Prelude.{◌≡◌, ◌≤◌, List, IfErr, IfOk, IfSome, OnOk, ℕ};
ghost use Rattle.line_wave.specs.Bounds.{latest_instant};
ghost use Rattle.capture_csv.specs.Csv.{column_of};
ghost use Rattle.follow_core.specs.Lines.{EndsLines, TakesLine, no_signal, rows_by};
ghost use Rattle.follow_core.specs.declared.lines.CaptureLines.TheVariants.{Pin, Rows};

use crate::edge_lines::EdgeReader;
use capture_core::{Cause, TakesWords};
use capture_csv::{CsvReader, column_of, csv_lines_are_early, csv_lines_go_on};
use capture_pin::{PinReader, pin_lines_are_early};
use line_wave::Edge;
use text_core::{At, at_word};

/// A form that is read line by line.
#[derive(Clone, Copy, Debug, PartialEq, Eq)]
pub enum LineForm {
    /// An edge file, as `run --edges` writes it.
    Edges,
    /// A file of pin events, as cec-ctl stores it.
    Pin,
    /// Comma-separated values, as Logic exports them.
    Csv,
}

/// The last edge, if it was not known before, and the end.
#[derive(Clone, Copy, Debug, PartialEq, Eq)]
pub struct Last {
    pub edge: Option<Edge>,
    pub end: u64,
}

/// A reader of the lines of a capture.
#[derive(Clone, Copy, Debug)]
pub enum CaptureLines {
    /// Those of an edge file.
    File(EdgeReader),
    /// Those of a file of pin events.
    Pin(PinReader),
    /// Those of comma-separated values, of which the first has the names.
    Names,
    /// The rows after it.
    Rows(CsvReader),
}

// Takes a line of a file of pin events.
fn take_pin(reader: &mut PinReader, number: u64, line: &[u8]) -> Result<Option<Edge>, At<Cause>>
    requires early { reader.old.track.at ≤ latest_instant }
    ensures takes { (signal : List ℕ) → TakesLine signal (Pin reader.old) number line.now result (Pin reader.new) }
    ensures place { IfErr result (λ fault. fault.line ≡ number) }
    ensures early { OnOk result (reader.new.track.at ≤ latest_instant) }
    ensures edge { IfOk result (λ edge. IfSome edge (λ e. e.at ≤ latest_instant)) }
{
    // No effect at run time. The proof reads from it that the reader stays within the limit.
    pin_lines_are_early();
    match reader.take(0, line) {
        Ok(edge) => Ok(edge),
        Err(slip) => Err(slip.on_line(number)),
    }
}

// No name is that of the signal.
fn no_signal(number: u64) -> At<Cause>
    ensures { result ≡ no_signal number }
{
    at_word(1, Cause::Signal).on_line(number)
}

// Takes the line of the names.
fn take_names(signal: &[u8], number: u64, line: &[u8]) -> Result<CsvReader, At<Cause>>
    ensures rows { result ≡ rows_by number (column_of signal.now line.now) }
    ensures early { IfOk result (λ rows. rows.track.at ≤ latest_instant) }
    ensures place { IfErr result (λ fault. fault.line ≡ number) }
{
    match column_of(line, signal) {
        None => Err(no_signal(number)),
        Some(column) => Ok(CsvReader::new(column)),
    }
}

// Takes a row of comma-separated values.
fn take_row(reader: &mut CsvReader, number: u64, line: &[u8]) -> Result<Option<Edge>, At<Cause>>
    requires early { reader.old.track.at ≤ latest_instant }
    ensures takes { (signal : List ℕ) → TakesLine signal (Rows reader.old) number line.now result (Rows reader.new) }
    ensures place { IfErr result (λ fault. fault.line ≡ number) }
    ensures early { OnOk result (reader.new.track.at ≤ latest_instant) }
    ensures edge { IfOk result (λ edge. IfSome edge (λ e. e.at ≤ latest_instant)) }
{
    // No effect at run time. The proof reads from it that the reader stays within the limit.
    csv_lines_are_early();
    match reader.take(0, line) {
        Ok(edge) => Ok(edge),
        Err(slip) => Err(slip.on_line(number)),
    }
}

// What is known after the last row.
fn end_rows(reader: &CsvReader, number: u64) -> Result<Last, At<Cause>>
    requires early { reader.now.track.at ≤ latest_instant }
    ensures ends { EndsLines (Rows reader.now) number result }
    ensures place { IfErr result (λ fault. fault.line ≡ number) }
    ensures early { IfOk result (λ last. last.end ≤ latest_instant) }
    ensures edge { IfOk result (λ last. IfSome last.edge (λ e. e.at ≤ latest_instant)) }
{
    // No effect at run time. The proof reads from it that the end is within the limit.
    csv_lines_go_on();
    match reader.end() {
        Err(cause) => Err(at_word(0, cause).on_line(number)),
        Ok(end) => Ok(Last {
            edge: reader.track().last(),
            end,
        }),
    }
}

impl CaptureLines {
    ghost use Rattle.follow_core.specs.Lines.{IsEarly, from_of, lines_captured, lines_left};

    /// A reader at the front of a capture.
    pub fn new(form: LineForm) -> Self
        ensures first { (signal : List ℕ) (lines : List (List ℕ)) → lines_left signal result 1 lines ≡ lines_captured form signal lines }
        ensures from { from_of result ≡ 0 }
        ensures early { IsEarly result }
    {
        match form {
            LineForm::Edges => CaptureLines::File(EdgeReader::new()),
            LineForm::Pin => CaptureLines::Pin(PinReader::new()),
            LineForm::Csv => CaptureLines::Names,
        }
    }

    /// Takes the line of this number, and returns the edge that is known by it, of the wire of this name; an empty one stands for
    /// the first.
    ///
    /// # Errors
    ///
    /// The line is at fault.
    pub fn take(
        &mut self,
        signal: &[u8],
        number: u64,
        line: &[u8],
    ) -> Result<Option<Edge>, At<Cause>>
        requires early { IsEarly self.old }
        ensures takes { TakesLine signal.now self.old number line.now result self.new }
        ensures place { IfErr result (λ fault. fault.line ≡ number) }
        ensures early { OnOk result (IsEarly self.new) }
        ensures edge { IfOk result (λ edge. IfSome edge (λ e. e.at ≤ latest_instant)) }
    {
        match self {
            CaptureLines::File(reader) => reader.take(number, line),
            CaptureLines::Pin(reader) => take_pin(reader, number, line),
            CaptureLines::Names => match take_names(signal, number, line) {
                Err(fault) => Err(fault),
                Ok(rows) => {
                    *self = CaptureLines::Rows(rows);
                    Ok(None)
                }
            },
            CaptureLines::Rows(reader) => take_row(reader, number, line),
        }
    }

    /// The instant before which no further edge comes.
    pub fn from(&self) -> u64
        requires early { IsEarly self.now }
        ensures from { result ≡ from_of self.now }
    {
        match self {
            CaptureLines::File(reader) => reader.from(),
            CaptureLines::Pin(reader) => reader.track().at(),
            CaptureLines::Names => 0,
            CaptureLines::Rows(reader) => reader.track().at(),
        }
    }

    /// What is known where no line is left. This number is that of the line after the last.
    ///
    /// # Errors
    ///
    /// The end is missing.
    pub fn end(&self, number: u64) -> Result<Last, At<Cause>>
        requires early { IsEarly self.now }
        ensures ends { EndsLines self.now number result }
        ensures place { IfErr result (λ fault. fault.line ≡ number) }
        ensures early { IfOk result (λ last. last.end ≤ latest_instant) }
        ensures edge { IfOk result (λ last. IfSome last.edge (λ e. e.at ≤ latest_instant)) }
    {
        match self {
            CaptureLines::File(reader) => {
                let end = reader.end(number)?;
                Ok(Last { edge: None, end })
            }
            CaptureLines::Pin(reader) => {
                let track = reader.track();
                Ok(Last {
                    edge: track.last(),
                    end: track.at(),
                })
            }
            CaptureLines::Names => Err(no_signal(number)),
            CaptureLines::Rows(reader) => end_rows(reader, number),
        }
    }
}
