//! A reader of rows.
ghost use Rattle.std.specs.Prelude.{◌≡◌};

use crate::column::Column;
use crate::level::low_by;
use crate::row::{Row, Time, row_of, since, word_at_fault};
use capture_core::{Cause, TakesWords, Track, instant_of, no_gap};
use line_wave::{Edge, LATEST_INSTANT};
use text_core::{AtWord, at_word};

/// How long a capture goes on after its last row, in microseconds, since the form has no end.
const ENDS_AFTER: u64 = 10_000;

/// A reader of the rows of a file.
#[derive(Clone, Copy, Debug)]
pub struct CsvReader {
    /// The column of the wire.
    column: Column,
    /// The time of the first row.
    first: Option<Time>,
    /// Whether the last row told the level again.
    is_again: bool,
    /// Whether the line is low by the last row.
    is_low: bool,
    track: Track,
}

impl CsvReader {
    ghost use Rattle.capture_core.specs.Reading.{Takes};
    ghost use Rattle.capture_csv.specs.Csv.{first_reader, with_row, moved_to, took};

    /// A reader before the first row.
    pub fn new(column: Column) -> Self
        ensures { result ≡ first_reader column }
    {
        CsvReader {
            column,
            first: None,
            is_again: true,
            is_low: false,
            track: Track::new(),
        }
    }

    // A level at this instant.
    fn go_to(&mut self, first: Time, instant: Option<u64>, low: bool) -> Result<Option<Edge>, Cause>
        ensures { Takes (moved_to first instant low self.old) result self.new }
    {
        let Some(instant) = instant else {
            return Err(Cause::Late);
        };
        match self.track.go_to(instant) {
            Err(_) => Err(Cause::Order),
            Ok(edge) => {
                self.track.set(low);
                self.first = Some(first);
                self.is_again = low == self.is_low;
                self.is_low = low;
                Ok(edge)
            }
        }
    }

    // A row. Times are counted from the first one.
    fn take_row(&mut self, row: Row) -> Result<Option<Edge>, Cause>
        ensures { Takes (with_row row self.old) result self.new }
    {
        let first = match self.first {
            None => row.time,
            Some(first) => first,
        };
        let low = low_by(row.said, self.is_low);
        match since(first, row.time) {
            None => Err(Cause::Order),
            Some(since) => self.go_to(first, instant_of(since), low),
        }
    }

    // Takes the next line, and returns the edge that is known by it.
    fn take_line(&mut self, line: &[u8]) -> Result<Option<Edge>, Cause>
        ensures { Takes (took line.now self.old) result self.new }
    {
        match row_of(self.column, line) {
            None => Err(Cause::Word),
            Some(row) => self.take_row(row),
        }
    }
}

impl<'a> TakesWords<'a> for CsvReader {
    ghost use Rattle.capture_csv.specs.declared.reader.CsvReader.{CsvReader as ReaderOf};
    ghost use Rattle.capture_csv.specs.Csv.{csv_form};

    ghost State = { ReaderOf };

    ghost state = { λ r. r };

    ghost form = { csv_form };

    fn gap_in(line: &[u8]) -> Option<usize> {
        no_gap(line)
    }

    fn take(&mut self, _number: usize, line: &'a [u8]) -> Result<Option<Edge>, AtWord<Cause>> {
        let column = self.column;
        match self.take_line(line) {
            Ok(edge) => Ok(edge),
            Err(cause) => Err(at_word(word_at_fault(column, line), cause)),
        }
    }

    fn track(&self) -> Track {
        self.track
    }

    // The last row, where that reports the level again, or else 10,000 microseconds after it, within the limit.
    fn end(&self) -> Result<u64, Cause> {
        if self.is_again {
            Ok(self.track.at())
        } else {
            Ok(
                self.track
                    .at()
                    .saturating_add(ENDS_AFTER)
                    .min(LATEST_INSTANT),
            )
        }
    }
}
