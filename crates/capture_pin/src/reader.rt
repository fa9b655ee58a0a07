//! A reader of a file of pin events, line by line.
ghost use Rattle.std.specs.Prelude.{◌≡◌, Some};

use crate::line::{PinEvent, event_of, start_in_comment, word_at_fault};
use capture_core::{Cause, TakesWords, Track, instant_of, no_gap};
use line_wave::Edge;
use text_core::{AtWord, at_word, is_skipped};

/// A reader of the lines of a file.
#[derive(Clone, Copy, Debug)]
pub struct PinReader {
    /// The time from which instants are counted, in nanoseconds.
    start: u128,
    track: Track,
}

impl PinReader {
    ghost use Rattle.capture_core.specs.Reading.{Takes};
    ghost use Rattle.capture_pin.specs.Pin.{after_event, first_reader, moved_to, took};

    /// A reader at the front of a file.
    pub fn new() -> Self
        ensures { result ≡ first_reader }
    {
        PinReader {
            start: 0,
            track: Track::new(),
        }
    }

    // An event at this instant.
    fn go_to(&mut self, instant: Option<u64>, low: Option<bool>) -> Result<Option<Edge>, Cause>
        ensures { Takes (moved_to instant low self.old) result self.new }
    {
        let Some(instant) = instant else {
            return Err(Cause::Late);
        };
        match self.track.go_to(instant) {
            Err(_) => Err(Cause::Order),
            Ok(edge) => {
                if let Some(low) = low {
                    self.track.set(low);
                }
                Ok(edge)
            }
        }
    }

    // An event, which comes at the start or later.
    fn take_event(&mut self, event: PinEvent) -> Result<Option<Edge>, Cause>
        ensures { Takes (after_event (Some event) self.old) result self.new }
    {
        if event.nanos < self.start {
            return Err(Cause::Order);
        }
        self.go_to(instant_of(event.nanos - self.start), event.low)
    }

    // Takes the next line, and returns the edge that is known by it.
    fn take_line(&mut self, line: &[u8]) -> Result<Option<Edge>, Cause>
        ensures { Takes (took line.now self.old) result self.new }
    {
        if is_skipped(line) {
            if let Some(start) = start_in_comment(line) {
                self.start = start;
            }
            return Ok(None);
        }
        match event_of(line) {
            None => Err(Cause::Word),
            Some(event) => self.take_event(event),
        }
    }
}

impl<'a> TakesWords<'a> for PinReader {
    ghost use Rattle.capture_pin.specs.declared.reader.PinReader.{PinReader as ReaderOf};
    ghost use Rattle.capture_pin.specs.Pin.{pin_form};

    ghost State = { ReaderOf };

    ghost state = { λ r. r };

    ghost form = { pin_form };

    fn gap_in(line: &[u8]) -> Option<usize> {
        no_gap(line)
    }

    fn take(&mut self, _number: usize, line: &'a [u8]) -> Result<Option<Edge>, AtWord<Cause>> {
        match self.take_line(line) {
            Ok(edge) => Ok(edge),
            Err(cause) => Err(at_word(word_at_fault(line), cause)),
        }
    }

    fn track(&self) -> Track {
        self.track
    }

    fn end(&self) -> Result<u64, Cause> {
        Ok(self.track.at())
    }
}
