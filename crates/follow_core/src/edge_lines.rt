//! A reader of the lines of an edge file, as they come.
ghost use Rattle.std.specs.Prelude.{◌≡◌, ◌+◌, ◌≤◌, IfErr, IfOk, IfSome, OnOk};
ghost use Rattle.line_wave.specs.Bounds.{latest_instant};
ghost use Rattle.capture_monitor.specs.EdgeFile.{edge_line_of};

use capture_core::Cause;
use capture_monitor::{EdgeLine, edge_line_in, is_in_turn, word_out_of_turn, word_past};
use line_wave::Edge;
use text_core::{At, at_word, is_skipped};

/// A reader of the lines of an edge file.
#[derive(Clone, Copy, Debug)]
pub struct EdgeReader {
    /// Whether the line of the bus is low.
    is_low: bool,
    /// The first instant at which it may change.
    from: u64,
    /// The end, once it was read.
    end: Option<u64>,
}

impl EdgeReader {
    ghost use Rattle.std.specs.Prelude.{None};
    ghost use Rattle.capture_core.specs.Reading.{Takes};
    ghost use Rattle.follow_core.specs.Lines.{IsEarlyFile, after_said, end_of, first_file, from_by, took_line};

    /// A reader at the front of a file.
    pub fn new() -> Self
        ensures { result ≡ first_file }
    {
        EdgeReader {
            is_low: false,
            from: 0,
            end: None,
        }
    }

    /// The first instant at which the line of the bus may change; after the end it changes no more.
    pub fn from(&self) -> u64
        requires early { IsEarlyFile self.now }
        ensures { result ≡ from_by self.now.end self.now.from }
    {
        match self.end {
            None => self.from,
            Some(end) => end + 1,
        }
    }

    // A line that is not skipped, before the end.
    fn take_said(&mut self, number: u64, line: &[u8]) -> Result<Option<Edge>, At<Cause>>
        requires open { self.old.end ≡ None }
        requires early { IsEarlyFile self.old }
        ensures takes { Takes (after_said number (edge_line_of line.now) self.old) result self.new }
        ensures place { IfErr result (λ fault. fault.line ≡ number) }
        ensures early { OnOk result (IsEarlyFile self.new) }
        ensures edge { IfOk result (λ edge. IfSome edge (λ e. e.at ≤ latest_instant)) }
    {
        match edge_line_in(line) {
            Err(word) => Err(at_word(word, Cause::Line).on_line(number)),
            Ok(said) => match said {
                EdgeLine::Edge(edge) => {
                    if !is_in_turn(self.is_low, self.from, edge) {
                        let word = word_out_of_turn(self.is_low, edge);
                        return Err(at_word(word, Cause::Order).on_line(number));
                    }
                    self.is_low = edge.low;
                    self.from = edge.at + 1;
                    Ok(Some(edge))
                }
                EdgeLine::End(end) => {
                    if self.from > end + 1 {
                        return Err(at_word(0, Cause::Order).on_line(number));
                    }
                    self.end = Some(end);
                    Ok(None)
                }
            },
        }
    }

    /// Takes the line of this number, and returns the edge that is known by it.
    ///
    /// # Errors
    ///
    /// The line is at fault.
    pub fn take(&mut self, number: u64, line: &[u8]) -> Result<Option<Edge>, At<Cause>>
        requires early { IsEarlyFile self.old }
        ensures takes { Takes (took_line number line.now self.old) result self.new }
        ensures place { IfErr result (λ fault. fault.line ≡ number) }
        ensures early { OnOk result (IsEarlyFile self.new) }
        ensures edge { IfOk result (λ edge. IfSome edge (λ e. e.at ≤ latest_instant)) }
    {
        if is_skipped(line) {
            return Ok(None);
        }
        match self.end {
            None => self.take_said(number, line),
            Some(_) => Err(at_word(word_past(line), Cause::Line).on_line(number)),
        }
    }

    /// The end, where the file has one. This number is that of the line after its last.
    ///
    /// # Errors
    ///
    /// The end is missing.
    pub fn end(&self, number: u64) -> Result<u64, At<Cause>>
        requires early { IsEarlyFile self.now }
        ensures end { result ≡ end_of self.now.end number }
        ensures place { IfErr result (λ fault. fault.line ≡ number) }
        ensures early { IfOk result (λ end. end ≤ latest_instant) }
    {
        match self.end {
            None => Err(at_word(0, Cause::Line).on_line(number)),
            Some(end) => Ok(end),
        }
    }
}
