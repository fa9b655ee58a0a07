//! The lines of an edge file.
ghost use Rattle.std.specs.Prelude.{◌≡◌, ◌+◌, ◌<◌, false, length};
ghost use Rattle.std.specs.Option.{option_copied};
ghost use Rattle.text_core.specs.Lines.{lines_of};
ghost use Rattle.text_core.specs.Words.{words_after};
ghost use Rattle.capture_monitor.specs.EdgeFile.{edge_line_of, edge_line_at, is_in_turn, line_alone, marked_by, time_of, turns, word_out_of_turn, word_past};

use line_wave::{Edge, LATEST_INSTANT};
use text_core::{first_line, first_word, is_skipped, number_in};

/// What a line says.
#[derive(Clone, Copy, Debug, PartialEq, Eq)]
pub enum EdgeLine {
    /// The line of the bus falls or rises.
    Edge(Edge),
    /// The file ends with this instant.
    End(u64),
}

/// The first line at fault, counted from 1, and the word at fault, counted from 0; where a word is missing, the number that it
/// would have.
#[derive(Clone, Copy, Debug, PartialEq, Eq)]
pub enum EdgeFault {
    /// It is ill-formed, or stands after the end, or the end is missing.
    Line { line: u64, word: usize },
    /// It is out of turn, or its time goes back.
    Order { line: u64, word: usize },
}

fn time_of(word: &[u8]) -> Option<u64>
    ensures { result ≡ time_of word.now }
{
    match number_in(word) {
        Some(time) if time <= LATEST_INSTANT => Some(time),
        _ => None,
    }
}

fn edge_line_at(at: u64, mark: &[u8]) -> Result<EdgeLine, usize>
    ensures { result ≡ edge_line_at at mark.now }
{
    if mark == b"0".as_slice() {
        Ok(EdgeLine::Edge(Edge { at, low: true }))
    } else if mark == b"1".as_slice() {
        Ok(EdgeLine::Edge(Edge { at, low: false }))
    } else if mark == b"end".as_slice() {
        Ok(EdgeLine::End(at))
    } else {
        Err(1)
    }
}

// What two words say, where none is left after them.
fn line_alone(line: Result<EdgeLine, usize>, rest: Option<&[u8]>) -> Result<EdgeLine, usize>
    ensures { result ≡ line_alone line (words_after (option_copied rest.entry)) }
{
    match line {
        Err(word) => Err(word),
        Ok(line) => match rest {
            None => Ok(line),
            Some(rest) => {
                let (_word, _others) = first_word(rest);
                Err(2)
            }
        },
    }
}

// The words after a time.
fn marked_by(at: Option<u64>, rest: Option<&[u8]>) -> Result<EdgeLine, usize>
    ensures { result ≡ marked_by at (words_after (option_copied rest.entry)) }
{
    let Some(at) = at else {
        return Err(0);
    };
    let Some(rest) = rest else {
        return Err(1);
    };
    let (mark, rest) = first_word(rest);
    line_alone(edge_line_at(at, mark), rest)
}

/// What a line that is not skipped says.
///
/// # Errors
///
/// The number of its word at fault.
pub fn edge_line_in(line: &[u8]) -> Result<EdgeLine, usize>
    ensures { result ≡ edge_line_of line.now }
{
    let (time, rest) = first_word(line);
    marked_by(time_of(time), rest)
}

/// The word at fault of a line that stands after the end.
pub fn word_past(line: &[u8]) -> usize
    ensures { result ≡ word_past (edge_line_of line.now) }
{
    match edge_line_in(line) {
        Err(word) => word,
        Ok(_) => 0,
    }
}

// Whether an edge turns a line that is low, or high.
fn turns(is_low: bool, edge: Edge) -> bool
    ensures { result ≡ turns is_low edge }
{
    edge.low != is_low
}

/// Whether an edge turns a line that is low, or high, and does not come before this instant.
pub fn is_in_turn(is_low: bool, from: u64, edge: Edge) -> bool
    ensures { result ≡ is_in_turn is_low from edge }
{
    turns(is_low, edge) && from <= edge.at
}

/// The word at fault of an edge that is not in turn.
pub fn word_out_of_turn(is_low: bool, edge: Edge) -> usize
    ensures { result ≡ word_out_of_turn is_low edge }
{
    if turns(is_low, edge) { 0 } else { 1 }
}

// A reader of the lines of an edge file: what is left of it, the number of the next line, whether the line of the bus
// is low, and the first instant at which it may change.
#[derive(Clone, Copy, Debug)]
pub struct EdgeLines<'a> {
    rest: &'a [u8],
    number: u64,
    is_low: bool,
    from: u64,
}

impl<'a> EdgeLines<'a> {
    ghost use Rattle.capture_monitor.specs.EdgeFile.{EndsSo, ReadsLine, ReadsOn};

    /// A reader of this file.
    pub fn new(text: &'a [u8]) -> Self
        ensures rest { result.rest.now ≡ text.now }
        ensures first { (result.number ≡ 1) × (result.is_low ≡ false) × (result.from ≡ 0) }
    {
        EdgeLines {
            rest: text,
            number: 1,
            is_low: false,
            from: 0,
        }
    }

    // Nothing stands after the end.
    fn end(&self, t: u64) -> Result<EdgeLine, EdgeFault>
        requires room { self.now.number + length self.now.rest.now < 18446744073709551615 }
        ensures { EndsSo (lines_of self.now.rest.now) self.now.number t result }
    {
        let mut rest = self.rest;
        let mut number = self.number;
        while let Some((line, after)) = first_line(rest) {
            if !is_skipped(line) {
                return Err(EdgeFault::Line {
                    line: number,
                    word: word_past(line),
                });
            }
            rest = after;
            number += 1;
        }
        Ok(EdgeLine::End(t))
    }

    // The line of this number, which is not skipped.
    fn take(&mut self, number: u64, line: &[u8]) -> Result<EdgeLine, EdgeFault>
        requires room { self.old.number + length self.old.rest.now < 18446744073709551615 }
        ensures { ReadsLine number line.now self.old result self.new }
    {
        match edge_line_in(line) {
            Err(word) => Err(EdgeFault::Line { line: number, word }),
            Ok(line) => match line {
                EdgeLine::Edge(edge) => {
                    if !is_in_turn(self.is_low, self.from, edge) {
                        return Err(EdgeFault::Order {
                            line: number,
                            word: word_out_of_turn(self.is_low, edge),
                        });
                    }
                    self.is_low = edge.low;
                    self.from = edge.at + 1;
                    Ok(EdgeLine::Edge(edge))
                }
                EdgeLine::End(t) => {
                    if self.from > t + 1 {
                        return Err(EdgeFault::Order {
                            line: number,
                            word: 0,
                        });
                    }
                    self.end(t)
                }
            },
        }
    }

    /// The next edge, or the end.
    ///
    /// # Errors
    ///
    /// The first line at fault. After the end there may be lines that are empty or begin with `#`.
    pub fn next(&mut self) -> Result<EdgeLine, EdgeFault>
        requires room { self.old.number + length self.old.rest.now < 18446744073709551615 }
        ensures { ReadsOn self.old result self.new }
    {
        while let Some((line, after)) = first_line(self.rest) {
            let number = self.number;
            self.rest = after;
            self.number += 1;
            if !is_skipped(line) {
                return self.take(number, line);
            }
        }
        Err(EdgeFault::Line {
            line: self.number,
            word: 0,
        })
    }
}
