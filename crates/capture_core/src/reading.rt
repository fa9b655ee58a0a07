//! From a text of any form to the edges of a line.
ghost use Rattle.std.specs.Prelude.{◌≡◌, ◌∷◌, ◌++◌, ◌+◌, ◌≤◌, false, length, position, IfOk};
ghost use Rattle.std.specs.Option.{option_copied, option_to_list};
ghost use Rattle.text_core.specs.Lines.{lines_of};
ghost use Rattle.std.specs.List.{slice_split};
ghost use Rattle.capture_core.specs.Reading.{Form, GivesEdges, PassesLine, Takes, left_length, line_read, lines_read, words_left};

use crate::fault::{CaptureError, Cause};
use crate::track::Track;
use line_wave::Edge;
use std::alloc::{AllocError, Global};
use text_core::{AtWord, at_word, first_line};

/// A reader of the words of a form, in order.
pub trait TakesWords<'a> {
    /// What it knows of the text so far.
    ghost State: { Type 0 };

    /// That of a reader.
    ghost state: { Self → State };

    /// The form.
    ghost form: { Form State };

    /// Where the first gap between words of a line stands.
    fn gap_in(line: &[u8]) -> Option<usize>
        ensures { result ≡ position form.is_gap line.now };

    /// Takes the next word, which has this number in its line, and returns the edge that is known by it.
    fn take(&mut self, number: usize, word: &'a [u8]) -> Result<Option<Edge>, AtWord<Cause>>
        ensures { Takes (form.took number word.now (state self.old)) result (state self.new) };

    /// Where it stands on the line of the bus.
    fn track(&self) -> Track
        ensures { result ≡ form.track (state self.now) };

    /// The last instant, where the text may end here.
    fn end(&self) -> Result<u64, Cause>
        ensures { result ≡ form.ended (state self.now) };
}

/// Where the first gap stands in a form that takes each line as one word.
#[tactic(auto, using(crate::proofs::Passing::gaps_none))]
pub fn no_gap(_line: &[u8]) -> Option<usize>
    ensures { result ≡ position (λ byte. false) _line.now }
{
    None
}

// The first word of a line, and what stands after the gap after it.
fn first_word<'a, R: TakesWords<'a>>(line: &'a [u8]) -> (&'a [u8], Option<&'a [u8]>)
    ensures words { slice_split R.form.is_gap line.now ≡ result.0.now ∷ words_left R.form (option_copied result.1) }
    ensures shorter { left_length (option_copied result.1) ≤ length line.now }
{
    match R::gap_in(line) {
        None => (line, None),
        Some(end) => (&line[..end], Some(&line[end + 1..])),
    }
}

// Adds an edge, where there is one.
fn add(edges: &mut Vec<Edge>, edge: Option<Edge>) -> Result<(), AllocError>
    ensures { IfOk result (λ _. edges.new.items ≡ edges.old.items ++ option_to_list edge) }
{
    if let Some(edge) = edge {
        edges.push(edge)?;
    }
    Ok(())
}

// Takes the words of a line.
#[tactic(auto, using(crate::proofs::Passing::onto_none, crate::proofs::Passing::words_over))]
fn read_line<'a, R: TakesWords<'a>>(
    reader: &mut R,
    edges: &mut Vec<Edge>,
    line_number: u64,
    line: &'a [u8],
) -> Result<(), CaptureError>
    ensures { PassesLine (line_read R.form line_number line.now (R.state reader.old)) edges.old.items result edges.new.items (R.state reader.new) }
{
    let mut left = Some(line);
    let mut number = 0;
    'words: while let Some(words) = left {
        let (word, more) = first_word::<R>(words);
        match reader.take(number, word) {
            Err(slip) => return Err(CaptureError::Fault(slip.on_line(line_number))),
            Ok(edge) => add(edges, edge)?,
        }
        left = more;
        number += 1;
    }
    Ok(())
}

/// Reads the lines of a text, of which the first has this number: the edges, and the end.
///
/// # Errors
///
/// The first line at fault, or no memory.
#[tactic(auto, using(crate::proofs::Passing::with_none, crate::proofs::Passing::text_over, crate::proofs::Passing::text_open))]
pub fn read_lines<'a, R: TakesWords<'a>>(
    alloc: Global,
    reader: &mut R,
    first: u32,
    text: &'a [u8],
) -> Result<(Vec<Edge>, u64), CaptureError>
    ensures { GivesEdges result (lines_read R.form first (lines_of text.now) (R.state reader.old)) }
{
    let mut edges = Vec::new(alloc);
    let mut number = u64::from(first);
    let mut rest = text;
    'lines: while let Some((line, after)) = first_line(rest) {
        read_line(reader, &mut edges, number, line)?;
        rest = after;
        number += 1;
    }
    match reader.end() {
        Err(cause) => Err(CaptureError::Fault(at_word(0, cause).on_line(number))),
        Ok(end) => {
            add(&mut edges, reader.track().last())?;
            Ok((edges, end))
        }
    }
}
