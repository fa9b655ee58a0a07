//! A line with another text in the place of some of its words, and the lines around it.
use crate::spot::Spot;
use explain_lists::{Gaps, span_of};
use explain_marks::{InputLine, length_of_lines};
use std::alloc::{AllocError, Global};

/// What a line would be, with the lines above it, each with its end.
#[derive(Clone, Copy)]
pub struct Changed<'a> {
    pub place: InputLine<'a>,
    pub above: &'a [u8],
    pub line: &'a [u8],
}

// A line without the carriage return at its end.
fn without_return(line: &[u8]) -> &[u8] {
    line.strip_suffix(b"\r").unwrap_or(line)
}

/// A line with a text in the place of words that begin at a place of it; None where no such words begin there.
pub fn changed_line(
    alloc: Global,
    spot: Spot<'_>,
    words: &str,
    text: &str,
) -> Result<Option<Vec<u8>>, AllocError> {
    let line = without_return(spot.at.place.line);
    let first = spot.word.saturating_add(spot.at.labels);
    let Some(span) = span_of(line, Gaps::Spaces, first, first) else {
        return Ok(None);
    };
    let begin = span.begin.min(line.len());
    let end = begin.saturating_add(words.len()).min(line.len());
    let mut changed = line.get(..begin).unwrap_or(line).to_vec(alloc)?;
    changed.extend_from_slice(text.as_bytes())?;
    changed.extend_from_slice(line.get(end..).unwrap_or(&[]))?;
    Ok(Some(changed))
}

impl<'a> Changed<'a> {
    /// A line in the place of another one, below the lines above that.
    pub fn new(place: InputLine<'a>, line: &'a [u8]) -> Changed<'a> {
        let length = length_of_lines(place.input, place.number.saturating_sub(1));
        let above = place.input.get(..length).unwrap_or(place.input);
        Changed { place, above, line }
    }

    /// The lines of the input that stand before the line which parts it: the topology.
    pub fn topology(self) -> &'a [u8] {
        let length = length_of_lines(self.above, self.place.before.saturating_sub(1));
        self.above.get(..length).unwrap_or(self.above)
    }

    /// The lines above in the part of the line.
    pub fn above_in_part(self) -> &'a [u8] {
        let length = length_of_lines(self.above, self.place.before);
        self.above.get(length..).unwrap_or(&[])
    }

    /// The number of the line in its part, from 1.
    pub fn number_in_part(self) -> usize {
        self.place.number.saturating_sub(self.place.before)
    }

    /// The part of the line up to it.
    pub fn part(self, alloc: Global) -> Result<Vec<u8>, AllocError> {
        with_line(alloc, self.above_in_part(), self.line)
    }
}

/// Some lines, and one more below them.
pub fn with_line(alloc: Global, above: &[u8], line: &[u8]) -> Result<Vec<u8>, AllocError> {
    let mut text = above.to_vec(alloc)?;
    text.extend_from_slice(line)?;
    text.push(b'\n')?;
    Ok(text)
}

/// The word of a line, the one of this number, at which a text is refused that ends with it: None where only what is missing below it
/// is refused, the first word where a line above is.
pub fn word_of(number: usize, line: u64, word: usize) -> Option<usize> {
    let line = usize::try_from(line).unwrap_or(usize::MAX);
    if line > number {
        None
    } else if line == number {
        Some(word)
    } else {
        Some(0)
    }
}
