//! Frames, frames to lay and lines of the texts of EDIDs, read again.
use crate::changed::{Changed, word_of};
use edid_spelling::canonical_text;
use edid_texts::{TextError, parse_text};
use explain_marks::is_line_end;
use message_lay::{LayError, lay_lines};
use message_text::{assemble, frame_word};
use record_core::Form;
use std::alloc::{AllocError, Global};
use text_core::Writes;

/// The word at which the text of a frame is refused.
pub fn of_frame(line: &[u8]) -> Option<usize> {
    match assemble(line) {
        Ok(_) => None,
        Err(cause) => Some(frame_word(cause)),
    }
}

/// The word at which a line with a frame to lay is refused.
pub fn of_laid(alloc: Global, changed: Changed<'_>) -> Result<Option<usize>, AllocError> {
    let text = changed.part(alloc)?;
    let mut room = [0u8; 1];
    // The pulls have no place to go: once all lines are read, nothing more is done.
    let mut out = Writes::new(room.as_mut_slice());
    match lay_lines(&text, Form::Text, &mut out) {
        Ok(()) | Err(LayError::Write(_)) => Ok(None),
        Err(LayError::Line(fault)) => Ok(word_of(changed.number_in_part(), fault.line, fault.word)),
    }
}

// ---- texts of EDIDs

/// Lines, and how many they are.
#[derive(Drop)]
struct KeptLines {
    text: Vec<u8>,
    count: usize,
}

// Those of so many lines that do not begin with a space, which are passed over where words are read.
fn kept_lines(alloc: Global, text: &[u8], lines: usize) -> Result<KeptLines, AllocError> {
    let mut kept = Vec::new(alloc);
    let mut count = 0usize;
    for line in text.split(is_line_end).take(lines) {
        if !line.starts_with(b" ") {
            kept.extend_from_slice(line)?;
            kept.push(b'\n')?;
            count = count.saturating_add(1);
        }
    }
    Ok(KeptLines { text: kept, count })
}

// The word of a text's line of this number at which it is refused.
fn of_lines(alloc: Global, text: &[u8], number: usize) -> Result<Option<usize>, AllocError> {
    match parse_text(alloc, text) {
        Ok(_) => Ok(None),
        Err(TextError::Syntax(line)) => Ok(word_of(number, line as u64, 0)),
        Err(TextError::Field { line, word }) => Ok(word_of(number, line as u64, word)),
        Err(TextError::Memory) => Err(AllocError),
    }
}

/// The word at which a line of an EDID's text is refused.
pub fn of_text(alloc: Global, changed: Changed<'_>) -> Result<Option<usize>, AllocError> {
    let text = changed.part(alloc)?;
    of_lines(alloc, &text, changed.number_in_part())
}

/// The same where payloads may stand in words.
pub fn of_words(alloc: Global, changed: Changed<'_>) -> Result<Option<usize>, AllocError> {
    let text = changed.part(alloc)?;
    let kept = kept_lines(alloc, &text, changed.number_in_part())?;
    let canonical = canonical_text(alloc, &kept.text)?;
    of_lines(alloc, &canonical, kept.count)
}
