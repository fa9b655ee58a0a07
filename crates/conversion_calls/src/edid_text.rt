//! EDIDs from bytes to text, and from text to bytes.
ghost use Rattle.std.specs.Prelude.{◌≡◌, ◌↔◌, false, IsTrue};
ghost use Rattle.conversion_calls.specs.EdidText.{FormAnswers, TextAnswers, is_hex_cut, is_text_cut};
ghost use Rattle.conversion_calls.specs.declared.form.EdidForm.{EdidForm};

use crate::form::{EdidForm, write_edid};
use arrayvec::ArrayVec;
use edid_core::{EdidError, read_parts};
use edid_texts::{TextError, parse_text, write_parts};
use std::alloc::Global;
use text_core::Sink;
use thiserror::Error;

/// Why an EDID's text is not written.
#[derive(Clone, Copy, Debug, Drop, Error, PartialEq, Eq)]
pub enum EdidToTextError {
    /// The bytes are no EDID. Nothing was written.
    #[error("edid: {0}")]
    Edid(EdidError),
    /// A `put` took none. So many bytes of the text were written.
    #[error("write fault after {0} bytes")]
    Write(u128),
}

/// Why the EDID that a text gives is not written.
#[derive(Clone, Copy, Debug, Drop, Error, PartialEq, Eq)]
pub enum TextToHexError {
    /// On this line, from 1, another line would have to stand. Nothing was written.
    #[error("text: syntax {0}")]
    Syntax(usize),
    /// A word of this line, from 1, is at fault, by its number from 0. Nothing was written.
    #[error("text: field {line}")]
    Field { line: usize, word: usize },
    /// A `put` took none. So many bytes were written.
    #[error("write fault after {0} bytes")]
    Write(u128),
    /// Nothing was written.
    #[error("no memory")]
    Memory,
}

impl From<EdidError> for EdidToTextError {
    ghost use Rattle.std.specs.Prelude.{◌≡◌};
    ghost use Rattle.conversion_calls.specs.declared.edid_text.EdidToTextError.{EdidToTextError};

    ghost from_gives = { λ cause e. e ≡ EdidToTextError.Edid cause };

    fn from(cause: EdidError) -> EdidToTextError {
        EdidToTextError::Edid(cause)
    }
}

impl From<TextError> for TextToHexError {
    ghost use Rattle.std.specs.Prelude.{◌≡◌};
    ghost use Rattle.conversion_calls.specs.EdidText.{text_reported};

    ghost from_gives = { λ t e. e ≡ text_reported t };

    fn from(error: TextError) -> TextToHexError {
        match error {
            TextError::Syntax(line) => TextToHexError::Syntax(line),
            TextError::Field { line, word } => TextToHexError::Field { line, word },
            TextError::Memory => TextToHexError::Memory,
        }
    }
}

/// Writes the text of the EDID that some bytes spell.
///
/// # Errors
///
/// `Edid` with the first reason why they spell none: then nothing was written. `Write` where the sink takes no more:
/// then the front of the text was written, as long as it reports.
// An EDID and its text are large: the frame of the caller is kept free of them.
#[inline(never)]
pub fn edid_to_text<S: Sink>(bytes: &[u8], out: &mut S) -> Result<(), EdidToTextError>
    ensures answers { TextAnswers (S.contents out.old) (S.contents out.new) (S.is_stuck out.old) (S.is_stuck out.new) bytes.now result }
    ensures write { S.is_stuck out.old ≡ false → (IsTrue (is_text_cut result) ↔ IsTrue (S.is_stuck out.new)) }
{
    // The parts stay where they are read, since an EDID is large.
    let mut extensions = ArrayVec::new();
    match &read_parts(bytes, &mut extensions) {
        Err(cause) => Err(EdidToTextError::Edid(*cause)),
        Ok(base) => match write_parts(base, &extensions, out) {
            Ok(()) => Ok(()),
            Err(fault) => Err(EdidToTextError::Write(fault.count)),
        },
    }
}

/// Writes the EDID that a text gives, in a form.
///
/// # Errors
///
/// `Syntax` or `Field` with the first line that no EDID's text has there, `Field` with its word at fault: then nothing was written. `Write` where the
/// sink takes no more: then the front of the EDID in that form was written, as long as it reports. Nothing takes memory
/// today, so `Memory` does not come.
// An EDID and its text are large: the frame of the caller is kept free of them.
#[inline(never)]
pub fn text_to_edid<S: Sink>(
    alloc: Global,
    text: &[u8],
    form: EdidForm,
    out: &mut S,
) -> Result<(), TextToHexError>
    ensures answers { FormAnswers form (S.contents out.old) (S.contents out.new) (S.is_stuck out.old) (S.is_stuck out.new) text.now result }
    ensures write { S.is_stuck out.old ≡ false → (IsTrue (is_hex_cut result) ↔ IsTrue (S.is_stuck out.new)) }
{
    let edid = parse_text(alloc, text)?;
    match write_edid(&edid, form, out) {
        Ok(()) => Ok(()),
        Err(fault) => Err(TextToHexError::Write(fault.count)),
    }
}

/// Writes the bytes of the EDID that a text gives, as one line of lower-case hex: `text_to_edid` with `EdidForm::Hex`.
///
/// # Errors
///
/// As of `text_to_edid`.
pub fn text_to_hex<S: Sink>(alloc: Global, text: &[u8], out: &mut S) -> Result<(), TextToHexError>
    ensures answers { FormAnswers EdidForm.Hex (S.contents out.old) (S.contents out.new) (S.is_stuck out.old) (S.is_stuck out.new) text.now result }
    ensures write { S.is_stuck out.old ≡ false → (IsTrue (is_hex_cut result) ↔ IsTrue (S.is_stuck out.new)) }
{
    text_to_edid(alloc, text, EdidForm::Hex, out)
}
