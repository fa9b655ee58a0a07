//! The bytes that an input gives, of which an EDID is read.
ghost use Rattle.std.specs.Prelude.{◌≡◌, IfErr, IfOk, false, true};
ghost use Rattle.conversion_fit.specs.Answers.{IsAnswer};
ghost use Rattle.edid_core.specs.Bytes.{edid_bytes};
ghost use Rattle.edid_core.specs.declared.edid.Edid.{Edid as EdidValue};
ghost use Rattle.edid_texts.specs.Lines.{edid_text};
ghost use Rattle.program_edids.specs.Edids.{IsFaultOf, IsRead, IsTextFault, display_half, kept_count, own_half};

use crate::edid_fault::EdidFault;
use cli_choice::Source;
use conversion_fit::merge_bytes;
use conversion_notes::plain_text;
use edid_as_source::first_count;
use edid_core::edid_to_bytes;
use edid_dump::nth_dump_bytes;
use edid_merge::Table;
use edid_spelling::{canonical_text, in_words};
use edid_texts::{TextError, parse_text};
use std::alloc::{AllocError, Global};
use text_core::byte_at;

/// Where a base block counts its extensions.
const COUNT: usize = 126;

/// The bytes of a block.
const BLOCK: usize = 128;

// The number of a line among all lines of a text, by its number among those that do not begin with a space.
fn line_among(text: &[u8], number: usize) -> usize {
    let mut left = number;
    let mut passed = 0usize;
    for line in text.split(|byte| *byte == b'\n') {
        if left == 0 {
            return passed;
        }
        passed = passed.saturating_add(1);
        if !line.starts_with(b" ") {
            left -= 1;
        }
    }
    passed.saturating_add(left)
}

// A fault of a text's plain lines, with the number that its line has among all.
fn among_all(text: &[u8], error: TextError) -> TextError {
    match error {
        TextError::Syntax(line) => TextError::Syntax(line_among(text, line)),
        TextError::Field { line, word } => TextError::Field {
            line: line_among(text, line),
            word,
        },
        TextError::Memory => TextError::Memory,
    }
}

// The bytes of the EDID of a dump with a number.
#[inline(never)]
fn given_of_dump(alloc: Global, nth: u64, text: &[u8]) -> Result<Vec<u8>, EdidFault>
    ensures { IfOk result (λ given. IsRead (Source.Dump nth) text.now given.items) }
{
    match nth_dump_bytes(text, nth) {
        Ok(bytes) => Ok(bytes.as_slice().to_vec(alloc)?),
        Err(error) => Err(EdidFault::Dump(error)),
    }
}

// The fault of a text that is no EDID's.
fn fault_of(error: TextError) -> EdidFault
    ensures { IsFaultOf error result }
{
    match error {
        TextError::Syntax(line) => EdidFault::Syntax(line),
        TextError::Field { line, word } => EdidFault::Field { line, word },
        TextError::Memory => EdidFault::Memory(AllocError),
    }
}

// The bytes of the EDID of a text. Each EDID has one text: a line more is at fault.
#[inline(never)]
fn given_of_text(alloc: Global, text: &[u8]) -> Result<Vec<u8>, EdidFault>
    ensures ok { IfOk result (λ given. IsRead Source.Text text.now given.items) }
    ensures refused { IfErr result (λ fault. IsTextFault text.now fault) }
{
    match &parse_text(alloc, text) {
        Err(error) => Err(fault_of(*error)),
        Ok(edid) => match edid_to_bytes(edid).as_slice().to_vec(alloc) {
            Ok(bytes) => Ok(bytes),
            Err(error) => Err(EdidFault::Memory(error)),
        },
    }
}

// The word at fault of a line that is in words.
fn word_in(line: &[u8]) -> Option<usize> {
    match &in_words(line) {
        Err(word) if *word > 0 => Some(*word),
        _ => None,
    }
}

// The word at fault of the line with this number, from 1, where it is in words.
fn word_of_line(text: &[u8], number: usize) -> Option<usize> {
    let mut passed = 0usize;
    for line in text.split(|byte| *byte == b'\n') {
        passed = passed.saturating_add(1);
        if passed == number {
            return word_in(line);
        }
    }
    None
}

// A fault of a text with payloads in hex, with the word at fault of the text in which they may stand in words.
fn in_words_of(plain: &[u8], error: TextError) -> TextError {
    match error {
        TextError::Field { line, word } => TextError::Field {
            line,
            word: word_of_line(plain, line).unwrap_or(word),
        },
        TextError::Syntax(_) | TextError::Memory => error,
    }
}

// The bytes of the EDID of a text's plain lines, of which this is the text with payloads in hex.
fn bytes_of_words(
    alloc: Global,
    text: &[u8],
    plain: &[u8],
    canonical: &[u8],
) -> Result<Vec<u8>, EdidFault>
    ensures { IfOk result (λ given. (e : EdidValue) × (edid_text e ≡ canonical.now) × (given.items ≡ edid_bytes e)) }
{
    match &parse_text(alloc, canonical) {
        Ok(edid) => Ok(edid_to_bytes(edid).as_slice().to_vec(alloc)?),
        Err(error) => Err(fault_of(among_all(text, in_words_of(plain, *error)))),
    }
}

// The bytes of the EDID of a text in which payloads may stand in words, and in which lines that begin with a space say what those
// above them mean.
#[inline(never)]
fn given_of_words(alloc: Global, text: &[u8]) -> Result<Vec<u8>, EdidFault>
    ensures { IfOk result (λ given. IsRead Source.Words text.now given.items) }
{
    let plain = plain_text(alloc, text)?;
    let canonical = canonical_text(alloc, plain.as_slice())?;
    bytes_of_words(alloc, text, plain.as_slice(), canonical.as_slice())
}

// The bytes of the EDID that a receiver answers with, of those of a display's and of its own.
fn merged(alloc: Global, table: Table, display: &[u8], own: &[u8]) -> Result<Vec<u8>, EdidFault>
    ensures { IfOk result (λ given. IsAnswer table display.now own.now given.items) }
{
    match merge_bytes(&table, display, own) {
        Ok(bytes) => Ok(bytes.as_slice().to_vec(alloc)?),
        Err(error) => Err(EdidFault::Merge(error)),
    }
}

// The bytes of the first dump of a text and of the second, which are a display's EDID and a receiver's.
#[inline(never)]
fn merged_dumps(alloc: Global, table: Table, text: &[u8]) -> Result<Vec<u8>, EdidFault>
    ensures { IfOk result (λ given. IsRead (Source.Pair true table) text.now given.items) }
{
    match nth_dump_bytes(text, 1) {
        Err(error) => Err(EdidFault::Dump(error)),
        Ok(display) => match nth_dump_bytes(text, 2) {
            Err(error) => Err(EdidFault::Dump(error)),
            Ok(own) => merged(alloc, table, display.as_slice(), own.as_slice()),
        },
    }
}

/// The bytes of a display's EDID, by its count of extensions, and those after it.
pub fn halves(input: &[u8]) -> (&[u8], &[u8])
    ensures display { result.0.now ≡ display_half input.now }
    ensures own { result.1.now ≡ own_half input.now }
{
    let end = BLOCK * usize::from(byte_at(input, COUNT)) + BLOCK;
    if end < input.len() {
        input.split_at(end)
    } else {
        (input, &[])
    }
}

// The bytes of a display's EDID and after them those of a receiver's.
#[inline(never)]
fn merged_halves(alloc: Global, table: Table, input: &[u8]) -> Result<Vec<u8>, EdidFault>
    ensures { IfOk result (λ given. IsRead (Source.Pair false table) input.now given.items) }
{
    let (display, own) = halves(input);
    merged(alloc, table, display, own)
}

// The bytes of the EDID that a receiver answers with, of two EDIDs.
fn given_of_pair(
    alloc: Global,
    dumps: bool,
    table: Table,
    input: &[u8],
) -> Result<Vec<u8>, EdidFault>
    ensures { IfOk result (λ given. IsRead (Source.Pair dumps table) input.now given.items) }
{
    if dumps {
        merged_dumps(alloc, table, input)
    } else {
        merged_halves(alloc, table, input)
    }
}

/// The bytes that an input gives.
pub fn given_of(alloc: Global, source: Source, input: &[u8]) -> Result<Vec<u8>, EdidFault>
    ensures { IfOk result (λ given. IsRead source input.now given.items) }
{
    match source {
        Source::Bytes => Ok(input.to_vec(alloc)?),
        Source::Dump { nth } => given_of_dump(alloc, nth, input),
        Source::Text => given_of_text(alloc, input),
        Source::Words => given_of_words(alloc, input),
        Source::Pair { dumps, table } => given_of_pair(alloc, dumps, table, input),
    }
}

/// The count that byte 126 keeps where the HDMI Forum's override counts the extensions.
pub fn kept_count(source: Source, given: &[u8]) -> u8
    ensures { result ≡ kept_count source given.now }
{
    match source {
        Source::Bytes | Source::Dump { .. } | Source::Pair { .. } => byte_at(given, COUNT),
        Source::Text | Source::Words => first_count(given),
    }
}
