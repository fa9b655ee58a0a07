//! The dump of an EDID in a text.
ghost use Rattle.std.specs.Prelude.{◌≡◌, ℕ, ◌+◌, ◌^◌, ◌<◌, ◌≤◌, length, Bool, List, [], MatchOption, true, false, Result, Ok, Err, IfSome, is_some};
ghost use Rattle.text_core.specs.Lines.{lines_of};
ghost use Rattle.edid_dump.specs.Dump.{Gives, edid_in_dump, dump_at_end, bytes_of_rows, has_dump, left_out, ordered, with_repeats, after_line, with_line, with_row};
ghost use Rattle.edid_dump.specs.Rows.{in_order, row};
ghost use Rattle.edid_dump.specs.declared.dump.DumpError.{DumpError as Refusal};
ghost use Rattle.edid_dump.specs.declared.dump.DumpError.TheVariants.{NoDump};

use crate::lists::swapped;
use crate::rows::{DumpForm, form_of, is_repeat, next_form, place_of, push_row, row_count};
use arrayvec::ArrayVec;
use text_core::{byte_at, first_line};
use thiserror::Error;

/// Why a text has no dump of an EDID. Lines are counted from 1.
#[derive(Clone, Copy, Debug, Drop, Error, PartialEq, Eq)]
pub enum DumpError {
    /// The bytes of no line begin with the header of an EDID.
    #[error("none")]
    NoDump,
    /// The dump ends before this line, and not at the end of a block of 128 bytes.
    #[error("cut {0}")]
    Cut(u64),
    /// With this line the dump has more than 512 bytes.
    #[error("long {0}")]
    Long(u64),
}

/// The most bytes of an EDID here: four blocks of 128 bytes.
const MOST: usize = 512;

/// The bytes of a block.
const BLOCK: usize = 128;

// What a line is to a dump.
enum Taken {
    // A row, or one for rows that it repeats.
    Row,
    // A row that has too many bytes.
    TooLong,
    // No row.
    Other,
}

// How many bytes were left out before a row.
fn left_out(form: DumpForm, skips: bool, bytes: &[u8], line: &[u8]) -> usize
    ensures value { result ≡ left_out form skips bytes.now line.now }
    ensures small { result < 4294967296 }
{
    if skips {
        (place_of(form, line) as usize).saturating_sub(bytes.len())
    } else {
        0
    }
}

// Adds bytes, each that of the row of sixteen above.
#[tactic(auto, using(crate::proofs::Gathering::repeated_more))]
fn push_repeated(count: usize, bytes: &mut ArrayVec<u8, MOST>)
    requires { length bytes.old.items + count ≤ 512 }
    ensures { bytes.new.items ≡ with_repeats count bytes.old.items }
{
    let mut left = count;
    'bytes: while left > 0 {
        let above = byte_at(bytes, bytes.len().saturating_sub(16));
        bytes.push(above);
        left -= 1;
    }
}

// Adds the bytes of a line, where it is a row that has room.
fn take_row(form: DumpForm, line: &[u8], skips: bool, bytes: &mut ArrayVec<u8, MOST>) -> Taken
    ensures { (number : ℕ) (more : List ℕ → Result (List ℕ) Refusal) → with_row form number skips bytes.old.items line.now (row form line.now) more ≡ after_line number result skips bytes.new.items (λ _ now. more now) }
{
    let Some(count) = row_count(form, line) else {
        return Taken::Other;
    };
    let above = left_out(form, skips, bytes, line);
    if bytes.len().saturating_add(above).saturating_add(count) > MOST {
        return Taken::TooLong;
    }
    push_repeated(above, bytes);
    push_row(form, line, bytes);
    Taken::Row
}

// Takes a line of a dump.
fn take_line(form: DumpForm, line: &[u8], skips: &mut bool, bytes: &mut ArrayVec<u8, MOST>) -> Taken
    ensures { (number : ℕ) (more : Bool → List ℕ → Result (List ℕ) Refusal) → with_line form number skips.old bytes.old.items line.now more ≡ after_line number result skips.new bytes.new.items more }
{
    if is_repeat(form, line) {
        *skips = true;
        return Taken::Row;
    }
    match take_row(form, line, *skips, bytes) {
        Taken::Row => {
            *skips = false;
            Taken::Row
        }
        Taken::TooLong => Taken::TooLong,
        Taken::Other => Taken::Other,
    }
}

// The bytes of a dump that ends before a line.
fn end(number: u64, skips: bool, bytes: ArrayVec<u8, MOST>) -> Result<ArrayVec<u8, MOST>, DumpError>
    ensures { Gives result (dump_at_end number skips bytes.items) }
{
    if !skips && bytes.len() % BLOCK == 0 {
        Ok(bytes)
    } else {
        Err(DumpError::Cut(number))
    }
}

// The bytes of the dump whose first row begins a text.
fn gather(form: DumpForm, first: u64, text: &[u8]) -> Result<ArrayVec<u8, MOST>, DumpError>
    requires { first + length text.now < 2 ^ 64 }
    ensures { Gives result (bytes_of_rows form first false [] (lines_of text.now)) }
{
    let mut bytes = ArrayVec::new();
    let mut skips = false;
    let mut number = first;
    let mut row_form = form;
    let mut rest = text;
    'lines: while let Some((line, after)) = first_line(rest) {
        match take_line(row_form, line, &mut skips, &mut bytes) {
            Taken::Row => {}
            Taken::TooLong => return Err(DumpError::Long(number)),
            Taken::Other => return end(number, skips, bytes),
        }
        number += 1;
        row_form = next_form(row_form);
        rest = after;
    }
    end(number, skips, bytes)
}

// The bytes of words swapped back.
fn in_order(form: DumpForm, bytes: ArrayVec<u8, MOST>) -> ArrayVec<u8, MOST>
    ensures { result.items ≡ in_order form bytes.items }
{
    if form == DumpForm::Words {
        swapped(&bytes)
    } else {
        bytes
    }
}

// The bytes of the dump, in their order.
fn gather_in_order(form: DumpForm, first: u64, text: &[u8]) -> Result<ArrayVec<u8, MOST>, DumpError>
    requires { first + length text.now < 2 ^ 64 }
    ensures { Gives result (ordered form (bytes_of_rows form first false [] (lines_of text.now))) }
{
    match gather(form, first, text) {
        Ok(bytes) => Ok(in_order(form, bytes)),
        Err(error) => Err(error),
    }
}

// The first line that an EDID begins with: its form, its number, and the text from it on.
fn find(text: &[u8]) -> Option<(DumpForm, u64, &[u8])>
    ensures found { MatchOption result (edid_in_dump text.now ≡ Err NoDump) (λ s. edid_in_dump text.now ≡ ordered s.0 (bytes_of_rows s.0 s.1 false [] (lines_of s.2.now))) }
    ensures room { IfSome result (λ s. s.1 + length s.2.now < 2 ^ 64) }
    ensures some { is_some result ≡ has_dump text.now }
{
    let mut number = 1;
    let mut rest = text;
    'lines: while let Some((line, after)) = first_line(rest) {
        if let Some(form) = form_of(line) {
            return Some((form, number, rest));
        }
        number += 1;
        rest = after;
    }
    None
}

/// The bytes of the EDID whose hex dump stands in a text. The dump begins at the first line whose bytes begin with the
/// header 00 FF FF FF FF FF FF 00, and goes on as far as the lines are rows of the same form: digits and blanks alone; an
/// offset with a colon, as `xxd` and `i2cdump` print it; an offset and bars, as `hexdump -C` prints them, an offset and
/// digits, as `od` does, or an offset and words, as `hexdump` does, where `*` stands for rows that repeat the one above; lines
/// of a log that end in sixteen bytes; a list of bytes, with `0x` or without, and commas, colons and blanks between, which
/// may begin after `<`, `{` or `hex:`, and have a remark at a line's end; digits between tags; an offset and sixteen bytes, as
/// Format-Hex prints them; records of Intel HEX; pairs with dashes between, escapes or decimal numbers, which may begin within
/// the first line; or one word of digits with whole blocks. Whether the bytes are those of an EDID is not asked.
///
/// # Errors
///
/// `NoDump` where no line begins an EDID; `Long` with the first line that has bytes past the 512 of four blocks; `Cut` with the
/// line, or that after the last, before which the dump ends within a block or just after `*`.
#[inline(never)]
pub fn dump_bytes(text: &[u8]) -> Result<ArrayVec<u8, MOST>, DumpError>
    ensures { Gives result (edid_in_dump text.now) }
{
    match find(text) {
        None => Err(DumpError::NoDump),
        Some((form, number, rest)) => gather_in_order(form, number, rest),
    }
}

/// Whether the hex dump of an EDID begins on some line of a text.
pub fn looks_like_dump(text: &[u8]) -> bool
    ensures { result ≡ has_dump text.now }
{
    find(text).is_some()
}
