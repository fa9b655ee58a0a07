//! Bits, and what they say.
ghost use Rattle.std.specs.Prelude.{◌≡◌, ◌≤◌, ◌<◌, ◌+◌, ◌*◌, ◌++◌, length, map, flat_map, IsTrue};
ghost use Rattle.arrayvec.specs.ArrayVec.{array_vec_len};
ghost use Rattle.meaning_words.specs.Notes.{own_line, row_in_code, is_set, set_words, spaced_words, set_lines, are_rows};

use crate::notes::{NOTE, Note, PAGE, Page, append_line, append_word};
use edid_base::append;

/// A bit by its weight, and what it says, in at most 38 characters.
#[derive(Clone, Copy)]
pub struct Bit {
    pub weight: u32,
    pub word: &'static str,
}

/// Rows of bits: a weight and a word each.
#[macro_export]
macro_rules! bit_rows {
    ($($weight:literal $word:literal;)*) => {
        &[$($crate::Bit {
            weight: $weight,
            word: $word,
        },)*]
    };
}

/// Whether a bit is set.
pub fn is_set(bits: u32, weight: u32) -> bool
    requires { 0 < weight }
    ensures { result ≡ is_set bits weight }
{
    bits / weight % 2 == 1
}

/// Appends the words of the bits that are set, in the order of the rows.
#[tactic(auto, unfolding(crate::specs::Notes::set_words))]
pub fn append_bits(note: &mut Note, rows: &[Bit], bits: u32)
    requires rows { IsTrue (are_rows rows.now) }
    requires room { array_vec_len note.old + 40 * length rows.now ≤ NOTE }
    ensures items { note.new.items ≡ note.old.items ++ set_words (map row_in_code rows.now) bits }
    ensures len { array_vec_len note.new ≤ array_vec_len note.old + 40 * length rows.now }
{
    if let [row, rest @ ..] = rows {
        if is_set(bits, row.weight) {
            append_word(note, row.word.as_bytes());
        }
        append_bits(note, rest, bits);
    }
}

/// Appends the words of the bits that are set, in the order of the rows, with a space after each.
#[tactic(auto, unfolding(crate::specs::Notes::spaced_words))]
pub fn append_spaced(note: &mut Note, rows: &[Bit], bits: u32)
    requires rows { IsTrue (are_rows rows.now) }
    requires room { array_vec_len note.old + 40 * length rows.now ≤ NOTE }
    ensures items { note.new.items ≡ note.old.items ++ spaced_words (map row_in_code rows.now) bits }
    ensures len { array_vec_len note.new ≤ array_vec_len note.old + 40 * length rows.now }
{
    if let [row, rest @ ..] = rows {
        if is_set(bits, row.weight) {
            append(note, row.word.as_bytes());
            append(note, b" ");
        }
        append_spaced(note, rest, bits);
    }
}

/// Appends a line for each bit that is set, in the order of the rows.
#[tactic(auto, unfolding(crate::specs::Notes::set_lines))]
pub fn append_bit_lines(page: &mut Page, rows: &[Bit], bits: u32)
    requires rows { IsTrue (are_rows rows.now) }
    requires room { array_vec_len page.old + 41 * length rows.now ≤ PAGE }
    ensures items { page.new.items ≡ page.old.items ++ flat_map own_line (set_lines (map row_in_code rows.now) bits) }
    ensures len { array_vec_len page.new ≤ array_vec_len page.old + 41 * length rows.now }
{
    if let [row, rest @ ..] = rows {
        if is_set(bits, row.weight) {
            append_line(page, row.word.as_bytes());
        }
        append_bit_lines(page, rest, bits);
    }
}
