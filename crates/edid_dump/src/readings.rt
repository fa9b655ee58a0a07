//! How the bytes of a row stand in its text.
ghost use Rattle.std.specs.Prelude.{◌≡◌, ◌==◌, not, length, position, IsSome, Some};
ghost use Rattle.std.specs.Option.{option_map};
ghost use Rattle.std.specs.Char.{is_ascii_hexdigit};
ghost use Rattle.edid_dump.specs.Digits.{bytes_with_row};
ghost use Rattle.edid_dump.specs.Readings.{is_other, read_by, shown};

use crate::digits::{Column, pair_count, push_pairs};
use crate::lists::{code_count, push_code};
use crate::records::{push_record, record_count};
use crate::spelled::{Spelling, push_spelled, spelled_count, up_to};
use arrayvec::ArrayVec;
use text_core::before;

/// Where pairs of digits end that other text follows.
#[derive(Clone, Copy, Debug, PartialEq, Eq)]
pub enum Ending {
    /// After sixteen pairs one blank apart.
    Sixteen,
    /// At a tag of XML.
    Tag,
    /// At what is no hex digit.
    Other,
}

/// How the bytes of a row stand in its text, from where its digits begin.
#[derive(Clone, Copy, Debug, PartialEq, Eq)]
pub enum Reading {
    /// Pairs of digits with blanks between, up to a column of characters.
    InPairs(Column),
    /// Pairs of digits, up to other text.
    UpTo(Ending),
    /// A list as programs and registries have it, perhaps with a remark.
    InCode,
    /// Words of which each spells a byte.
    InWords(Spelling),
    /// A record of Intel HEX.
    InRecord,
}

// Whether a byte is no hex digit.
fn is_other(byte: u8) -> bool
    ensures { result ≡ is_other byte }
{
    !byte.is_ascii_hexdigit()
}

fn other_in(text: &[u8]) -> Option<usize>
    ensures { result ≡ position is_other text.now }
{
    text.iter().position(|b| is_other(*b))
}

fn tag_in(text: &[u8]) -> Option<usize>
    ensures { result ≡ position (λ b. b == 60) text.now }
{
    text.iter().position(|b| *b == b'<')
}

// The pairs of a text before their end.
fn shown(ending: Ending, text: &[u8]) -> &[u8]
    ensures { result.now ≡ shown ending text.now }
{
    match ending {
        Ending::Sixteen => before(text, 47),
        Ending::Tag => up_to(tag_in(text), text),
        Ending::Other => up_to(other_in(text), text),
    }
}

/// How many bytes a text has in this reading, where it has nothing else.
pub fn count_by(reading: Reading, text: &[u8]) -> Option<usize>
    ensures { result ≡ option_map length (read_by reading text.now) }
{
    match reading {
        Reading::InPairs(column) => pair_count(column, text),
        Reading::UpTo(ending) => pair_count(Column::Absent, shown(ending, text)),
        Reading::InCode => code_count(text),
        Reading::InWords(spelling) => spelled_count(spelling, text),
        Reading::InRecord => record_count(text),
    }
}

/// Adds the bytes that a text has in this reading, as far as there is room.
pub fn push_by(reading: Reading, text: &[u8], bytes: &mut ArrayVec<u8, 512>)
    requires { IsSome (read_by reading text.now) }
    ensures { bytes_with_row bytes.old.items (read_by reading text.now) ≡ Some bytes.new.items }
{
    match reading {
        Reading::InPairs(column) => push_pairs(column, text, bytes),
        Reading::UpTo(ending) => push_pairs(Column::Absent, shown(ending, text), bytes),
        Reading::InCode => push_code(text, bytes),
        Reading::InWords(spelling) => push_spelled(spelling, text, bytes),
        Reading::InRecord => push_record(text, bytes),
    }
}
