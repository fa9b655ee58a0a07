//! The parts of an EDID: the lines of its text, each with its block, its number and of what kind it is.
ghost use Rattle.std.specs.Prelude.{◌≡◌, ◌≤◌, ◌<◌, ◌+◌, ◌^◌, IfSome, drop, length, slice_get};
ghost use Rattle.edid_difference.specs.Parts.{IsPlace, block_of, block_tag, bytes_tag, fields_tag, kind_in, part_of, place_after, rest_at, word_number};

use edid_base::Base;
use edid_cta::{BlockKind, Ext};
use edid_text_lines::{Fields, Keyword, Line};
use edid_texts::line_at;
use text_core::byte_at;

/// The numbers of words.
const WORDS: u64 = 32;

/// The tags of blocks: the identifiers of makers, of three bytes.
const TAGS: u64 = 16_777_216;

/// A line of an EDID's text.
#[derive(Drop)]
pub(crate) struct Part {
    /// Its block, from 0.
    pub block: u16,
    /// Its number in the text, from 1.
    pub number: u16,
    /// The same number where block, word and tag are the same.
    pub kind: u64,
    pub line: Line,
}

/// A place in an EDID's text: after so many lines, the last of which is of this block.
#[derive(Clone, Copy)]
pub(crate) struct Place {
    pub block: u16,
    pub number: u16,
}

fn word_number(word: Keyword) -> u8
    ensures number { result ≡ word_number word }
    ensures small { result < 32 }
{
    match word {
        Keyword::Edid => 0,
        Keyword::Maker => 1,
        Keyword::Product => 2,
        Keyword::Serial => 3,
        Keyword::Made => 4,
        Keyword::Input => 5,
        Keyword::Size => 6,
        Keyword::Gamma => 7,
        Keyword::Features => 8,
        Keyword::Chroma => 9,
        Keyword::Established => 10,
        Keyword::Standard => 11,
        Keyword::Timing => 12,
        Keyword::Name => 13,
        Keyword::Text => 14,
        Keyword::SerialText => 15,
        Keyword::Range => 16,
        Keyword::Dummy => 17,
        Keyword::Raw => 18,
        Keyword::Cta => 19,
        Keyword::CtaNone => 20,
        Keyword::Block(kind) => 21 + kind.number(),
        Keyword::Hdmi => 29,
        Keyword::Tail => 30,
        Keyword::Ext => 31,
    }
}

fn block_tag(kind: BlockKind, bytes: &[u8]) -> u32
    ensures tag { result ≡ block_tag kind bytes.now }
    ensures small { result < 2 ^ 24 }
{
    match kind {
        BlockKind::Vendor => {
            let (low, middle, high) = (byte_at(bytes, 0), byte_at(bytes, 1), byte_at(bytes, 2));
            65_536 * u32::from(high) + 256 * u32::from(middle) + u32::from(low)
        }
        BlockKind::Extended => u32::from(byte_at(bytes, 0)),
        BlockKind::Tag0
        | BlockKind::Audio
        | BlockKind::Video
        | BlockKind::Speakers
        | BlockKind::Tag5
        | BlockKind::Tag6 => 0,
    }
}

fn bytes_tag(word: Keyword, bytes: &[u8]) -> u32
    ensures tag { result ≡ bytes_tag word bytes.now }
    ensures small { result < 2 ^ 24 }
{
    match word {
        Keyword::Block(kind) => block_tag(kind, bytes),
        _ => 0,
    }
}

fn fields_tag(word: Keyword, fields: &Fields) -> u32
    ensures tag { result ≡ fields_tag word fields.now }
    ensures small { result < 2 ^ 24 }
{
    match fields {
        Fields::Bytes(bytes) => bytes_tag(word, bytes.as_slice()),
        _ => 0,
    }
}

// What kind of line it is, in a block.
fn kind_in(block: u16, line: &Line) -> u64
    ensures { result ≡ kind_in block line.now }
{
    let tag = u64::from(fields_tag(line.word, &line.fields));
    WORDS * (TAGS * u64::from(block) + tag) + u64::from(word_number(line.word))
}

fn part_of(block: u16, number: u16, line: Line) -> Part
    ensures { result ≡ part_of block number line }
{
    Part {
        block,
        number,
        kind: kind_in(block, &line),
        line,
    }
}

// The block of a line with this word, after a line of this block.
fn block_of(block: u16, word: Keyword) -> u16
    requires { block < 1000 }
    ensures block { result ≡ block_of block word }
    ensures next { result ≤ block + 1 }
{
    match word {
        Keyword::Cta | Keyword::CtaNone | Keyword::Ext => block + 1,
        _ => block,
    }
}

/// The next part after a place.
#[inline(never)]
pub(crate) fn part_at(base: &Base, extensions: &[Ext], place: Place) -> Option<Part>
    requires few { length extensions.now ≤ 3 }
    requires inside { IsPlace place }
    ensures first { slice_get (rest_at base.now extensions.now place) 0 ≡ result }
    ensures others { IfSome result (λ p. drop 1 (rest_at base.now extensions.now place) ≡ rest_at base.now extensions.now (place_after p)) }
    ensures inside { IfSome result (λ p. IsPlace (place_after p)) }
    ensures next { IfSome result (λ p. p.number ≡ place.number + 1) }
{
    let Some(line) = line_at(base, extensions, usize::from(place.number)) else {
        return None;
    };
    let block = block_of(place.block, line.word);
    Some(part_of(block, place.number + 1, line))
}

/// The place after a part.
pub(crate) fn place_after(part: &Part) -> Place
    ensures { result ≡ place_after part.now }
{
    Place {
        block: part.block,
        number: part.number,
    }
}
