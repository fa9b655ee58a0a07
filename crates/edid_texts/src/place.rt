//! The places of lines.
ghost use Rattle.std.specs.Prelude.{◌≡◌};
ghost use Rattle.edid_texts.specs.Words.{in_base, at_ext, is_tail_word, in_timings, in_blocks, may_begin, has_words};

use edid_text_lines::{Keyword, LineContent};

/// What may stand next.
#[derive(Clone, Copy, Debug, PartialEq, Eq)]
pub enum NextLine {
    /// The line of a base block with this number, from 0 to 22.
    InBase(usize),
    /// The first line of an extension.
    AtExt,
    /// A data block, a timing or the tail: so many bytes are left.
    InBlocks(usize),
    /// A timing or the tail: so many bytes are left.
    InTimings(usize),
    /// The tail of an extension that has nothing else.
    AtTail,
    /// Nothing.
    AtEnd,
}

/// Whether a line of a base block begins with this word.
fn in_base(number: usize, word: Keyword) -> bool
    ensures { result ≡ in_base number word }
{
    match word {
        Keyword::Edid => number == 0,
        Keyword::Maker => number == 1,
        Keyword::Product => number == 2,
        Keyword::Serial => number == 3,
        Keyword::Made => number == 4,
        Keyword::Input => number == 5,
        Keyword::Size => number == 6,
        Keyword::Gamma => number == 7,
        Keyword::Features => number == 8,
        Keyword::Chroma => number == 9,
        Keyword::Established => number == 10,
        Keyword::Standard => 11 <= number && number < 19,
        Keyword::Timing => 19 <= number,
        Keyword::Name => 19 <= number,
        Keyword::Text => 19 <= number,
        Keyword::SerialText => 19 <= number,
        Keyword::Range => 19 <= number,
        Keyword::Dummy => 19 <= number,
        Keyword::Raw => 19 <= number,
        _ => false,
    }
}

/// Whether the first line of an extension begins with this word.
fn at_ext(word: Keyword) -> bool
    ensures { result ≡ at_ext word }
{
    matches!(word, Keyword::Cta | Keyword::CtaNone | Keyword::Ext)
}

fn is_tail_word(word: Keyword) -> bool
    ensures { result ≡ is_tail_word word }
{
    matches!(word, Keyword::Tail)
}

/// Whether a timing or the tail begins with this word, where so many bytes are left.
fn in_timings(left: usize, word: Keyword) -> bool
    ensures { result ≡ in_timings left word }
{
    match word {
        Keyword::Timing => 18 <= left,
        _ => is_tail_word(word),
    }
}

/// Whether a data block, a timing or the tail begins with this word.
fn in_blocks(left: usize, word: Keyword) -> bool
    ensures { result ≡ in_blocks left word }
{
    match word {
        Keyword::Block(_) => 1 <= left,
        Keyword::Hdmi => 6 <= left,
        _ => in_timings(left, word),
    }
}

/// Whether some line that begins with this word may stand here.
pub fn may_begin(place: NextLine, word: Keyword) -> bool
    ensures { result ≡ may_begin place word }
{
    match place {
        NextLine::InBase(number) => in_base(number, word),
        NextLine::AtExt => at_ext(word),
        NextLine::InBlocks(left) => in_blocks(left, word),
        NextLine::InTimings(left) => in_timings(left, word),
        NextLine::AtTail => is_tail_word(word),
        NextLine::AtEnd => false,
    }
}

/// Whether some line of a form has so many words.
pub fn has_words(form: LineContent, count: usize) -> bool
    ensures { result ≡ has_words form count }
{
    match form {
        LineContent::Empty => count == 1,
        LineContent::Three => count == 2,
        LineContent::One => count == 2,
        LineContent::Two => count == 3,
        LineContent::Eight => count == 9,
        LineContent::Unused => count == 2 || count == 4,
        LineContent::Timing => count == 15,
        LineContent::Hex => count == 2,
        LineContent::Address => count == 3,
        LineContent::Quoted => count == 2,
    }
}
