//! Words, what they stand for, and texts of several words.
ghost use Rattle.std.specs.Prelude.{◌≡◌, ◌+◌, ◌<◌, ◌∷◌, length, map};
ghost use Rattle.std.specs.Option.{option_copied};
ghost use Rattle.text_core.specs.Words.{words_after};
ghost use Rattle.edid_spelling.specs.Rows.{bits_of, first_of, others_of, parts_after, parts_of, row_in_code, stands_for};

use text_core::{after, before, first_word, len_before};

/// A word, and the number that it stands for.
#[derive(Clone, Copy)]
pub struct Named {
    pub word: &'static str,
    pub number: u32,
}

// Rows of a table: a word and a number each.
macro_rules! named_rows {
    ($($word:literal $number:literal;)*) => {
        &[$(Named {
            word: $word,
            number: $number,
        },)*]
    };
}

pub(crate) use named_rows;

// The next word, where one is left, and what stands after it.
pub(crate) fn next_word(rest: Option<&[u8]>) -> (&[u8], Option<&[u8]>)
    ensures word { result.0.now ≡ first_of (words_after (option_copied rest.entry)) }
    ensures rest { words_after (option_copied result.1) ≡ others_of (words_after (option_copied rest.entry)) }
{
    match rest {
        None => (&[], None),
        Some(text) => first_word(text),
    }
}

// What a word stands for.
pub(crate) fn stands_for(rows: &[Named], word: &[u8]) -> Option<u32>
    ensures { result ≡ stands_for (map row_in_code rows.now) word.now }
{
    match rows {
        [] => None,
        [row, rest @ ..] => {
            if word == row.word.as_bytes() {
                Some(row.number)
            } else {
                stands_for(rest, word)
            }
        }
    }
}

// The first part of a text, and what stands after the separator after it.
pub(crate) fn first_part(text: &[u8], separator: u8) -> (&[u8], Option<&[u8]>)
    ensures { parts_of separator text.now ≡ result.0.now ∷ parts_after separator (option_copied result.1) }
{
    let end = len_before(text, separator);
    if end < text.len() {
        (before(text, end), Some(after(text, end + 1)))
    } else {
        (text, None)
    }
}

// The bits of the parts that are left, in the order of the rows, or the number of the part at fault.
pub(crate) fn bits_in(
    rows: &[Named],
    separator: u8,
    number: usize,
    rest: Option<&[u8]>,
) -> Result<u32, usize>
    requires { number + length rows.now < 1000 }
    ensures { result ≡ bits_of (map row_in_code rows.now) number (parts_after separator (option_copied rest.entry)) }
{
    match rest {
        None => Ok(0),
        Some(text) => {
            let (word, more) = first_part(text, separator);
            match rows {
                [] => Err(number),
                [row, others @ ..] => {
                    if word == row.word.as_bytes() {
                        Ok(row.number | bits_in(others, separator, number + 1, more)?)
                    } else {
                        bits_in(others, separator, number, rest)
                    }
                }
            }
        }
    }
}
