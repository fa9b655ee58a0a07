//! Words of a line.
ghost use Rattle.std.specs.Prelude.{◌≡◌, ◌≤◌, ◌==◌, ◌∷◌, length};
ghost use Rattle.std.specs.List.{count_by};
ghost use Rattle.std.specs.Option.{option_map, option_copied};
ghost use Rattle.text_core.specs.Words.{words_of, words_after, one_of, two_of, three_of, spaces_unquoted};

use crate::parts::{before, len_before, position_of};

/// The first word of a line, and what stands after the space after it.
pub fn first_word(line: &[u8]) -> (&[u8], Option<&[u8]>)
    ensures { words_of line.now ≡ result.0.now ∷ words_after (option_copied result.1) }
{
    match position_of(line, b' ') {
        None => (line, None),
        Some(end) => (&line[..end], Some(&line[end + 1..])),
    }
}

/// The word, where just one is left.
pub fn one_word(rest: Option<&[u8]>) -> Option<&[u8]>
    ensures { option_copied result ≡ one_of (words_after (option_copied rest.entry)) }
{
    match first_word(rest?) {
        (word, None) => Some(word),
        (_, Some(_)) => None,
    }
}

/// The words, where just two are left.
pub fn two_words(rest: Option<&[u8]>) -> Option<(&[u8], &[u8])>
    ensures { option_map (λ w. (w.0.now, w.1.now)) result ≡ two_of (words_after (option_copied rest.entry)) }
{
    let (first, rest) = first_word(rest?);
    match first_word(rest?) {
        (second, None) => Some((first, second)),
        (_, Some(_)) => None,
    }
}

/// The words, where just three are left.
pub fn three_words(rest: Option<&[u8]>) -> Option<(&[u8], &[u8], &[u8])>
    ensures { option_map (λ w. (w.0.now, w.1.now, w.2.now)) result ≡ three_of (words_after (option_copied rest.entry)) }
{
    let (first, rest) = first_word(rest?);
    let (second, rest) = first_word(rest?);
    match first_word(rest?) {
        (third, None) => Some((first, second, third)),
        (_, Some(_)) => None,
    }
}

fn spaces(text: &[u8]) -> usize
    ensures count { result ≡ count_by (λ b. b == 32) text.now }
    ensures most { result ≤ length text.now }
{
    text.iter().filter(|byte| **byte == b' ').count()
}

/// How many spaces stand before the first quote. A quote and all after it belong to one word.
pub fn spaces_unquoted(text: &[u8]) -> usize
    ensures count { result ≡ spaces_unquoted text.now }
    ensures most { result ≤ length text.now }
{
    spaces(before(text, len_before(text, b'"')))
}
