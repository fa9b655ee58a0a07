//! Bytes as words of a line: signs stand between them, and each word spells one byte.
ghost use Rattle.std.specs.Prelude.{◌≡◌, ◌<◌, ◌≤◌, length, position, [], MatchOption, IfSome, IsSome, Some};
ghost use Rattle.std.specs.Option.{option_map};
ghost use Rattle.edid_dump.specs.Digits.{bytes_with_row};
ghost use Rattle.edid_dump.specs.Spelled.{byte_in, escape_of, is_end, is_sign, octet_of, pair_of, spelled, up_to, with_word, words_bytes};

use crate::digits::{digit, is_blank};
use arrayvec::ArrayVec;
use text_core::{before, number_in};

/// How a word spells a byte.
#[derive(Clone, Copy, Debug, PartialEq, Eq)]
pub enum Spelling {
    /// Two hex digits, with dashes between, as BitConverter of .NET prints them.
    Pair,
    /// A backslash, `x` and two hex digits, as strings of programs have them.
    Escape,
    /// A decimal number, with commas or blanks between, as JSON has them.
    Number,
}

/// The front of a text, up to a place where something else begins.
pub fn up_to(place: Option<usize>, text: &[u8]) -> &[u8]
    ensures { result.now ≡ up_to place text.now }
{
    match place {
        Some(place) => before(text, place),
        None => text,
    }
}

// Whether a byte may stand between the words, or around them.
fn is_sign(spelling: Spelling, byte: u8) -> bool
    ensures { result ≡ is_sign spelling byte }
{
    match spelling {
        Spelling::Pair => is_blank(byte) || byte == b'-',
        Spelling::Escape => {
            is_blank(byte) || byte == b'\\' || byte == b'"' || byte == b'\'' || byte == b','
        }
        Spelling::Number => is_blank(byte) || byte == b',',
    }
}

// Whether the words end before a byte, whatever follows it.
fn is_end(spelling: Spelling, byte: u8) -> bool
    ensures { result ≡ is_end spelling byte }
{
    match spelling {
        Spelling::Pair => byte == b'"',
        Spelling::Escape => byte == b';' || byte == b')' || byte == b'}',
        Spelling::Number => byte == b']' || byte == b'}' || byte == b')',
    }
}

fn pair_of(word: &[u8]) -> Option<u8>
    ensures { result ≡ pair_of word.now }
{
    let [high, low] = word else {
        return None;
    };
    if high.is_ascii_hexdigit() && low.is_ascii_hexdigit() {
        Some(digit(*high) * 16 + digit(*low))
    } else {
        None
    }
}

fn escape_of(word: &[u8]) -> Option<u8>
    ensures { result ≡ escape_of word.now }
{
    let [first, digits @ ..] = word else {
        return None;
    };
    if *first == b'x' {
        pair_of(digits)
    } else {
        None
    }
}

fn octet_of(number: Option<u64>) -> Option<u8>
    ensures { result ≡ octet_of number }
{
    match number {
        Some(number) => {
            if number <= 255 {
                Some(number as u8)
            } else {
                None
            }
        }
        None => None,
    }
}

// The byte that a word spells.
fn byte_in(spelling: Spelling, word: &[u8]) -> Option<u8>
    ensures { result ≡ byte_in spelling word.now }
{
    match spelling {
        Spelling::Pair => pair_of(word),
        Spelling::Escape => escape_of(word),
        Spelling::Number => octet_of(number_in(word)),
    }
}

// Where the first sign stands.
fn sign_in(spelling: Spelling, text: &[u8]) -> Option<usize>
    ensures { result ≡ position (is_sign spelling) text.now }
{
    text.iter().position(|b| is_sign(spelling, *b))
}

// Where the words end.
fn end_in(spelling: Spelling, text: &[u8]) -> Option<usize>
    ensures { result ≡ position (is_end spelling) text.now }
{
    text.iter().position(|b| is_end(spelling, *b))
}

// The first word, and the text after the sign after it. An empty text has none.
fn next_word(spelling: Spelling, text: &[u8]) -> Option<(&[u8], &[u8])>
    ensures words { MatchOption result (text.now ≡ [])
        (λ p. words_bytes spelling text.now ≡ with_word spelling p.0.now (words_bytes spelling p.1.now)) }
    ensures shorter { IfSome result (λ p. length p.1.now < length text.now) }
{
    if text.is_empty() {
        return None;
    }
    match sign_in(spelling, text) {
        None => Some((text, &[])),
        Some(end) => Some((&text[..end], &text[end + 1..])),
    }
}

// How many bytes the words of a text spell.
#[tactic(auto, using(crate::proofs::Wording::word_counted, crate::proofs::Wording::word_unknown, crate::proofs::Wording::word_empty, crate::proofs::Wording::words_over, crate::proofs::Pairing::counts_onto, crate::proofs::Pairing::counts_all))]
fn words_count(spelling: Spelling, text: &[u8]) -> Option<usize>
    ensures { result ≡ option_map length (words_bytes spelling text.now) }
{
    let mut count = 0;
    let mut rest = text;
    'words: while let Some((word, others)) = next_word(spelling, rest) {
        match byte_in(spelling, word) {
            Some(_byte) => count += 1,
            None => {
                if !word.is_empty() {
                    return None;
                }
            }
        }
        rest = others;
    }
    Some(count)
}

// Adds the bytes that the words of a text spell, as far as there is room.
#[tactic(auto, using(crate::proofs::Wording::word_counted, crate::proofs::Wording::word_skipped, crate::proofs::Wording::words_over, crate::proofs::Pairing::filled_onto, crate::proofs::Pairing::some_onto, crate::proofs::Pairing::filled_none))]
fn push_words(spelling: Spelling, text: &[u8], bytes: &mut ArrayVec<u8, 512>)
    requires { IsSome (words_bytes spelling text.now) }
    ensures { bytes_with_row bytes.old.items (words_bytes spelling text.now) ≡ Some bytes.new.items }
{
    let mut rest = text;
    'words: while !bytes.is_full() {
        let Some((word, others)) = next_word(spelling, rest) else {
            return;
        };
        match byte_in(spelling, word) {
            Some(byte) => bytes.push(byte),
            None => {}
        }
        rest = others;
    }
}

/// How many bytes a text spells in words, up to where they end.
pub fn spelled_count(spelling: Spelling, text: &[u8]) -> Option<usize>
    ensures { result ≡ option_map length (spelled spelling text.now) }
{
    words_count(spelling, up_to(end_in(spelling, text), text))
}

/// Adds the bytes that a text spells in words, as far as there is room.
pub fn push_spelled(spelling: Spelling, text: &[u8], bytes: &mut ArrayVec<u8, 512>)
    requires { IsSome (spelled spelling text.now) }
    ensures { bytes_with_row bytes.old.items (spelled spelling text.now) ≡ Some bytes.new.items }
{
    push_words(spelling, up_to(end_in(spelling, text), text), bytes);
}
