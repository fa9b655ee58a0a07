//! A video data block in words.
ghost use Rattle.std.specs.Prelude.{◌≡◌, ◌+◌, ◌<◌, [], MatchResult, Ok, Err};
ghost use Rattle.std.specs.Option.{option_copied};
ghost use Rattle.text_core.specs.Words.{words_after};
ghost use Rattle.edid_spelling.specs.Video.{code_of, codes_of, is_marked, native_of, plain_of};

use arrayvec::ArrayVec;
use text_core::{before, byte_at, first_word, number_in};

/// The most bytes of a data block after its first.
const MOST: usize = 31;

// The byte of a code that is native.
fn native_of(code: Option<u64>) -> Option<u8>
    ensures { result ≡ native_of code }
{
    match code {
        Some(code) if 1 <= code && code <= 64 => Some(code as u8 + 128),
        _ => None,
    }
}

// The byte of a code that is not.
fn plain_of(code: Option<u64>) -> Option<u8>
    ensures { result ≡ plain_of code }
{
    match code {
        Some(code) if code <= 128 || (193 <= code && code <= 255) => Some(code as u8),
        _ => None,
    }
}

fn is_marked(word: &[u8]) -> bool
    ensures { result ≡ is_marked word.now }
{
    byte_at(word, word.len().saturating_sub(1)) == b'*'
}

// The byte that a word stands for.
fn code_of(word: &[u8]) -> Option<u8>
    ensures { result ≡ code_of word.now }
{
    if is_marked(word) {
        native_of(number_in(before(word, word.len().saturating_sub(1))))
    } else {
        plain_of(number_in(word))
    }
}

// The bytes of the words that are left, or the number of the word at fault.
#[tactic(auto, using(crate::proofs::VideoLemmas::all_words))]
pub(crate) fn codes_in(given: Option<&[u8]>) -> Result<ArrayVec<u8, 128>, usize>
    ensures { MatchResult result (λ p. codes_of (words_after (option_copied given.entry)) ≡ Ok p.items) (λ k. codes_of (words_after (option_copied given.entry)) ≡ Err k) }
{
    let mut payload = ArrayVec::new();
    let mut rest = given;
    'words: while let Some(text) = rest {
        let (word, more) = first_word(text);
        if payload.len() >= MOST {
            return Err(payload.len() + 1);
        }
        let Some(code) = code_of(word) else {
            return Err(payload.len() + 1);
        };
        payload.push(code);
        rest = more;
    }
    Ok(payload)
}
