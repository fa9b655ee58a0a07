//! Values that stand in no choice: the name of a wire, and an InfoFrame.
ghost use Rattle.std.specs.Prelude.{◌≡◌, map, string_bytes, Some, None, MatchOption};
ghost use Rattle.cli_words.specs.Named.{is_naming, joined_name, named_in};

use text_core::{after, before};

/// What a word begins with that has the name of a wire after it.
const SIGNAL: &[u8] = b"--signal=";

/// The same of an InfoFrame.
const INFOFRAME: &[u8] = b"--infoframe=";

// Whether such a value follows a word.
fn is_naming(word: &str) -> bool
    ensures { result ≡ is_naming word.now }
{
    word == "--signal" || word == "--infoframe"
}

// Such a value that stands in its flag's word, as `--signal=NAME`.
fn joined_name(word: &[u8]) -> Option<&[u8]>
    ensures { MatchOption result (joined_name word.now ≡ None) (λ name. joined_name word.now ≡ Some name.now) }
{
    if before(word, 9) == SIGNAL {
        Some(after(word, 9))
    } else if before(word, 12) == INFOFRAME {
        Some(after(word, 12))
    } else {
        None
    }
}

/// The name of a wire, or an InfoFrame in hex: what stands after the first `--signal` or `--infoframe`, as a word of its own or in the
/// same word.
pub fn named_in(words: &[String]) -> Option<&[u8]>
    ensures { MatchOption result (named_in (map string_bytes words.now) ≡ None) (λ name. named_in (map string_bytes words.now) ≡ Some name.now) }
{
    match words {
        [] => None,
        [word, name, ..] if is_naming(word.as_str()) => Some(name.as_bytes()),
        [word, rest @ ..] => match joined_name(word.as_bytes()) {
            Some(name) => Some(name),
            None => named_in(rest),
        },
    }
}
