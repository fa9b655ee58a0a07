//! Words that are spelled otherwise elsewhere: between marks, in capitals, after a name and `=`, or in hex.
use crate::near::add_suggestion;
use explain_again::Spot;
use explain_lists::Draft;
use std::alloc::{AllocError, Global};

// Whether a character stands around words elsewhere.
fn is_around(character: char) -> bool {
    matches!(
        character,
        '"' | '\'' | '(' | ')' | '[' | ']' | '{' | '}' | '<' | '>' | ',' | ';' | ':'
    )
}

/// A word without what stands around it elsewhere, as quotes, brackets and commas.
pub fn bare(word: &str) -> &str {
    word.trim_matches(|character: char| is_around(character))
}

// Suggests a text in the place of words, unless it is the same or has no characters. Returns whether it is taken.
fn add_other_spelling(draft: &mut Draft, spot: Spot<'_>, text: &str, words: &str) -> bool {
    text != words && !text.is_empty() && add_suggestion(draft, spot, text, words)
}

// A word in lower case, with `-` for `_`.
fn lowered(alloc: Global, word: &str) -> Result<String, AllocError> {
    let mut text = Draft::new(alloc);
    for byte in word.bytes() {
        text.add_character(match byte {
            b'_' => '-',
            _ => char::from(byte.to_ascii_lowercase()),
        });
    }
    text.finish()
}

// The hex digits of a word in lower case, without `0x` before them and marks between them.
fn digits_alone(alloc: Global, word: &str) -> Result<String, AllocError> {
    let mut text = Draft::new(alloc);
    for byte in word.strip_prefix("0x").unwrap_or(word).bytes() {
        if !matches!(byte, b':' | b',' | b'-') {
            text.add_character(char::from(byte.to_ascii_lowercase()));
        }
    }
    text.finish()
}

// A word in lower case. Returns whether that is taken.
fn add_lowered(draft: &mut Draft, spot: Spot<'_>, word: &str) -> bool {
    match lowered(draft.alloc(), word) {
        Ok(text) => add_other_spelling(draft, spot, text.as_str(), spot.text()),
        Err(AllocError) => {
            draft.fail();
            false
        }
    }
}

// A physical address of four digits. Returns whether it is taken.
fn add_dotted(draft: &mut Draft, spot: Spot<'_>, digits: &str) -> bool {
    let [one, two, three, four] = digits.as_bytes() else {
        return false;
    };
    let (one, two) = (char::from(*one), char::from(*two));
    let (three, four) = (char::from(*three), char::from(*four));
    match format!(in draft.alloc(); "{one}.{two}.{three}.{four}") {
        Ok(text) => add_other_spelling(draft, spot, text.as_str(), spot.text()),
        Err(AllocError) => {
            draft.fail();
            false
        }
    }
}

// Hex without what stands before it and between its digits, or as a physical address. Returns whether it is taken.
fn add_hex(draft: &mut Draft, spot: Spot<'_>, word: &str) -> bool {
    match digits_alone(draft.alloc(), word) {
        Ok(digits) => {
            let digits = digits.as_str();
            !digits.is_empty()
                && digits.bytes().all(|byte| byte.is_ascii_hexdigit())
                && (add_other_spelling(draft, spot, digits, spot.text())
                    || add_dotted(draft, spot, digits))
        }
        Err(AllocError) => {
            draft.fail();
            false
        }
    }
}

/// A word, or the rest of its line, in another spelling that is taken. Numbers have no hex. Returns whether there is one.
pub fn add_respelled(draft: &mut Draft, spot: Spot<'_>, is_number: bool) -> bool {
    let (tail, word) = (spot.tail(), spot.text());
    let inner = bare(word);
    add_other_spelling(draft, spot, bare(tail), tail)
        || add_other_spelling(draft, spot, inner, word)
        || add_lowered(draft, spot, inner)
        || !is_number && add_hex(draft, spot, inner)
}

/// What stands after the last `=` of a word. Returns whether it is taken.
pub fn add_value(draft: &mut Draft, spot: Spot<'_>) -> bool {
    match spot.text().rsplit_once("=") {
        Some((_, value)) => add_other_spelling(draft, spot, value, spot.text()),
        None => false,
    }
}
