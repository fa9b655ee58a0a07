//! Words that stand near one, and what is suggested in their place.
use explain_again::{Spot, is_taken};
use explain_lists::Draft;
use std::alloc::AllocError;
use strsim::osa_distance;

// Whether two words are one edit apart. Where memory runs out the draft has failed.
fn is_one_edit(draft: &mut Draft, known: &str, word: &str) -> bool {
    match osa_distance(draft.alloc(), known, word) {
        Ok(distance) => distance == 1,
        Err(AllocError) => {
            draft.fail();
            false
        }
    }
}

// Whether a byte is part of a word, and no mark between parts of it.
fn is_letter(byte: &u8) -> bool {
    *byte != b'-' && *byte != b'_'
}

// Whether two words are the same but for case, and for `-` and `_` between their parts.
fn is_same_but_for_case(known: &str, word: &str) -> bool {
    let letters = known.bytes().filter(is_letter);
    let others = word.bytes().filter(is_letter);
    known.bytes().filter(is_letter).count() == word.bytes().filter(is_letter).count()
        && letters
            .zip(others)
            .all(|(one, other)| one.eq_ignore_ascii_case(&other))
}

/// Whether a known word is what somebody may have meant by another: the same but for case and marks between its parts, or one edit away.
pub fn is_near(draft: &mut Draft, known: &str, word: &str) -> bool {
    if known == word {
        return false;
    }
    if is_same_but_for_case(known, word) {
        return true;
    }
    known.len() > 2 && word.len() < 64 && is_one_edit(draft, known, word)
}

/// Suggests a text in the place of words of a line, where it is taken there. Returns whether it is.
pub fn add_suggestion(draft: &mut Draft, spot: Spot<'_>, text: &str, words: &str) -> bool {
    let is_right = is_taken(draft, spot, words, text);
    if is_right {
        draft.add_all(&["  `", words, "`: did you mean `", text, "`?\n"]);
    }
    is_right
}

/// Suggests a text between two others in the place of words. Returns whether it is taken.
pub fn add_enclosed(
    draft: &mut Draft,
    spot: Spot<'_>,
    before: &str,
    text: &str,
    after: &str,
    words: &str,
) -> bool {
    match format!(in draft.alloc(); "{before}{text}{after}") {
        Ok(enclosed) => add_suggestion(draft, spot, enclosed.as_str(), words),
        Err(AllocError) => {
            draft.fail();
            false
        }
    }
}

/// A known word, if another may have been meant for it. Returns whether it is suggested.
pub fn add_near(draft: &mut Draft, spot: Spot<'_>, near: &str, word: &str) -> bool {
    is_near(draft, near, word) && add_suggestion(draft, spot, near, word)
}

/// The first of some known words that a word may have been meant for. Returns whether there is one.
pub fn add_nearest(draft: &mut Draft, spot: Spot<'_>, known: &[&str], word: &str) -> bool {
    for near in known {
        if add_near(draft, spot, near, word) {
            return true;
        }
    }
    false
}

/// A word and the one after it in the other order. Returns whether that is suggested.
pub fn add_exchanged(draft: &mut Draft, spot: Spot<'_>) -> bool {
    let (first, second) = (spot.text(), spot.after(1).text());
    let alloc = draft.alloc();
    let (Ok(words), Ok(text)) = (
        format!(in alloc; "{first} {second}"),
        format!(in alloc; "{second} {first}"),
    ) else {
        draft.fail();
        return false;
    };
    !second.is_empty()
        && first != second
        && add_suggestion(draft, spot, text.as_str(), words.as_str())
}
