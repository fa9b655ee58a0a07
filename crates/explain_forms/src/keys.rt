//! What would be right in place of a key.
use crate::forms::add_missing;
use explain_lists::{Draft, add_key_lines, add_keys_of, add_set, taken_by, word_at, word_count};
use explain_marks::{InputLine, is_value, is_word, kind_of};
use message_table::WordSet;
use text_core::Kind;

/// The number of a key's first word, after `at T press NAME`.
const KEY: usize = 4;

/// Whether a word of a line, by its number, is one of a key.
pub fn is_of_key(line: &str, word: usize) -> bool {
    word >= KEY && (is_word(line, 2, "press") || is_word(line, 2, "release"))
}

// The keys that a device of a kind has. Returns whether there is such a kind.
fn add_keys(draft: &mut Draft, name: &str, word: &str) -> bool {
    let Some(kind) = Kind::named(word.as_bytes()) else {
        return false;
    };
    draft.add_all(&["  `", name, "`, of the kind ", word, ", has the keys "]);
    add_keys_of(draft, kind, "");
    draft.add("\n");
    true
}

// The keys of the device of a line. Returns whether it is known.
fn add_keys_of_line(draft: &mut Draft, place: InputLine<'_>, line: &str) -> bool {
    let Some(name) = word_at(line, 3) else {
        return false;
    };
    match kind_of(place, name) {
        Some(kind) => add_keys(draft, name, kind),
        None => false,
    }
}

// What a value of a key is, by its number in the line. Returns whether that says what is wrong: a word that is none.
fn add_value(draft: &mut Draft, key: &str, word: usize) -> bool {
    match (key, word) {
        ("watch", 5) => draft.add_line("PA is a physical address, as 1.0.0.0"),
        ("language", 5) => draft.add_line("LLL is three letters, a to z"),
        ("remote", 5) => draft.add_line("D is the logical address of a device, 1 to e"),
        ("remote", 6) => add_set(draft, "CODE is", WordSet::UserControl),
        ("audio" | "arc", 5) => {}
        _ => return false,
    }
    true
}

// The word that a line lacks at its end, whose key begins with a word and takes values.
fn lacking(line: &str, key: &str) -> Option<&'static str> {
    let count = word_count(line).saturating_sub(KEY);
    let taken = taken_by(key)?;
    taken.split(' ').nth(count).filter(|word| is_value(word))
}

// What would be right in place of the values of a key. Returns whether more would be of no use.
fn add_values(draft: &mut Draft, line: &str, word: usize) -> bool {
    let (Some(verb), Some(key)) = (word_at(line, 2), word_at(line, KEY)) else {
        return false;
    };
    add_key_lines(draft, verb, key);
    if word >= word_count(line) {
        add_missing(draft, lacking(line, key));
        return true;
    }
    add_value(draft, key, word)
}

/// What would be right in place of a word of a key, by its number in a line. Returns whether more would be of no use.
pub fn add_key(draft: &mut Draft, place: InputLine<'_>, line: &str, word: usize) -> bool {
    if word == KEY {
        add_keys_of_line(draft, place, line)
    } else {
        add_values(draft, line, word)
    }
}
