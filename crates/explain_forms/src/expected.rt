//! What the words of an expectation may have been meant for.
use crate::labels::add_label;
use crate::names::add_header_name_meant;
use crate::patterns::add_pattern_meant;
use crate::ranges::{add_range, add_window};
use crate::wanted::add_nearest_of;
use expect_text::ExpectCause;
use explain_again::Spot;
use explain_lists::{Draft, word_count};
use explain_marks::{
    InputLine, REFUSALS, REMARKS, forms_of, is_line_end, is_word, labelled_by, window_start,
    without_label,
};
use explain_near::{
    add_enclosed, add_near, add_nearest, add_number, add_other, add_suggestion, is_near,
};
use std::alloc::AllocError;

/// The keys of a state line, with the mark after each.
const STATE_KEYS: &[&str] = &[
    "active=", "path=", "deck=", "menu=", "audio=", "volume=", "mute=", "arc=", "sel=", "lang=",
    "osd=", "held=", "heard=", "sub=", "queue=", "dropped=",
];

/// The words of a state line that have no key.
const STATE_WORDS: &[&str] = &["on", "standby"];

// The first label that a word may have been meant for. Returns whether there is one.
fn add_nearest_label(draft: &mut Draft, spot: Spot<'_>, word: &str) -> bool {
    let place = spot.at.place;
    let above = place.number.saturating_sub(1);
    for line in place.input.split(is_line_end).take(above) {
        if let Some(name) = labelled_by(line) {
            if add_near(draft, spot, name, word) {
                return true;
            }
        }
    }
    false
}

// The line above that has a label already. Returns whether there is one.
fn add_labelled(draft: &mut Draft, place: InputLine<'_>, word: &str) -> bool {
    let above = place.number.saturating_sub(1);
    let mut number = 0usize;
    for line in place.input.split(is_line_end).take(above) {
        number = number.saturating_add(1);
        if labelled_by(line) == Some(word) {
            writeln!(draft, "  line {number} of the input has the label `{word}`");
            return true;
        }
    }
    false
}

// What stands before a label of a list.
fn before_label(is_first: bool) -> &'static str {
    if is_first {
        "  the lines above have the labels `"
    } else {
        "`, `"
    }
}

// The labels of the lines above. Returns whether there are some.
fn add_labels(draft: &mut Draft, place: InputLine<'_>) -> bool {
    let above = place.number.saturating_sub(1);
    let mut is_first = true;
    for line in place.input.split(is_line_end).take(above) {
        if let Some(name) = labelled_by(line) {
            draft.add(before_label(is_first));
            draft.add(name);
            is_first = false;
        }
    }
    if !is_first {
        draft.add("`\n");
    }
    !is_first
}

// The word with which an event is refused that the word of `expect refused WORD` may have been meant for, below no event. Returns
// whether there is one.
fn add_nearest_refusal(draft: &mut Draft, spot: Spot<'_>, word: &str) -> bool {
    let own = without_label(spot.at.text).line;
    own.starts_with("expect refused ")
        && word_count(own) == 3
        && add_nearest(draft, spot, REFUSALS, word)
}

// What a label may have been meant for.
fn of_label(draft: &mut Draft, spot: Spot<'_>, word: &str) {
    let place = spot.at.place;
    let _ = add_labelled(draft, place, word)
        || add_nearest_label(draft, spot, word)
        || add_nearest_refusal(draft, spot, word)
        || add_labels(draft, place);
}

// A key of a state line that another one is near, with the value that stands after it. Returns whether there is one.
fn add_nearest_key_of_state(draft: &mut Draft, spot: Spot<'_>, key: &str, value: &str) -> bool {
    let word = spot.text();
    for known in STATE_KEYS {
        if let Some(near) = known.strip_suffix("=") {
            if is_near(draft, near, key) && add_enclosed(draft, spot, known, value, "", word) {
                return true;
            }
        }
    }
    false
}

// The number of a key without the zeros before it. Returns whether it has some.
fn add_without_zeros(draft: &mut Draft, spot: Spot<'_>, key: &str, value: &str) -> bool {
    let digits = value.trim_start_matches('0');
    if digits.len() == value.len() {
        return false;
    }
    let number = if digits.is_empty() { "0" } else { digits };
    match format!(in draft.alloc(); "{key}={number}") {
        Ok(text) => text.as_str() != spot.text()
            && add_suggestion(draft, spot, text.as_str(), spot.text()),
        Err(AllocError) => {
            draft.fail();
            false
        }
    }
}

// The word that a state line has for `power=VALUE`. Returns whether there is one.
fn add_power(draft: &mut Draft, spot: Spot<'_>, value: &str, word: &str) -> bool {
    for known in STATE_WORDS {
        if *known == value || is_near(draft, known, value) {
            return add_suggestion(draft, spot, known, word);
        }
    }
    false
}

// What a word of a state that no state line has may have been meant for.
fn of_state_word(draft: &mut Draft, spot: Spot<'_>, word: &str) {
    if is_word(spot.at.text, spot.word.saturating_add(1), "=") {
        return draft.add_line("KEY=VALUE is one word: no spaces stand around `=`");
    }
    let is_said = match word.split_once("=") {
        Some(("power", value)) => add_power(draft, spot, value, word),
        Some((key, value)) => {
            add_nearest_key_of_state(draft, spot, key, value)
                || add_without_zeros(draft, spot, key, value)
        }
        None => add_nearest(draft, spot, STATE_WORDS, word),
    };
    if !is_said {
        draft.add_all(&["  no state line has the word `", word, "`\n"]);
    }
}

// What a word may have been meant for that nothing meets.
fn of_unmet(draft: &mut Draft, spot: Spot<'_>, word: &str) {
    let own = without_label(spot.at.text);
    if own.line.starts_with("expect state ") {
        of_state_word(draft, spot, word);
    } else if own.line.starts_with("expect refused ") {
        let _ = add_nearest(draft, spot, REFUSALS, word);
    } else if own.line.starts_with("expect remark ") || own.line.starts_with("expect no-remark ") {
        let _ = add_nearest(draft, spot, REMARKS, word);
    } else {
        let first = window_start(own.line)
            .saturating_add(4)
            .saturating_add(own.words);
        add_pattern_meant(draft, spot, first);
    }
}

// `once`, where a word stands before it that says the same. Returns whether it does.
fn add_once(draft: &mut Draft, spot: Spot<'_>, word: &str) -> bool {
    let words = match (word, spot.after(1).text()) {
        ("just", "once") => "just once",
        ("only", "once") => "only once",
        _ => return false,
    };
    add_suggestion(draft, spot, "once", words)
}

// Whether a word stands in the place of a count's number.
fn is_count(spot: Spot<'_>) -> bool {
    let own = without_label(spot.at.text);
    let place = spot.word.saturating_sub(own.words);
    place >= 2 && window_start(own.line) == place.saturating_add(1)
}

// What a word may have been meant for that is no number of a count.
fn of_count(draft: &mut Draft, spot: Spot<'_>, word: &str) {
    let before = spot.moved_to(spot.word.saturating_sub(1));
    let is_said = match (before.text(), word) {
        ("exactly", "once") => add_suggestion(draft, before, "once", "exactly once"),
        ("exactly", "one") => add_suggestion(draft, before, "once", "exactly one"),
        ("least", "0") => {
            draft.add_line("`at least 0` is so of all rooms: N is 1 or more");
            true
        }
        _ => add_other(draft, spot, word) || add_range(draft, spot, word, false),
    };
    if !is_said {
        add_number(draft, spot, word);
    }
}

// What a word that may not stand there may have been meant for.
fn of_word(draft: &mut Draft, spot: Spot<'_>, word: &str) {
    let _ = spot.word == 0 && add_label(draft, spot, word)
        || add_window(draft, spot)
        || add_once(draft, spot, word)
        || add_nearest_of(draft, spot, forms_of(spot.at.what), word)
        || add_other(draft, spot, word);
}

/// What a word of an expectation may have been meant for.
pub fn add_expected_meant(draft: &mut Draft, cause: ExpectCause, spot: Spot<'_>) {
    let word = spot.text();
    match cause {
        ExpectCause::Label => of_label(draft, spot, word),
        ExpectCause::Name => add_header_name_meant(draft, spot, word),
        ExpectCause::Number => {
            if is_count(spot) {
                of_count(draft, spot, word);
            } else if !add_range(draft, spot, word, true) {
                add_number(draft, spot, word);
            }
        }
        ExpectCause::Unmet => of_unmet(draft, spot, word),
        ExpectCause::Word => of_word(draft, spot, word),
        ExpectCause::Pattern | ExpectCause::Order => {}
    }
}
