//! Numbers that are written otherwise.
use crate::near::add_suggestion;
use crate::others::add_other;
use explain_again::{Spot, is_taken};
use explain_lists::Draft;
use std::alloc::AllocError;

/// Units of time after a number, and how many microseconds each is.
const UNITS: &[(&str, u64)] = &[
    ("us", 1),
    ("usec", 1),
    ("ms", 1_000),
    ("msec", 1_000),
    ("s", 1_000_000),
    ("sec", 1_000_000),
];

// The number that the digits of a word spell, marks between them aside.
fn digits_of(word: &str) -> Option<u64> {
    let mut number = 0u64;
    for byte in word.bytes() {
        if byte.is_ascii_digit() {
            let digit = u64::from(byte.saturating_sub(b'0'));
            number = number.checked_mul(10)?.checked_add(digit)?;
        } else if byte != b'_' && byte != b',' && byte != b'\'' {
            return None;
        }
    }
    Some(number)
}

// Whether a word is spelled as a number is: digits alone, and no zero before them.
fn is_spelled_right(word: &str) -> bool {
    let has_zero = word.starts_with("0") && word != "0";
    !word.is_empty() && !has_zero && word.bytes().all(is_digit)
}

fn is_digit(byte: u8) -> bool {
    byte.is_ascii_digit()
}

// What is wrong with a word that stands for a number, and the number, where it is taken in its place.
fn add_spelled(draft: &mut Draft, spot: Spot<'_>, word: &str, wrong: &str, number: u64) {
    match format!(in draft.alloc(); "{number}") {
        Ok(text) => {
            if is_taken(draft, spot, word, text.as_str()) {
                draft.add_all(&["  `", word, "`: ", wrong, ": `", text.as_str(), "`\n"]);
            } else {
                draft.add_all(&["  `", word, "`: ", wrong, "\n"]);
            }
        }
        Err(AllocError) => draft.fail(),
    }
}

// A number with marks between its digits, or zeros before them.
fn add_digits(draft: &mut Draft, spot: Spot<'_>, word: &str) {
    if !word.is_empty() {
        if let Some(number) = digits_of(word) {
            let wrong = "a number has digits alone, and no zero before them";
            add_spelled(draft, spot, word, wrong, number);
        }
    }
}

// A number with a plus before it, or one in hex. Returns whether it is one.
fn add_plain(draft: &mut Draft, spot: Spot<'_>, word: &str) -> bool {
    let (number, wrong) = if let Some(digits) = word.strip_prefix("+") {
        (digits_of(digits), "a number has no sign")
    } else if let Some(digits) = word.strip_prefix("0x") {
        (u64::from_str_radix(digits, 16).ok(), "a number is decimal")
    } else {
        (None, "")
    };
    match number {
        Some(number) => {
            add_spelled(draft, spot, word, wrong, number);
            true
        }
        None => false,
    }
}

// A number with a sign or a point. Returns whether it is one.
fn add_mark(draft: &mut Draft, word: &str) -> bool {
    let mark = match word.as_bytes() {
        [b'-', digits @ ..] if is_all_digits(digits) => "sign",
        bytes if is_pointed(bytes) => "point",
        _ => return false,
    };
    draft.add_all(&["  `", word, "`: a number has no ", mark, "\n"]);
    true
}

fn is_all_digits(bytes: &[u8]) -> bool {
    !bytes.is_empty() && bytes.iter().copied().all(is_digit)
}

// Whether a word is digits with one point between them.
fn is_pointed(bytes: &[u8]) -> bool {
    let mut points = 0usize;
    for byte in bytes {
        if *byte == b'.' {
            points = points.saturating_add(1);
        } else if !is_digit(*byte) {
            return false;
        }
    }
    points == 1 && bytes.len() > 1
}

// A number with a unit or another mark after it.
fn add_tail(draft: &mut Draft, word: &str) {
    let begins_so = matches!(word.as_bytes(), [first, ..] if is_digit(*first));
    if begins_so && word.contains(".") {
        draft.add_all(&[
            "  `",
            word,
            "`: times are whole microseconds, and no unit follows them\n",
        ]);
    } else if begins_so {
        draft.add_all(&["  `", word, "`: a number has digits alone\n"]);
    }
}

// A number with a sign or a point, or with something after it.
fn add_odd(draft: &mut Draft, spot: Spot<'_>, word: &str) {
    let is_said = add_plain(draft, spot, word)
        || add_mark(draft, word)
        || add_other(draft, spot, word);
    if !is_said {
        add_tail(draft, word);
    }
}

// A word that is no number for its spelling.
fn add_spelling(draft: &mut Draft, spot: Spot<'_>, word: &str) {
    match digits_of(word) {
        Some(_) => add_digits(draft, spot, word),
        None => add_odd(draft, spot, word),
    }
}

// How many microseconds a number of a unit is, perhaps with a point, where they are whole.
fn microseconds(number: &str, unit: u64) -> Option<u64> {
    let (whole, decimals) = number.split_once(".").unwrap_or((number, ""));
    let mut time = digits_of(whole)?.checked_mul(unit)?;
    let mut rest = unit;
    for digit in decimals.bytes() {
        if !is_digit(digit) || rest % 10 != 0 && digit != b'0' {
            return None;
        }
        rest = rest / 10;
        let count = u64::from(digit.saturating_sub(b'0'));
        time = time.checked_add(count.checked_mul(rest)?)?;
    }
    Some(time)
}

// The microseconds of a number in a unit that has this word.
fn time_in(number: &str, word: &str) -> Option<u64> {
    for (unit, length) in UNITS {
        if *unit == word && !number.is_empty() {
            return microseconds(number, *length);
        }
    }
    None
}

// A number with a unit. Returns whether it has one.
fn add_without_unit(draft: &mut Draft, spot: Spot<'_>, word: &str) -> bool {
    let number = word.trim_end_matches(|c: char| c.is_ascii_alphabetic());
    match time_in(number, word.strip_prefix(number).unwrap_or("")) {
        Some(time) => {
            let wrong = "times are microseconds, and no unit follows them";
            add_spelled(draft, spot, word, wrong, time);
            true
        }
        None => false,
    }
}

/// A unit that stands as a word of its own, after its number. Returns whether the time in microseconds is suggested in the place of
/// both.
pub fn add_unit(draft: &mut Draft, spot: Spot<'_>) -> bool {
    let Some(before) = spot.word.checked_sub(1) else {
        return false;
    };
    let number = spot.moved_to(before);
    let Some(time) = time_in(number.text(), spot.text()) else {
        return false;
    };
    let alloc = draft.alloc();
    let (Ok(words), Ok(text)) = (
        format!(in alloc; "{} {}", number.text(), spot.text()),
        format!(in alloc; "{time}"),
    ) else {
        draft.fail();
        return false;
    };
    add_suggestion(draft, number, text.as_str(), words.as_str())
}

/// What is wrong with a word that is no number of its place: it is too large, or has a unit, a sign, a point, or marks between its
/// digits.
pub fn add_number(draft: &mut Draft, spot: Spot<'_>, word: &str) {
    if is_spelled_right(word) {
        draft.add_all(&["  `", word, "` is too large\n"]);
    } else if !add_without_unit(draft, spot, word) {
        add_spelling(draft, spot, word);
    }
}
