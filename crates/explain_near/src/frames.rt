//! What the header and the opcode of a frame's text may have been meant for.
use crate::near::{add_enclosed, add_near, add_suggestion, is_near};
use crate::others::{add_other, add_other_opcode_after};
use explain_again::{Spot, is_taken};
use explain_lists::Draft;
use message_hex::frame_in;
use message_table::{code_named, name};
use message_text::frame_text;
use std::alloc::AllocError;

/// The digits of addresses.
const DIGITS: &[u8] = b"0123456789abcdef";

/// The marks that stand for `>` elsewhere, as words of their own.
const ARROWS: &[&str] = &[">", "->", "=>", "to"];

/// What stands for any header in a pattern, with the space after it.
const ANY: &str = "* ";

/// The first name of an opcode that a word may have been meant for. Returns whether there is one.
pub fn add_nearest_opcode(draft: &mut Draft, spot: Spot<'_>, word: &str) -> bool {
    for code in 0..=u8::MAX {
        if let Some(near) = name(code) {
            if add_near(draft, spot, near, word) {
                return true;
            }
        }
    }
    false
}

/// The text of a frame that stands in hex. Returns whether one does.
pub fn add_text(draft: &mut Draft, spot: Spot<'_>, hex: &str) -> bool {
    let Ok(frame) = frame_in(hex.as_bytes()) else {
        return false;
    };
    let text = frame_text(&frame);
    let text = str::from_utf8(&text).unwrap_or("");
    if !is_taken(draft, spot, hex, text) {
        return false;
    }
    draft.add_all(&[
        "  this is a frame in hex, as `hdminet dis` reads it; its text is `",
        text,
        "`\n",
    ]);
    true
}

// ---- headers

// The digit of an address that is written as a decimal number.
fn digit_of(number: &str) -> Option<u8> {
    let number = number.parse::<usize>().ok()?;
    DIGITS.get(number).copied()
}

// Initiator and destination, each written as a decimal number.
fn in_decimal(word: &str) -> Option<(u8, u8)> {
    let (from, to) = word.split_once('>')?;
    Some((digit_of(from)?, digit_of(to)?))
}

// Initiator and destination, written otherwise than with `>` alone between two digits in lower case.
fn header_in(word: &str) -> Option<(u8, u8)> {
    match word.as_bytes() {
        [from, b'>', to] if from.is_ascii_uppercase() || to.is_ascii_uppercase() => {
            (from.is_ascii_hexdigit() && to.is_ascii_hexdigit()).then_some((*from, *to))
        }
        [_, b'>', _] => None,
        [from, b'-' | b'=', b'>', to] | [from, b'-' | b':' | b'<', to] | [from, to] => {
            (from.is_ascii_hexdigit() && to.is_ascii_hexdigit()).then_some((*from, *to))
        }
        _ => in_decimal(word),
    }
}

// Suggests a header of two digits in the place of words.
fn add_header(draft: &mut Draft, spot: Spot<'_>, from: char, to: char, words: &str) -> bool {
    match format!(in draft.alloc(); "{from}>{to}") {
        Ok(text) => add_suggestion(draft, spot, text.as_str(), words),
        Err(AllocError) => {
            draft.fail();
            false
        }
    }
}

/// The header that a word may have been meant for. Returns whether there is one.
pub fn add_header_meant(draft: &mut Draft, spot: Spot<'_>, word: &str) -> bool {
    let Some((from, to)) = header_in(word) else {
        return false;
    };
    let (from, to) = (
        char::from(from.to_ascii_lowercase()),
        char::from(to.to_ascii_lowercase()),
    );
    add_header(draft, spot, from, to, word)
}

// A hex digit that is a word alone.
fn digit_in(word: &str) -> Option<char> {
    match word.as_bytes() {
        [digit] if digit.is_ascii_hexdigit() => Some(char::from(digit.to_ascii_lowercase())),
        _ => None,
    }
}

// The front of a text up to the end of so many words.
fn front_words(text: &str, count: usize) -> &str {
    let mut length = 0usize;
    for word in text.split(' ').take(count) {
        length = length.saturating_add(word.len()).saturating_add(1);
    }
    text.get(..length.saturating_sub(1)).unwrap_or(text)
}

/// A header whose parts are words of their own, with a mark between them or none. Returns whether it is one.
pub fn add_parted(draft: &mut Draft, spot: Spot<'_>) -> bool {
    let middle = spot.after(1).text();
    let (count, last) = if ARROWS.contains(&middle) {
        (3usize, spot.after(2).text())
    } else {
        (2, middle)
    };
    let (Some(from), Some(to)) = (digit_in(spot.text()), digit_in(last)) else {
        return false;
    };
    add_header(draft, spot, from, to, front_words(spot.tail(), count))
}

fn begins_with_letter(text: &str) -> bool {
    matches!(text.as_bytes(), [first, ..] if first.is_ascii_alphabetic())
}

// Whether a text is a header of two digits.
fn is_header(text: &str) -> bool {
    matches!(text.as_bytes(), [from, b'>', to] if from.is_ascii_hexdigit() && to.is_ascii_hexdigit())
}

/// A header without the space after it. Returns whether it is one.
pub fn add_unparted(draft: &mut Draft, spot: Spot<'_>, word: &str) -> bool {
    let Some((header, rest)) = word.split_at_checked(3) else {
        return false;
    };
    if !is_header(header) || !begins_with_letter(rest) {
        return false;
    }
    match format!(in draft.alloc(); "{header} {rest}") {
        Ok(text) => {
            let is_right = is_taken(draft, spot, word, text.as_str());
            if is_right {
                draft.add_all(&["  a space stands after `", header, "`\n"]);
            }
            is_right
        }
        Err(AllocError) => {
            draft.fail();
            false
        }
    }
}

// The name of an opcode without a header before it.
fn add_headless(draft: &mut Draft, word: &str) {
    if code_named(word.as_bytes()).is_some() {
        draft.add_all(&["  `I>D` is missing before `", word, "`\n"]);
    }
}

/// What the header of a line's frame, which begins at a word, may have been meant for.
pub fn add_address_meant(draft: &mut Draft, spot: Spot<'_>) {
    let word = spot.text();
    let is_said = add_text(draft, spot, spot.tail())
        || add_header_meant(draft, spot, word)
        || add_parted(draft, spot)
        || add_unparted(draft, spot, word);
    if !is_said {
        add_headless(draft, word);
    }
}

// ---- opcodes

// A byte as it is compared: in lower case, and `-` for `_` and a space.
fn joined_byte(byte: u8) -> u8 {
    match byte {
        b'_' | b' ' => b'-',
        _ => byte.to_ascii_lowercase(),
    }
}

// Whether a text is a name, but for case and what stands between its parts.
pub(crate) fn is_joined(text: &str, name: &str) -> bool {
    text.bytes()
        .zip(name.bytes())
        .all(|(one, other)| joined_byte(one) == other)
}

// The front of a text that is as long as a name, where it ends with a word.
pub(crate) fn front_of<'a>(text: &'a str, name: &str) -> Option<&'a str> {
    let (front, rest) = text.split_at_checked(name.len())?;
    (rest.is_empty() || rest.starts_with(" ")).then_some(front)
}

/// The name of an opcode whose parts stand as words of their own. Returns whether there is one.
pub fn add_parts(draft: &mut Draft, spot: Spot<'_>) -> bool {
    let tail = spot.tail();
    for code in 0..=u8::MAX {
        if let Some(name) = name(code) {
            if let Some(front) = front_of(tail, name) {
                if front.contains(" ") && is_joined(front, name) {
                    return add_suggestion(draft, spot, name, front);
                }
            }
        }
    }
    false
}

// Suggests the name of an opcode after any header, in the place of words of a pattern.
fn add_after_any(draft: &mut Draft, spot: Spot<'_>, name: &str, words: &str) -> bool {
    add_enclosed(draft, spot, ANY, name, "", words)
}

// The words that an opcode's name has been written with: its own, one that is near, or its parts.
fn words_of_name<'a>(draft: &mut Draft, spot: Spot<'a>, name: &str) -> Option<&'a str> {
    let word = spot.text();
    if word == name || is_near(draft, name, word) {
        return Some(word);
    }
    let front = front_of(spot.tail(), name)?;
    is_joined(front, name).then_some(front)
}

// The name of an opcode that stands for another word of it. Returns whether there is one.
fn add_other_alone(draft: &mut Draft, spot: Spot<'_>) -> bool {
    let word = spot.text();
    if add_other_opcode_after(draft, spot, ANY, word) {
        return true;
    }
    match word.strip_prefix("op-") {
        Some(digits) if digits.len() == 2 => match u8::from_str_radix(digits, 16) {
            Ok(code) => match name(code) {
                Some(name) => add_after_any(draft, spot, name, word),
                None => false,
            },
            Err(_) => false,
        },
        _ => false,
    }
}

/// An opcode with which a pattern begins, where a header stands first. Returns whether there is one.
pub fn add_opcode_alone(draft: &mut Draft, spot: Spot<'_>) -> bool {
    for code in 0..=u8::MAX {
        if let Some(name) = name(code) {
            if let Some(words) = words_of_name(draft, spot, name) {
                if add_after_any(draft, spot, name, words) {
                    return true;
                }
            }
        }
    }
    add_other_alone(draft, spot)
}

/// What the opcode of a line's frame, which is a word of it, may have been meant for.
pub fn add_opcode_meant(draft: &mut Draft, spot: Spot<'_>) {
    let word = spot.text();
    let _ = add_nearest_opcode(draft, spot, word)
        || add_parts(draft, spot)
        || add_other(draft, spot, word);
}
