//! What the operands of a frame's text may have been meant for.
use crate::frames::{front_of, is_joined};
use crate::near::{add_enclosed, add_near, add_suggestion};
use crate::others::add_other;
use explain_again::{Spot, is_taken};
use explain_lists::{Draft, OPERAND_WORDS, word_at, word_count};
use line_frames::Frame;
use message_table::{Operand, Operands, WordSet, code_named, operands_of};
use message_text::frame_text;
use std::alloc::AllocError;

/// The first word of an operand that a word may have been meant for. Returns whether there is one.
pub fn add_nearest_operand(draft: &mut Draft, spot: Spot<'_>, word: &str) -> bool {
    for set in OPERAND_WORDS {
        if add_nearest_of_set(draft, spot, *set, word) {
            return true;
        }
    }
    false
}

// The first word of a set that a word may have been meant for. Returns whether there is one.
fn add_nearest_of_set(draft: &mut Draft, spot: Spot<'_>, set: WordSet, word: &str) -> bool {
    for operand in set.words() {
        if add_near(draft, spot, operand.text, word) {
            return true;
        }
    }
    false
}

/// The word of a set that a word may have been meant for. Returns whether there is one.
pub fn add_set_meant(draft: &mut Draft, spot: Spot<'_>, set: WordSet, word: &str) -> bool {
    add_other(draft, spot, word) || add_nearest_of_set(draft, spot, set, word)
}

// ---- the words of an opcode

fn set_of(operand: Operand) -> Option<WordSet> {
    match operand {
        Operand::Word(set) => Some(set),
        Operand::Byte | Operand::Language | Operand::Vendor | Operand::Address => None,
    }
}

// The sets whose words are operands.
fn sets_of(operands: Operands) -> [Option<WordSet>; 2] {
    match operands {
        Operands::One(only) | Operands::Optional(only) => [set_of(only), None],
        Operands::Two(first, second) => [set_of(first), set_of(second)],
        Operands::WordAndText(set) => [Some(set), None],
        Operands::Raw | Operands::Nothing | Operands::Volume | Operands::Text => [None, None],
    }
}

// What a word may have been meant for, among those of an opcode. Returns whether there is something.
fn add_word_meant(draft: &mut Draft, spot: Spot<'_>, operands: Operands) -> bool {
    let word = spot.text();
    for set in sets_of(operands) {
        if let Some(set) = set {
            if set.byte(word.as_bytes()).is_none() && add_set_meant(draft, spot, set, word) {
                return true;
            }
        }
    }
    false
}

// What the first of the words from one on may have been meant for that is meant for another one. Returns whether there is one.
fn add_words_meant(draft: &mut Draft, spot: Spot<'_>, operands: Operands) -> bool {
    for number in spot.word..word_count(spot.at.text) {
        if add_word_meant(draft, spot.moved_to(number), operands) {
            return true;
        }
    }
    false
}

// ---- other operands

// Whether a text has an even count of hex digits, and at least two.
fn is_hex(text: &str) -> bool {
    !text.is_empty() && text.len() % 2 == 0 && text.bytes().all(|byte| byte.is_ascii_hexdigit())
}

// The digits of a word, without the `:` or `0x` before them.
fn digits_of(word: &str) -> &str {
    let digits = word.strip_prefix(":").unwrap_or(word);
    digits.strip_prefix("0x").unwrap_or(digits)
}

/// Suggests the digits of an opcode in the place of a word. Returns whether they are taken.
pub fn add_code(draft: &mut Draft, spot: Spot<'_>, code: u8) -> bool {
    match format!(in draft.alloc(); "{code:02x}") {
        Ok(digits) => add_suggestion(draft, spot, digits.as_str(), spot.text()),
        Err(AllocError) => {
            draft.fail();
            false
        }
    }
}

// The byte that a word stands for by the name of an opcode, or after `0x`. Returns whether there is one.
fn add_byte_meant(draft: &mut Draft, spot: Spot<'_>, operands: Operands) -> bool {
    let word = spot.text();
    if !matches!(
        operands,
        Operands::Two(Operand::Byte, _) | Operands::One(Operand::Byte)
    ) {
        return false;
    }
    if let Some(code) = code_named(word.as_bytes()) {
        return add_code(draft, spot, code);
    }
    match word.strip_prefix("0x") {
        Some(digits) if is_hex(digits) => add_suggestion(draft, spot, digits, word),
        _ => false,
    }
}

// Digits without the mark before them. Returns whether they are some.
fn add_mark_meant(draft: &mut Draft, spot: Spot<'_>, operands: Operands) -> bool {
    let word = spot.text();
    operands == Operands::Raw && is_hex(word) && add_enclosed(draft, spot, ":", word, "", word)
}

// A text as it stands between other quotes, or without any.
fn unquoted(text: &str) -> &str {
    match text.strip_prefix("'") {
        Some(rest) => rest.strip_suffix("'").unwrap_or(rest),
        None => text,
    }
}

// Whether a text has one double quote alone.
fn has_one_quote(text: &str) -> bool {
    text.bytes().filter(|byte| *byte == b'"').count() == 1
}

/// A text without a double quote at its end, or without any. Returns whether it is one.
pub fn add_quotes(draft: &mut Draft, spot: Spot<'_>, words: &str) -> bool {
    if has_one_quote(words) {
        return add_enclosed(draft, spot, "", words, "\"", words);
    }
    !words.is_empty()
        && !words.contains("\"")
        && add_enclosed(draft, spot, "\"", unquoted(words), "\"", words)
}

// The same of the operands of an opcode that takes a text.
fn add_quoted(draft: &mut Draft, spot: Spot<'_>, operands: Operands) -> bool {
    let tail = spot.tail();
    match operands {
        Operands::Text => add_quotes(draft, spot, tail),
        Operands::WordAndText(_) => has_one_quote(tail) && add_quotes(draft, spot, tail),
        _ => false,
    }
}

// The byte of a frame's header, of two digits.
fn header_byte(header: &str) -> Option<u8> {
    match header.as_bytes() {
        [from, b'>', to] => {
            let from = char::from(*from).to_digit(16)?;
            let to = char::from(*to).to_digit(16)?;
            u8::try_from(from.saturating_mul(16).saturating_add(to)).ok()
        }
        _ => None,
    }
}

// The bytes of a frame's header and opcode.
fn first_bytes(line: &str, first: usize, code: u8) -> Option<[u8; 2]> {
    let header = word_at(line, first.checked_sub(2)?)?;
    Some([header_byte(header)?, code])
}

// A frame whose operands are digits.
fn frame_of(start: [u8; 2], digits: &str) -> Option<Frame> {
    let [header, code] = start;
    let mut bytes = [0u8; 16];
    *bytes.get_mut(0)? = header;
    *bytes.get_mut(1)? = code;
    let mut count = 2usize;
    let mut rest = digits;
    for _ in 0..14 {
        let Some((pair, more)) = rest.split_at_checked(2) else {
            break;
        };
        *bytes.get_mut(count)? = u8::from_str_radix(pair, 16).ok()?;
        count = count.saturating_add(1);
        rest = more;
    }
    Frame::new(bytes.get(..count)?).ok()
}

// The text of a frame whose operands stand as digits though words say them. Returns whether there is one.
fn add_text_of(draft: &mut Draft, spot: Spot<'_>, code: u8) -> bool {
    let digits = digits_of(spot.text());
    if !is_hex(digits) || digits.len() > 28 {
        return false;
    }
    let Some(start) = first_bytes(spot.at.text, spot.word, code) else {
        return false;
    };
    let Some(frame) = frame_of(start, digits) else {
        return false;
    };
    let text = frame_text(&frame);
    let text = str::from_utf8(&text).unwrap_or("");
    // What stands after the header is taken in the place of the words from the opcode on.
    let Some((_, worded)) = text.split_once(' ') else {
        return false;
    };
    let name = spot.moved_to(spot.word.saturating_sub(1));
    if text.contains(":") || !is_taken(draft, name, words_to(name, spot), worded) {
        return false;
    }
    draft.add_all(&["  the frame with these bytes is `", text, "`\n"]);
    true
}

// The text of a line from one word up to the end of another one.
fn words_to<'a>(first: Spot<'a>, last: Spot<'a>) -> &'a str {
    let tail = first.tail();
    let rest = last.tail().len().saturating_sub(last.text().len());
    tail.get(..tail.len().saturating_sub(rest)).unwrap_or(tail)
}

// What stands in words for the operands of a pattern's frame that stand in hex, with the opcode before them. Returns whether it
// is taken.
fn add_words_of_hex(draft: &mut Draft, spot: Spot<'_>) -> bool {
    let name = spot.moved_to(spot.word.saturating_sub(1));
    let Some(code) = code_named(name.text().as_bytes()) else {
        return false;
    };
    let digits = digits_of(spot.text());
    if !is_hex(digits) {
        return false;
    }
    let Some(frame) = frame_of([0, code], digits) else {
        return false;
    };
    let text = frame_text(&frame);
    match str::from_utf8(&text).unwrap_or("").split_once(' ') {
        Some((_, worded)) => add_suggestion(draft, name, worded, words_to(name, spot)),
        None => false,
    }
}

// The word of a set whose parts stand as words of their own. Returns whether there is one.
fn add_parts_of_set(draft: &mut Draft, spot: Spot<'_>, set: WordSet) -> bool {
    for operand in set.words() {
        if let Some(front) = front_of(spot.tail(), operand.text) {
            if front.contains(" ") && is_joined(front, operand.text) {
                return add_suggestion(draft, spot, operand.text, front);
            }
        }
    }
    false
}

/// What too many operands of a line's frame, from this word on, may have been meant for: one word in parts.
pub fn add_count_meant(draft: &mut Draft, spot: Spot<'_>) {
    let Some(operands) = operands_at(spot) else {
        return;
    };
    let _ = add_quoted(draft, spot, operands) || add_parts_meant(draft, spot, operands);
}

// A word of an opcode in parts. Returns whether there is one.
fn add_parts_meant(draft: &mut Draft, spot: Spot<'_>, operands: Operands) -> bool {
    for set in sets_of(operands) {
        if let Some(set) = set {
            if add_parts_of_set(draft, spot, set) {
                return true;
            }
        }
    }
    false
}

// What the opcode takes that stands before a word.
fn operands_at(spot: Spot<'_>) -> Option<Operands> {
    let name = spot.moved_to(spot.word.checked_sub(1)?);
    Some(operands_of(code_named(name.text().as_bytes())?))
}

/// What the operands of a line's frame, from this word on, may have been meant for.
pub fn add_operands_meant(draft: &mut Draft, spot: Spot<'_>) {
    let name = spot.moved_to(spot.word.saturating_sub(1));
    let Some(code) = code_named(name.text().as_bytes()) else {
        return;
    };
    let operands = operands_of(code);
    let _ = add_byte_meant(draft, spot, operands)
        || add_mark_meant(draft, spot, operands)
        || add_quoted(draft, spot, operands)
        || add_words_meant(draft, spot, operands)
        || add_text_of(draft, spot, code);
}

/// What a word of an operand may have been meant for, of those of a pattern's frame from this word on. Returns whether something is
/// suggested.
pub fn add_pattern_words_meant(draft: &mut Draft, spot: Spot<'_>) -> bool {
    match operands_at(spot) {
        Some(operands) => {
            add_parts_meant(draft, spot, operands) || add_words_meant(draft, spot, operands)
        }
        None => false,
    }
}

/// What the other operands of a pattern's frame, from this word on, may have been meant for. Returns whether something is suggested.
pub fn add_pattern_operands_meant(draft: &mut Draft, spot: Spot<'_>) -> bool {
    let Some(operands) = operands_at(spot) else {
        return false;
    };
    let takes_text = operands == Operands::Text;
    add_byte_meant(draft, spot, operands)
        || add_words_of_hex(draft, spot)
        || add_mark_meant(draft, spot, operands)
        || takes_text && add_quotes(draft, spot, spot.text())
}
