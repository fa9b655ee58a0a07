//! What the words of a pattern that no round's line meets may have been meant for.
use crate::frames::add_opcode;
use crate::names::{add_declared, add_named_header, add_nearest_name, is_declared};
use explain_again::Spot;
use explain_lists::{Draft, add_shape};
use explain_marks::Input;
use explain_near::{
    add_enclosed, add_header_meant, add_nearest, add_nearest_opcode, add_nearest_operand,
    add_opcode_alone, add_other, add_parted, add_parts, add_pattern_operands_meant,
    add_pattern_words_meant, add_suggestion, add_text, add_unparted,
};
use message_table::code_named;

/// Words of a round's line that stand for themselves.
const ROUND_WORDS: &[&str] = &[
    "short",
    "silent",
    "bad-start",
    "long",
    "open",
    "ack",
    "nack",
    "ok",
    "refused",
    "by",
    "out",
];

/// The verdicts, and what is written for them elsewhere: each with the verdict, and the one that a frame to all has in place of one
/// to a single device, or the other way round.
const VERDICTS: &[(&str, &str, &str)] = &[
    ("ack", "ack", "ok"),
    ("nack", "nack", "refused"),
    ("ok", "ok", "ack"),
    ("refused", "refused", "nack"),
    ("acked", "ack", "ok"),
    ("acknowledged", "ack", "ok"),
    ("accepted", "ok", "ack"),
    ("nak", "nack", "refused"),
    ("no-ack", "nack", "refused"),
    ("nacked", "nack", "refused"),
    ("rejected", "refused", "nack"),
];

/// The words of readings that are not complete, and which bits are shown of each.
const ENDINGS: &[(&str, &str)] = &[
    (
        "short",
        "`short` shows 1 to 159 bits, or `-` for none; bit 9 of each ten, end-of-message, is 0, but where it is the last one shown",
    ),
    (
        "silent",
        "`silent` shows 1 to 159 bits; bit 9 of each ten, end-of-message, is 0, but where it is the last one shown",
    ),
    (
        "long",
        "`long` shows 160 bits; bit 9 of each ten, end-of-message, is 0",
    ),
    (
        "bad-start",
        "`bad-start` shows no bits: `-` stands after it",
    ),
    (
        "open",
        "`open` shows 1 to 159 bits, or `-` for none; bit 9 of each ten, end-of-message, is 0, but where it is the last one shown",
    ),
];

// A verdict that is taken there, perhaps after operands that are left open. Returns whether there is one.
fn add_verdict(draft: &mut Draft, spot: Spot<'_>, word: &str) -> bool {
    for (known, verdict, other) in VERDICTS {
        if word.eq_ignore_ascii_case(known) {
            return *verdict != word && add_suggestion(draft, spot, verdict, word)
                || add_suggestion(draft, spot, other, word)
                || add_enclosed(draft, spot, "* ", verdict, "", word)
                || add_enclosed(draft, spot, "* ", other, "", word);
        }
    }
    false
}

// The word `complete`, which no pattern has. Returns whether it is that.
fn add_complete(draft: &mut Draft, word: &str) -> bool {
    let is_so = word == "complete";
    if is_so {
        draft.add_line("`complete` stands in the trace, and not in PATTERN");
    }
    is_so
}

// Which bits are shown of a reading that is not complete. Returns whether the pattern's first word, of this number, is its ending.
fn add_bits(draft: &mut Draft, spot: Spot<'_>, first: usize) -> bool {
    let ending = spot.moved_to(first).text();
    for (known, bits) in ENDINGS {
        if ending == *known {
            draft.add_line(bits);
            return true;
        }
    }
    false
}

// ---- who sent

// Whether a word stands before who sent.
fn is_sender_word(word: &str) -> bool {
    word == "by" || word == "out"
}

// The devices that a name after `by` or `out` could be.
fn add_sender_name(draft: &mut Draft, spot: Spot<'_>, word: &str) {
    let name = word.strip_prefix("@").unwrap_or(word);
    let is_said = name != word
        && is_declared(spot.at.place, name)
        && add_suggestion(draft, spot, name, word);
    if !is_said && !add_nearest_name(draft, spot, word) {
        add_declared(draft, spot.at.place);
    }
}

// What is wrong with `by`, `out` or a name after one of them. Returns whether the word is such a one.
fn add_sender(draft: &mut Draft, spot: Spot<'_>, word: &str) -> bool {
    let before = spot.moved_to(spot.word.saturating_sub(1)).text();
    let is_of_sender = is_sender_word(before) || is_sender_word(word);
    if spot.at.what == Input::CaptureTest {
        if is_of_sender {
            draft.add_line(
                "a capture does not say who sent: its readings have no `by` and no `out`",
            );
        }
        return is_of_sender;
    }
    if is_sender_word(before) {
        add_sender_name(draft, spot, word);
        return true;
    }
    is_of_sender && add_enclosed(draft, spot, "* ", word, "", word)
}

// ---- places

// What the first word of a pattern may have been meant for. Returns whether there is something.
fn add_first(draft: &mut Draft, spot: Spot<'_>, word: &str) -> bool {
    add_named_header(draft, spot, word)
        || add_header_meant(draft, spot, word)
        || add_parted(draft, spot)
        || add_text(draft, spot, spot.tail())
        || add_text(draft, spot, word)
        || add_unparted(draft, spot, word)
        || add_nearest(draft, spot, ROUND_WORDS, word)
        || add_opcode_alone(draft, spot)
}

// What a word may have been meant for that stands for an opcode. Returns whether there is something.
fn add_named_opcode(draft: &mut Draft, spot: Spot<'_>, word: &str) -> bool {
    add_opcode(draft, spot)
        || add_nearest_opcode(draft, spot, word)
        || add_parts(draft, spot)
        || add_other(draft, spot, word)
}

// What another word may have been meant for, after a pattern's first word, the one of this number. Returns whether there is
// something.
fn add_later(draft: &mut Draft, spot: Spot<'_>, first: usize, word: &str) -> bool {
    let operands = spot.moved_to(first.saturating_add(2));
    add_sender(draft, spot, word)
        || spot.word == first.saturating_add(1) && add_bits(draft, spot, first)
        || add_pattern_words_meant(draft, operands)
        || add_verdict(draft, spot, word)
        || spot.word == first.saturating_add(1) && add_named_opcode(draft, spot, word)
        || add_pattern_operands_meant(draft, operands)
        || add_nearest(draft, spot, ROUND_WORDS, word)
        || add_named_opcode(draft, spot, word)
        || add_nearest_operand(draft, spot, word)
}

// How the frames of a pattern's opcode look.
fn add_frame_shape(draft: &mut Draft, spot: Spot<'_>, first: usize) {
    let opcode = spot.moved_to(first.saturating_add(1));
    if opcode.word < spot.word {
        if let Some(code) = code_named(opcode.text().as_bytes()) {
            add_shape(draft, Some(code));
        }
    }
}

/// What a word of a pattern may have been meant for, of which the first one has this number.
pub fn add_pattern_meant(draft: &mut Draft, spot: Spot<'_>, first: usize) {
    let word = spot.text();
    let is_said = add_complete(draft, word)
        || spot.word == first && add_first(draft, spot, word)
        || spot.word > first && add_later(draft, spot, first, word);
    if !is_said {
        add_frame_shape(draft, spot, first);
    }
}
