//! Texts as parts, and which patterns a text of such parts meets.
ghost use Rattle.std.specs.Prelude.{◌≡◌, ◌+◌, ◌∷◌, [], is_some, map};
ghost use Rattle.text_core.specs.Piece.{hex_text};
ghost use Rattle.message_table.specs.WordSets.{word_in_code};
ghost use Rattle.message_text.specs.FrameText.{opcode_text};
ghost use Rattle.expect_text.specs.Bits.{bits_met};
ghost use Rattle.expect_text.specs.Parts.{after_set, after_text, after_unworded, after_word, any_below, end_met, has, has_word, is_met, is_met_unworded};
ghost use Rattle.expect_text.specs.Senders.{after_met, any_met, judged_as, loser_met, more_met, out_met, sender_met, senders_met, tail_met};

use crate::bits::is_word_met;
use crate::pattern::fits;
use line_frames::Ending;
use message_table::{NamedByte, WordSet};
use message_text::opcode_text;
use text_core::{after, before, hex_digit, len_before};

/// Bytes of a text.
#[derive(Clone, Copy, Debug, Drop, PartialEq, Eq)]
pub enum Class {
    /// A hex digit.
    Hex,
    /// A hex digit below `f`: an address that is no broadcast.
    Directed,
    Digit,
    /// `1` to `9`.
    NonZero,
    /// `0` to `5`.
    UpToFive,
    /// `a` to `z`.
    Letter,
    /// What stands in quotes.
    Quotable,
    Any,
}

/// What a byte of an operand can have as a word: where it has none, the operand stands in hex.
#[derive(Clone, Copy, Debug, Drop, PartialEq, Eq)]
pub enum Worded {
    /// A word of a set.
    Listed(WordSet),
    /// A letter of a language.
    Character,
    /// What stands in quotes.
    Quoted,
    /// A volume up to 100.
    Loudness,
}

/// A part of a text.
#[derive(Clone, Copy, Debug, Drop, PartialEq, Eq)]
pub enum PatternPart {
    Byte(u8),
    /// One byte of a class.
    One(Class),
    /// Any number of bytes of a class.
    Many(Class),
    /// A word of a set.
    Word(WordSet),
    /// Two hex digits of a byte that has no such word.
    Unworded(Worded),
    /// The name of an opcode, or `op-` and its hex digits where it has none.
    Opcode(u8),
}

impl Default for PatternPart {
    fn default() -> Self {
        PatternPart::Byte(0)
    }
}

/// What a line is of: a run of devices with these names, in their order, or a capture.
#[derive(Clone, Copy)]
pub enum Judged<'a> {
    Run(&'a [&'a [u8]]),
    Capture,
}

/// What stands after the parts of a text.
#[derive(Clone, Copy)]
pub(crate) enum After<'a> {
    /// Nothing.
    End,
    /// What stands at the end of a line.
    Tail(Judged<'a>),
    /// The bits of a reading with this ending, and then the same.
    Bits {
        ending: Ending,
        who: Judged<'a>,
    },
    /// Who of a room did not go on.
    Outs {
        room: &'a [&'a [u8]],
    },
    /// A device that went on; then some of the others; then who of the room did not go on.
    By {
        name: &'a [u8],
        others: &'a [&'a [u8]],
        room: &'a [&'a [u8]],
    },
    /// The same without the first one.
    MoreBy {
        others: &'a [&'a [u8]],
        room: &'a [&'a [u8]],
    },
    /// A device that did not go on; then some of the others.
    Out {
        name: &'a [u8],
        others: &'a [&'a [u8]],
    },
    /// The same without the first one.
    MoreOut {
        others: &'a [&'a [u8]],
    },
}

/// `@` and a slot of one digit.
const SLOT_OF_ONE: &[PatternPart] = &[PatternPart::Byte(b'@'), PatternPart::One(Class::NonZero)];

/// `@` and a slot of two digits.
const SLOT_OF_TWO: &[PatternPart] = &[
    PatternPart::Byte(b'@'),
    PatternPart::One(Class::NonZero),
    PatternPart::One(Class::Digit),
];

/// `@` and a slot from 100 to 159.
const SLOT_OF_THREE: &[PatternPart] = &[
    PatternPart::Byte(b'@'),
    PatternPart::Byte(b'1'),
    PatternPart::One(Class::UpToFive),
    PatternPart::One(Class::Digit),
];

/// `@` and the last slot of sixteen bytes.
const LAST_SLOT: &[PatternPart] = &[
    PatternPart::Byte(b'@'),
    PatternPart::Byte(b'1'),
    PatternPart::Byte(b'6'),
    PatternPart::Byte(b'0'),
];

// Whether a byte is one of the class.
pub(crate) fn has(class: Class, byte: u8) -> bool
    ensures { result ≡ has class byte }
{
    match class {
        Class::Hex => byte.is_ascii_digit() || (byte >= b'a' && byte <= b'f'),
        Class::Directed => byte.is_ascii_digit() || (byte >= b'a' && byte <= b'e'),
        Class::Digit => byte.is_ascii_digit(),
        Class::NonZero => byte >= b'1' && byte <= b'9',
        Class::UpToFive => byte >= b'0' && byte <= b'5',
        Class::Letter => byte.is_ascii_lowercase(),
        Class::Quotable => byte >= b' ' && byte <= b'~' && byte != b'"',
        Class::Any => true,
    }
}

// Whether a byte of an operand has such a word.
fn has_word(kind: Worded, byte: u8) -> bool
    ensures { result ≡ has_word kind byte }
{
    match kind {
        Worded::Listed(set) => set.word(byte).is_some(),
        Worded::Character => byte.is_ascii_lowercase(),
        Worded::Quoted => byte >= b' ' && byte <= b'~' && byte != b'"',
        Worded::Loudness => byte % 128 <= 100,
    }
}

// Whether this text and then one of the parts meets the pattern.
#[cycle(meeting)]
fn is_met_after(text: &[u8], parts: &[PatternPart], after: After<'_>, pattern: &[u8]) -> bool
    ensures { result ≡ after_text text.now (is_met (after_met after.entry) parts.now) pattern.now }
{
    match text {
        [] => is_met(parts, after, pattern),
        [byte, others @ ..] => match pattern {
            [] => *byte == b' ',
            [b'*', rest @ ..] => {
                is_met_after(text, parts, after, rest)
                    || (*byte != b' ' && is_met_after(others, parts, after, pattern))
            }
            [due, rest @ ..] => *byte == *due && is_met_after(others, parts, after, rest),
        },
    }
}

// Whether one of these words and then a text of the parts meets the pattern.
#[cycle(meeting)]
fn is_met_by_word(
    words: &[NamedByte],
    parts: &[PatternPart],
    after: After<'_>,
    pattern: &[u8],
) -> bool
    ensures { result ≡ after_word (map word_in_code words.now) (is_met (after_met after.entry) parts.now) pattern.now }
{
    match words {
        [] => false,
        [word, others @ ..] => {
            is_met_after(word.text.as_bytes(), parts, after, pattern)
                || is_met_by_word(others, parts, after, pattern)
        }
    }
}

// Whether a word of the set and then one of the parts meets the pattern.
#[cycle(meeting)]
fn is_met_by_set(set: WordSet, parts: &[PatternPart], after: After<'_>, pattern: &[u8]) -> bool
    ensures { result ≡ after_set set (is_met (after_met after.entry) parts.now) pattern.now }
{
    is_met_by_word(set.words(), parts, after, pattern)
}

// The two hex digits of a byte.
fn digits_of(byte: u8) -> [u8; 2]
    ensures { result ≡ hex_text byte }
{
    [hex_digit(byte / 16), hex_digit(byte % 16)]
}

// Whether the digits of this byte and then one of the parts meet the pattern.
#[cycle(meeting)]
fn is_met_by_digits(byte: u8, parts: &[PatternPart], after: After<'_>, pattern: &[u8]) -> bool
    ensures { result ≡ after_text (hex_text byte) (is_met (after_met after.entry) parts.now) pattern.now }
{
    is_met_after(&digits_of(byte), parts, after, pattern)
}

// The same of a byte that has no such word.
#[cycle(meeting)]
fn is_met_by_byte(
    kind: Worded,
    byte: u8,
    parts: &[PatternPart],
    after: After<'_>,
    pattern: &[u8],
) -> bool
    ensures { result ≡ is_met_unworded kind (is_met (after_met after.entry) parts.now) pattern.now byte }
{
    !has_word(kind, byte) && is_met_by_digits(byte, parts, after, pattern)
}

// The same of this byte or of one below it.
#[cycle(meeting)]
#[tactic(auto, using(crate::proofs::Below::below_first, crate::proofs::Below::below_last, crate::proofs::Below::below_rest))]
fn is_met_up_to(
    kind: Worded,
    byte: u8,
    parts: &[PatternPart],
    after: After<'_>,
    pattern: &[u8],
) -> bool
    ensures { result ≡ any_below (byte + 1) (is_met_unworded kind (is_met (after_met after.entry) parts.now) pattern.now) }
{
    if is_met_by_byte(kind, byte, parts, after, pattern) {
        return true;
    }
    if byte == 0 {
        return false;
    }
    is_met_up_to(kind, byte - 1, parts, after, pattern)
}

// Whether the digits of a byte that has no such word and then one of the parts meet the pattern.
#[cycle(meeting)]
#[tactic(auto, unfolding(crate::specs::Parts::after_unworded))]
fn is_met_unworded(kind: Worded, parts: &[PatternPart], after: After<'_>, pattern: &[u8]) -> bool
    ensures { result ≡ after_unworded kind (is_met (after_met after.entry) parts.now) pattern.now }
{
    is_met_up_to(kind, 255, parts, after, pattern)
}

// Whether the name of an opcode and then one of the parts meets the pattern.
#[cycle(meeting)]
fn is_met_by_opcode(code: u8, parts: &[PatternPart], after: After<'_>, pattern: &[u8]) -> bool
    ensures { result ≡ after_text (opcode_text code) (is_met (after_met after.entry) parts.now) pattern.now }
{
    is_met_after(&opcode_text(code), parts, after, pattern)
}

// Whether a device that went on, after this text, and then some of the others meet the pattern, with all that stands after them.
#[cycle(meeting)]
fn is_sender_met<'a>(
    lead: &[u8],
    name: &'a [u8],
    others: &'a [&'a [u8]],
    room: &'a [&'a [u8]],
    pattern: &[u8],
) -> bool
    ensures { result ≡ after_text lead.now (sender_met name.now (more_met sender_met (map (λ n. n.now) others.now) (out_met (map (λ n. n.now) room.now)))) pattern.now }
{
    is_met_after(lead, &[], After::By { name, others, room }, pattern)
}

// Whether one of these devices that went on, after this text, meets the pattern, with all that stands after it.
#[cycle(meeting)]
fn is_any_met<'a>(lead: &[u8], names: &'a [&'a [u8]], room: &'a [&'a [u8]], pattern: &[u8]) -> bool
    ensures { result ≡ any_met lead.now sender_met (map (λ n. n.now) names.now) (out_met (map (λ n. n.now) room.now)) pattern.now }
{
    match names {
        [] => false,
        [name, others @ ..] => {
            is_any_met(lead, others, room, pattern)
                || is_sender_met(lead, name, others, room, pattern)
        }
    }
}

// Whether a device that did not go on, after this text, and then some of the others meet the pattern.
#[cycle(meeting)]
fn is_stopped_met<'a>(lead: &[u8], name: &'a [u8], others: &'a [&'a [u8]], pattern: &[u8]) -> bool
    ensures { result ≡ after_text lead.now (loser_met name.now (more_met loser_met (map (λ n. n.now) others.now) end_met)) pattern.now }
{
    is_met_after(lead, &[], After::Out { name, others }, pattern)
}

// Whether one of these devices that did not go on, after this text, meets the pattern, with all that stands after it.
#[cycle(meeting)]
fn is_any_out_met<'a>(lead: &[u8], names: &'a [&'a [u8]], pattern: &[u8]) -> bool
    ensures { result ≡ any_met lead.now loser_met (map (λ n. n.now) names.now) end_met pattern.now }
{
    match names {
        [] => false,
        [name, others @ ..] => {
            is_any_out_met(lead, others, pattern) || is_stopped_met(lead, name, others, pattern)
        }
    }
}

// Whether those of a room who did not go on meet the pattern.
#[cycle(meeting)]
fn is_out_met<'a>(room: &'a [&'a [u8]], pattern: &[u8]) -> bool
    ensures { result ≡ out_met (map (λ n. n.now) room.now) pattern.now }
{
    is_met_after(b" out -", &[], After::End, pattern) || is_any_out_met(b" out ", room, pattern)
}

// Whether a device that did not go on and then some of the others meet the pattern.
#[cycle(meeting)]
fn is_loser_met<'a>(name: &'a [u8], others: &'a [&'a [u8]], pattern: &[u8]) -> bool
    ensures { result ≡ loser_met name.now (more_met loser_met (map (λ n. n.now) others.now) end_met) pattern.now }
{
    let after = After::MoreOut { others };
    is_met_after(name, SLOT_OF_ONE, after, pattern)
        || is_met_after(name, SLOT_OF_TWO, after, pattern)
        || is_met_after(name, SLOT_OF_THREE, after, pattern)
        || is_met_after(name, LAST_SLOT, after, pattern)
}

// Whether those of a room who sent meet the pattern.
#[cycle(meeting)]
fn is_senders_met<'a>(room: &'a [&'a [u8]], pattern: &[u8]) -> bool
    ensures { result ≡ senders_met (map (λ n. n.now) room.now) pattern.now }
{
    is_met_after(b" by -", &[], After::Outs { room }, pattern)
        || is_any_met(b" by ", room, room, pattern)
}

// Whether the end of a line meets the pattern.
#[cycle(meeting)]
#[tactic(auto, unfolding(crate::specs::Senders::tail_met))]
fn is_tail_met(who: Judged<'_>, pattern: &[u8]) -> bool
    ensures { result ≡ tail_met (judged_as who.entry) pattern.now }
{
    match who {
        Judged::Run(room) => is_senders_met(room, pattern),
        Judged::Capture => fits(pattern, &[]),
    }
}

// Whether the bits of a reading with this ending, and then the end of its line, meet the pattern.
#[cycle(meeting)]
fn are_bits_met(ending: Ending, who: Judged<'_>, pattern: &[u8]) -> bool
    ensures { result ≡ bits_met ending (tail_met (judged_as who.entry)) pattern.now }
{
    let end = len_before(pattern, b' ');
    is_word_met(ending, before(pattern, end)) && is_tail_met(who, after(pattern, end))
}

// Whether what stands after parts meets the pattern.
#[cycle(meeting)]
fn is_after_met(after: After<'_>, pattern: &[u8]) -> bool
    ensures { result ≡ after_met after.entry pattern.now }
{
    match after {
        After::End => fits(pattern, &[]),
        After::Tail(who) => is_tail_met(who, pattern),
        After::Bits { ending, who } => are_bits_met(ending, who, pattern),
        After::Outs { room } => is_out_met(room, pattern),
        After::By { name, others, room } => {
            is_met_after(name, &[], After::MoreBy { others, room }, pattern)
        }
        After::MoreBy { others, room } => {
            is_out_met(room, pattern) || is_any_met(b",", others, room, pattern)
        }
        After::Out { name, others } => is_loser_met(name, others, pattern),
        After::MoreOut { others } => fits(pattern, &[]) || is_any_out_met(b",", others, pattern),
    }
}

/// Whether a text of these parts, with this after it, meets the pattern.
#[cycle(meeting)]
pub(crate) fn is_met(parts: &[PatternPart], after: After<'_>, pattern: &[u8]) -> bool
    ensures { result ≡ is_met (after_met after.entry) parts.now pattern.now }
{
    match parts {
        [] => is_after_met(after, pattern),
        [PatternPart::Byte(byte), others @ ..] => match pattern {
            [] => *byte == b' ',
            [b'*', rest @ ..] => {
                is_met(parts, after, rest) || (*byte != b' ' && is_met(others, after, pattern))
            }
            [due, rest @ ..] => *byte == *due && is_met(others, after, rest),
        },
        [PatternPart::One(class), others @ ..] => match pattern {
            [] => has(*class, b' '),
            [b'*', rest @ ..] => is_met(parts, after, rest) || is_met(others, after, pattern),
            [due, rest @ ..] => has(*class, *due) && is_met(others, after, rest),
        },
        [PatternPart::Many(class), others @ ..] => match pattern {
            [] => is_met(others, after, pattern) || has(*class, b' '),
            [due, rest @ ..] => {
                is_met(others, after, pattern)
                    || ((*due == b'*' || has(*class, *due)) && is_met(parts, after, rest))
            }
        },
        [PatternPart::Word(set), others @ ..] => is_met_by_set(*set, others, after, pattern),
        [PatternPart::Unworded(kind), others @ ..] => {
            is_met_unworded(*kind, others, after, pattern)
        }
        [PatternPart::Opcode(code), others @ ..] => is_met_by_opcode(*code, others, after, pattern),
    }
}
