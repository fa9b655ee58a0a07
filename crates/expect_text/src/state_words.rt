//! The words that a device's state line can have.
ghost use Rattle.std.specs.Prelude.{◌≡◌, ◌+◌, ◌<◌, ◌≤◌, ◌^◌, IfSome};
ghost use Rattle.std.specs.List.{list_all, list_any};
ghost use Rattle.text_core.specs.Words.{words_of};
ghost use Rattle.expect_text.specs.Parts.{has};
ghost use Rattle.expect_text.specs.declared.part.Class.TheVariants.{Hex};
ghost use Rattle.expect_text.specs.StateWords.{key, value_of};
ghost use Rattle.expect_text.specs.StateTest.{by_front, fields, is_bare, is_dash, is_number, is_of_field, is_pair, is_second, is_state_word, is_text, is_text_or_dash, is_value, of_bytes, strange_from, strange_word};

use crate::part::{Class, PatternPart, has};
use text_core::{Kind, first_word, number_in};

/// The loudest volume.
const VOLUME_MOST: u64 = 100;

/// The greatest number of a port.
const PORT_MOST: u64 = 15;

/// How many bytes the code of a language has (CEC 17, ISO 639-2).
const LANGUAGE_BYTES: usize = 3;

/// The most bytes of a text on the screen that a device keeps.
const OSD_BYTES: usize = 16;

/// The most frames that wait in a device.
const QUEUE_MOST: u64 = 16;

/// The most frames that a device counts as dropped.
const DROPPED_MOST: u64 = u64::MAX;

/// A field of a state line: a key with its value.
#[derive(Clone, Copy, Debug, PartialEq, Eq)]
pub enum StateField {
    Active,
    Path,
    Deck,
    Menu,
    Audio,
    Volume,
    Mute,
    Arc,
    Selected,
    Language,
    Osd,
    Held,
    Heard,
    Sub,
    Queue,
    Dropped,
}

/// What a field can say, beside `-` where it says nothing.
#[derive(Clone, Copy, Debug, PartialEq, Eq)]
pub(crate) enum Value {
    /// `on` or `off`.
    Switch,
    /// A physical address.
    Physical,
    /// Two hex digits.
    Byte,
    /// A decimal number up to this one.
    Number(u64),
    /// Bytes in hex, so many at least and so many at most.
    Bytes(usize, usize),
    /// An initiator, an opcode and its first operand.
    Note,
    /// A hex digit.
    Nibble,
    /// A decimal number up to this one, never `-`.
    Count(u64),
}

const PHYSICAL: &[PatternPart] = &[
    PatternPart::One(Class::Hex),
    PatternPart::Byte(b'.'),
    PatternPart::One(Class::Hex),
    PatternPart::Byte(b'.'),
    PatternPart::One(Class::Hex),
    PatternPart::Byte(b'.'),
    PatternPart::One(Class::Hex),
];

// Three and four addresses, as a device from outside may hold.
const THREE: &[PatternPart] = &[
    PatternPart::One(Class::Hex),
    PatternPart::Byte(b'+'),
    PatternPart::One(Class::Hex),
    PatternPart::Byte(b'+'),
    PatternPart::One(Class::Hex),
];

const FOUR: &[PatternPart] = &[
    PatternPart::One(Class::Hex),
    PatternPart::Byte(b'+'),
    PatternPart::One(Class::Hex),
    PatternPart::Byte(b'+'),
    PatternPart::One(Class::Hex),
    PatternPart::Byte(b'+'),
    PatternPart::One(Class::Hex),
];

const NOTE: &[PatternPart] = &[
    PatternPart::One(Class::Hex),
    PatternPart::Byte(b':'),
    PatternPart::One(Class::Hex),
    PatternPart::One(Class::Hex),
    PatternPart::Byte(b':'),
    PatternPart::One(Class::Hex),
    PatternPart::One(Class::Hex),
];

const NIBBLE: &[PatternPart] = &[PatternPart::One(Class::Hex)];

const BYTE: &[PatternPart] = &[PatternPart::One(Class::Hex), PatternPart::One(Class::Hex)];

impl StateField {
    const ALL: &'static [StateField] = &[
        StateField::Active,
        StateField::Path,
        StateField::Deck,
        StateField::Menu,
        StateField::Audio,
        StateField::Volume,
        StateField::Mute,
        StateField::Arc,
        StateField::Selected,
        StateField::Language,
        StateField::Osd,
        StateField::Held,
        StateField::Heard,
        StateField::Sub,
        StateField::Queue,
        StateField::Dropped,
    ];

    fn key(self) -> &'static [u8]
        ensures { result.now ≡ key self }
    {
        match self {
            StateField::Active => b"active=",
            StateField::Path => b"path=",
            StateField::Deck => b"deck=",
            StateField::Menu => b"menu=",
            StateField::Audio => b"audio=",
            StateField::Volume => b"volume=",
            StateField::Mute => b"mute=",
            StateField::Arc => b"arc=",
            StateField::Selected => b"sel=",
            StateField::Language => b"lang=",
            StateField::Osd => b"osd=",
            StateField::Held => b"held=",
            StateField::Heard => b"heard=",
            StateField::Sub => b"sub=",
            StateField::Queue => b"queue=",
            StateField::Dropped => b"dropped=",
        }
    }

    fn value(self) -> Value
        ensures { result ≡ value_of self }
    {
        match self {
            StateField::Active | StateField::Path => Value::Physical,
            StateField::Deck | StateField::Held => Value::Byte,
            StateField::Menu | StateField::Audio | StateField::Mute | StateField::Arc =>
                Value::Switch,
            StateField::Volume => Value::Number(VOLUME_MOST),
            StateField::Selected => Value::Number(PORT_MOST),
            StateField::Language => Value::Bytes(LANGUAGE_BYTES, LANGUAGE_BYTES),
            StateField::Osd => Value::Bytes(1, OSD_BYTES),
            StateField::Heard => Value::Note,
            StateField::Sub => Value::Nibble,
            StateField::Queue => Value::Count(QUEUE_MOST),
            StateField::Dropped => Value::Count(DROPPED_MOST),
        }
    }
}

// Whether a text is one of these parts, none of which is a word of a set or an opcode.
fn is_text(parts: &[PatternPart], text: &[u8]) -> bool
    ensures { result ≡ is_text parts.now text.now }
{
    match parts {
        [] => text.is_empty(),
        [PatternPart::Byte(due), others @ ..] => match text {
            [] => false,
            [byte, rest @ ..] => *byte == *due && is_text(others, rest),
        },
        [PatternPart::One(class), others @ ..] => match text {
            [] => false,
            [byte, rest @ ..] => has(*class, *byte) && is_text(others, rest),
        },
        [PatternPart::Many(class), others @ ..] => match text {
            [] => is_text(others, text),
            [byte, rest @ ..] => {
                is_text(others, text) || (has(*class, *byte) && is_text(parts, rest))
            }
        },
        [PatternPart::Word(_), ..]
        | [PatternPart::Unworded(_), ..]
        | [PatternPart::Opcode(_), ..] => { false }
    }
}

fn is_dash(text: &[u8]) -> bool
    ensures { result ≡ is_dash text.now }
{
    text == b"-".as_slice()
}

fn is_text_or_dash(parts: &[PatternPart], text: &[u8]) -> bool
    ensures { result ≡ is_text_or_dash parts.now text.now }
{
    is_text(parts, text) || is_dash(text)
}

// Whether a text is a number up to this one, as it is written.
fn is_number(most: u64, text: &[u8]) -> bool
    ensures { result ≡ is_number most text.now }
{
    match number_in(text) {
        None => false,
        Some(number) => {
            let mut digits = itoa::Buffer::new();
            number <= most && digits.format(number).as_bytes() == text
        }
    }
}

// Whether each byte of a text is a hex digit.
fn is_hex(text: &[u8]) -> bool
    ensures { result ≡ list_all (has Hex) text.now }
{
    match text {
        [] => true,
        [byte, rest @ ..] => has(Class::Hex, *byte) && is_hex(rest),
    }
}

// Whether a text is from so many to so many bytes in hex.
fn of_bytes(least: usize, most: usize, text: &[u8]) -> bool
    ensures { result ≡ of_bytes least most text.now }
{
    let count = text.len() / 2;
    text.len() % 2 == 0 && least <= count && count <= most && is_hex(text)
}

fn is_value(value: Value, text: &[u8]) -> bool
    ensures { result ≡ is_value value text.now }
{
    match value {
        Value::Switch => text == b"on".as_slice() || text == b"off".as_slice() || is_dash(text),
        Value::Physical => is_text_or_dash(PHYSICAL, text),
        Value::Byte => is_text_or_dash(BYTE, text),
        Value::Number(most) => is_number(most, text) || is_dash(text),
        Value::Bytes(least, most) => of_bytes(least, most, text) || is_dash(text),
        Value::Note => is_text_or_dash(NOTE, text),
        Value::Nibble => is_text_or_dash(NIBBLE, text),
        Value::Count(most) => is_number(most, text),
    }
}

// Whether a word is this text with such a value after it.
fn is_value_after(front: &[u8], value: Value, word: &[u8]) -> bool
    ensures { result ≡ by_front front.now (is_value value) word.now }
{
    match front {
        [] => is_value(value, word),
        [due, others @ ..] => match word {
            [] => false,
            [byte, rest @ ..] => *byte == *due && is_value_after(others, value, rest),
        },
    }
}

fn is_of_field(word: &[u8], field: StateField) -> bool
    ensures { result ≡ is_of_field word.now field }
{
    is_value_after(field.key(), field.value(), word)
}

// Whether a word is one of these fields with its value.
fn is_of_any(word: &[u8], fields: &[StateField]) -> bool
    ensures { result ≡ list_any (is_of_field word.now) fields.now }
{
    match fields {
        [] => false,
        [field, others @ ..] => is_of_field(word, *field) || is_of_any(word, others),
    }
}

// Whether a word is some field with its value.
fn is_field(word: &[u8]) -> bool
    ensures { result ≡ list_any (is_of_field word.now) fields }
{
    is_of_any(word, StateField::ALL)
}

fn is_second(text: &[u8]) -> bool
    ensures { result ≡ is_second text.now }
{
    match text {
        [] => false,
        [byte, rest @ ..] => *byte == b'+' && is_text_or_dash(NIBBLE, rest),
    }
}

// The second unit of a box polls only after the first one has settled.
fn is_pair(word: &[u8]) -> bool
    ensures { result ≡ is_pair word.now }
{
    match word {
        [] => false,
        [byte, rest @ ..] => {
            (has(Class::Hex, *byte) && is_second(rest)) || word == b"-+-".as_slice()
        }
    }
}

fn is_bare(word: &[u8]) -> bool
    ensures { result ≡ is_bare word.now }
{
    word == b"on".as_slice()
        || word == b"standby".as_slice()
        || Kind::named(word).is_some()
        || is_text_or_dash(NIBBLE, word)
        || is_pair(word)
        || is_text(THREE, word)
        || is_text(FOUR, word)
        || is_text(PHYSICAL, word)
}

/// Whether some state line can have a word after the device's name.
#[tactic(auto, unfolding(crate::specs::StateTest::is_state_word))]
pub fn is_state_word(word: &[u8]) -> bool
    ensures { result ≡ is_state_word word.now }
{
    is_bare(word) || is_field(word)
}

#[tactic(auto, using(crate::proofs::Parted::few_words))]
fn strange_from(first: usize, text: &[u8]) -> Option<usize>
    requires few { first ≤ 5 }
    ensures value { result ≡ strange_from first (words_of text.now) }
    ensures bounded { IfSome result (λ number. number + 2 < 2 ^ 64) }
{
    let mut rest = Some(text);
    let mut number = first;
    'words: while let Some(words) = rest {
        let (word, others) = first_word(words);
        if !is_state_word(word) {
            return Some(number);
        }
        rest = others;
        number += 1;
    }
    None
}

/// The first of the words that an expectation of a state has, of which the first has the number 4, that no state line has.
pub(crate) fn strange_word(words: &[u8]) -> Option<usize>
    ensures value { result ≡ strange_word (words_of words.now) }
    ensures bounded { IfSome result (λ number. number + 2 < 2 ^ 64) }
{
    let (word, others) = first_word(words);
    if word != b"not".as_slice() {
        return strange_from(4, words);
    }
    match others {
        None => None,
        Some(others) => strange_from(5, others),
    }
}
