//! The words of frames, from the tables of opcodes.
use crate::draft::Draft;
use crate::list::list_set;
use message_shapes::{frame_shape, set_label};
use message_table::{Operand, Operands, WordSet, name, operands_of};
use std::alloc::{AllocError, Global};

/// The sets of words that stand for an operand of a frame, in the order in which help lists them.
pub const OPERAND_WORDS: &[WordSet] = &[
    WordSet::Reason,
    WordSet::Power,
    WordSet::OnOff,
    WordSet::DeviceType,
    WordSet::StatusRequest,
    WordSet::DeckInfo,
    WordSet::PlayMode,
    WordSet::DeckControl,
    WordSet::Display,
    WordSet::MenuRequest,
    WordSet::MenuState,
    WordSet::Version,
    WordSet::UserControl,
];

const BYTE: &str = "BYTE is two lower-case hex digits";

const LANGUAGE: &str = "LANG is three letters, a to z";

const VENDOR: &str = "ID is six lower-case hex digits";

const ADDRESS: &str = "PA is a physical address, as 1.0.0.0";

const VOLUME: &str = "VOLUME is `mute` or `sound`, and 0 to 100 after a space";

const LONG_TEXT: &str = "TEXT is 1 to 14 printable characters in double quotes";

const SHORT_TEXT: &str =
    "TEXT is 1 to 13 printable characters in double quotes, and may be left out";

const RAW: &str = "HEX is two lower-case digits for each operand, of which there are 14 at most";

/// What stands for a value, in the order in which help lists it.
const VALUES: &[&str] = &[BYTE, LANGUAGE, VENDOR, ADDRESS, VOLUME, LONG_TEXT, RAW];

/// How many columns the labels of sets take.
const LABELS: usize = 8;

// The words of a set, on one line.
fn add_set(draft: &mut Draft, set: WordSet) {
    draft.add_all(&["  ", set_label(set)]);
    let mut before = " is ";
    for word in set.words() {
        draft.add(before);
        draft.add(word.text);
        before = ", ";
    }
    draft.add("\n");
}

fn add_operand(draft: &mut Draft, operand: Operand) {
    match operand {
        Operand::Byte => draft.add_line(BYTE),
        Operand::Word(set) => add_set(draft, set),
        Operand::Language => draft.add_line(LANGUAGE),
        Operand::Vendor => draft.add_line(VENDOR),
        Operand::Address => draft.add_line(ADDRESS),
    }
}

fn add_operands(draft: &mut Draft, operands: Operands) {
    match operands {
        Operands::Nothing => {}
        Operands::Raw => draft.add_line(RAW),
        Operands::One(operand) | Operands::Optional(operand) => add_operand(draft, operand),
        Operands::Two(first, second) => {
            add_operand(draft, first);
            if first != second {
                add_operand(draft, second);
            }
        }
        Operands::Volume => draft.add_line(VOLUME),
        Operands::Text => draft.add_line(LONG_TEXT),
        Operands::WordAndText(set) => {
            add_set(draft, set);
            draft.add_line(SHORT_TEXT);
        }
    }
}

// The form of an opcode's frames, as a text.
fn text_of(shape: &[u8]) -> &str {
    str::from_utf8(shape).unwrap_or("")
}

/// How the frames of an opcode look, and what its operands are; of an opcode without a name, what those of any are.
pub fn add_shape(draft: &mut Draft, code: Option<u8>) {
    let Some(code) = code else {
        return draft.add_line(RAW);
    };
    if let Some(shape) = frame_shape(code) {
        draft.add_all(&["  a frame here reads `I>D ", text_of(&shape), "`\n"]);
        add_operands(draft, operands_of(code));
    }
}

/// What stands for an opcode that a word gives by its digits.
pub fn add_name(draft: &mut Draft, code: u8, word: &str) {
    match name(code) {
        Some(name) => writeln!(
            draft,
            "  the opcode {code:02x} has a name, `{name}`, which stands in place of `{word}`"
        ),
        None => writeln!(
            draft,
            "  the opcode {code:02x} has no name; `op-{code:02x}` stands for it"
        ),
    }
}

// The digits of an opcode that has a name, and the form of its frames.
fn add_form(draft: &mut Draft, code: u8) {
    if let Some(shape) = frame_shape(code) {
        let form = text_of(&shape);
        writeln!(draft, "  {code:02x} {form}");
    }
}

// The words of each set, and what the other words in capitals are.
fn add_values(draft: &mut Draft) {
    draft.add("where these words stand for a byte:\n");
    for set in OPERAND_WORDS {
        list_set(draft, set_label(*set), LABELS, *set);
    }
    draft.add("and\n");
    for line in VALUES {
        draft.add_line(line);
    }
}

/// A line for each opcode that has a name, with the form of its frames, and a line for each set of words.
///
/// # Errors
///
/// Where memory runs out.
pub fn frame_forms(alloc: Global) -> Result<String, AllocError> {
    let mut draft = Draft::new(alloc);
    for code in 0..=u8::MAX {
        add_form(&mut draft, code);
    }
    add_values(&mut draft);
    draft.finish()
}
