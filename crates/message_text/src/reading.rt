//! From texts to the bytes that they would spell. Each reader takes any text; where the text is spelled right,
//! it finds the bytes.
ghost use Rattle.std.specs.Prelude.{◌≡◌, ◌≢◌, ℕ, suc, ◌≤◌, ◌<◌, ◌↔◌, ◌+◌, ◌-◌, ◌%◌, ◌==◌, ◌∷◌, [], ◌++◌, List, length, Some, IfSome, IfNone, IsTrue, drop};
ghost use Rattle.std.specs.List.{position_or_len};
ghost use Rattle.text_core.specs.Bytes.{are_bytes};
ghost use Rattle.message_text.specs.FrameReading.{is_frame, within_quotes};
ghost use Rattle.text_core.specs.Hex.{hex_at, hex_bytes};
ghost use Rattle.text_core.specs.Number.{small_number};
ghost use Rattle.message_text.specs.FrameText.{address_words, frame_text, opcode_text, operand_words, operands_text, operand_word, spaced_word, two_words, volume_words, word_and_text};
ghost use Rattle.message_table.specs.WordSets.{word_of, words_of};

use crate::spelling::{list, nameless_text};
use arrayvec::ArrayVec;
use line_frames::Frame;
use message_table::{Operand, Operands, WordSet, code_named, name, operands_of};
use text_core::{Phys, after, before, byte_at, hex_at, hex_bytes, len_before, small_number};

type Bytes = ArrayVec<u8, 16>;

/// One list after another, if both are not too long.
fn joined(front: &[u8], back: &[u8]) -> Bytes
    ensures { length front.now + length back.now ≤ 16 → result.items ≡ front.now ++ back.now }
{
    let mut items = list(front);
    let _ = items.try_extend_from_slice(back);
    items
}

/// Where the first word ends.
pub(crate) fn word_len(text: &[u8]) -> usize
    ensures value { result ≡ position_or_len (λ b. b == 32) text.now }
    ensures within { result ≤ length text.now }
{
    len_before(text, b' ')
}

fn within_quotes(text: &[u8]) -> Bytes
    ensures { length (within_quotes text.now) ≤ 16 → result.items ≡ within_quotes text.now }
{
    if text.len() < 3 {
        return ArrayVec::new();
    }
    list(&text[2..text.len() - 1])
}

fn word_byte(set: WordSet, word: &[u8]) -> u8
    ensures { (byte : ℕ) → byte < 256 → word_of (words_of set) byte ≡ Some word.now → result ≡ byte }
{
    set.byte(word).unwrap_or(0)
}

fn spaced_byte(set: WordSet, text: &[u8]) -> u8
    ensures { (byte : ℕ) → byte < 256 → spaced_word set byte ≡ Some text.now → result ≡ byte }
{
    word_byte(set, after(text, 1))
}

fn volume_status(text: &[u8]) -> u8
    ensures { (status : ℕ) → status < 256 → volume_words (status ∷ []) ≡ Some text.now → result ≡ status }
{
    if byte_at(text, 1) == b'm' {
        return 128 + small_number(after(text, 6)) % 128;
    }
    small_number(after(text, 7))
}

// Where the second word begins, with its space.
fn second_word(text: &[u8]) -> usize
    ensures { result ≡ suc (position_or_len (λ b. b == 32) (drop 1 text.now)) }
{
    1 + word_len(after(text, 1))
}

fn word_and_text(set: WordSet, text: &[u8]) -> Bytes
    ensures { (xs : List ℕ) → IsTrue (are_bytes xs) → length xs ≤ 14 → word_and_text set xs ≡ Some text.now → result.items ≡ xs }
{
    let end = second_word(text);
    let byte = spaced_byte(set, before(text, end));
    let rest = after(text, end);
    if rest.is_empty() {
        return list(&[byte]);
    }
    joined(&[byte], &within_quotes(rest))
}

/// The two bytes of a physical address after a space.
fn address_bytes(text: &[u8]) -> Bytes
    ensures { (xs : List ℕ) → IsTrue (are_bytes xs) → address_words xs ≡ Some text.now → result.items ≡ xs }
{
    match Phys::read(after(text, 1)) {
        Some(phys) => list(&[phys.high, phys.low]),
        None => Bytes::new(),
    }
}

/// The bytes that the word of an operand spells.
fn operand_bytes(operand: Operand, text: &[u8]) -> Bytes
    ensures { (xs : List ℕ) → IsTrue (are_bytes xs) → operand_word operand xs ≡ Some text.now → result.items ≡ xs }
{
    match operand {
        Operand::Byte => list(&[hex_at(text, 1, 2)]),
        Operand::Word(set) => list(&[spaced_byte(set, text)]),
        Operand::Language => list(&[byte_at(text, 1), byte_at(text, 2), byte_at(text, 3)]),
        Operand::Vendor => list(&[hex_at(text, 1, 2), hex_at(text, 3, 4), hex_at(text, 5, 6)]),
        Operand::Address => address_bytes(text),
    }
}

fn two_operands(first: Operand, second: Operand, text: &[u8]) -> Bytes
    ensures { (xs : List ℕ) → IsTrue (are_bytes xs) → length xs ≤ 14 → two_words first second xs ≡ Some text.now → result.items ≡ xs }
{
    let end = second_word(text);
    let front = operand_bytes(first, before(text, end));
    let back = operand_bytes(second, after(text, end));
    joined(&front, &back)
}

/// The operands that these words spell.
fn word_operands(form: Operands, text: &[u8]) -> Bytes
    ensures { (xs : List ℕ) → IsTrue (are_bytes xs) → length xs ≤ 14 → operand_words form xs ≡ Some text.now → result.items ≡ xs }
{
    match form {
        Operands::Raw => ArrayVec::new(),
        Operands::Nothing => ArrayVec::new(),
        Operands::One(operand) => operand_bytes(operand, text),
        Operands::Optional(operand) => {
            if text.is_empty() {
                return ArrayVec::new();
            }
            operand_bytes(operand, text)
        }
        Operands::Two(first, second) => two_operands(first, second, text),
        Operands::Volume => list(&[volume_status(text)]),
        Operands::Text => within_quotes(text),
        Operands::WordAndText(set) => word_and_text(set, text),
    }
}

/// The operands that a text after an opcode's name spells.
fn operands_in(form: Operands, text: &[u8]) -> Bytes
    ensures { (xs : List ℕ) → IsTrue (are_bytes xs) → length xs ≤ 14 → text.now ≡ operands_text form xs → result.items ≡ xs }
{
    if byte_at(text, 1) == b':' {
        return hex_bytes(before(after(text, 2), 28));
    }
    word_operands(form, text)
}

fn is_opcode(code: u8, word: &[u8]) -> bool
    ensures { IsTrue result ↔ (opcode_text code ≡ word.now) }
{
    match name(code) {
        Some(name) => is_same(name.as_bytes(), word),
        None => is_same(&nameless_text(code), word),
    }
}

pub(crate) fn is_same(left: &[u8], right: &[u8]) -> bool
    ensures { IsTrue result ↔ (left.now ≡ right.now) }
{
    left == right
}

/// The opcode that has this name, or this `op-XX`.
pub(crate) fn opcode_named(word: &[u8]) -> Option<u8>
    ensures found { IfSome result (λ code. opcode_text code ≡ word.now) }
    ensures none { IfNone result ((code : ℕ) → code < 256 → opcode_text code ≢ word.now) }
{
    match code_named(word) {
        Some(code) => Some(code),
        None => {
            let code = hex_at(word, 3, 4);
            if is_opcode(code, word) {
                Some(code)
            } else {
                None
            }
        }
    }
}

fn poll(header: u8) -> Option<Frame>
    ensures { result ≡ Some (header ∷ []) }
{
    Frame::new(&[header]).ok()
}

fn command(header: u8, code: u8, operands: &[u8]) -> Option<Frame>
    ensures { length operands.now ≤ 14 → result ≡ Some (header ∷ code ∷ operands.now) }
{
    let mut bytes: ArrayVec<u8, 16> = ArrayVec::new();
    bytes.push(header);
    bytes.push(code);
    let _ = bytes.try_extend_from_slice(operands);
    Frame::new(&bytes).ok()
}

/// The frame that a text would spell.
pub(crate) fn candidate(text: &[u8]) -> Option<Frame>
    ensures { (frame : List ℕ) → IsTrue (is_frame frame) → text.now ≡ frame_text frame → result ≡ Some frame }
{
    let header = hex_at(text, 0, 2);
    if text.len() == 3 {
        return poll(header);
    }
    let words = after(text, 4);
    let end = word_len(words);
    let code = opcode_named(before(words, end))?;
    command(
        header,
        code,
        &operands_in(operands_of(code), after(words, end)),
    )
}
