//! From frames to their texts.
ghost use Rattle.std.specs.Prelude.{◌≡◌, ◌≤◌, ◌<◌, ◌+◌, ◌/◌, ◌%◌, ◌∷◌, [], ◌++◌, length, codes, option_map, decimal};
ghost use Rattle.std.specs.List.{list_all};
ghost use Rattle.text_core.specs.Piece.{hex_text};
ghost use Rattle.message_text.specs.FrameText.{address_word, address_words, byte_words, frame_text, is_text, is_text_byte, language_words, nothing_words, opcode_text, operand_words, operands_text, operand_word, optional_word, quoted_text, raw_text, set_words, spaced_word, text_words, two_words, vendor_words, with_both, word_and_text, volume_words};
ghost use Rattle.text_core.specs.Written.{WrittenAll};

use arrayvec::ArrayVec;
use line_frames::Frame;
use message_table::{Operand, Operands, WordSet, name, operands_of};
use text_core::{Phys, Sink, WriteFault, after, before, hex_digit, joined, put_all};

/// The text of operands, each word after a space.
type OperandText = ArrayVec<u8, 48>;

/// The text of one operand, after a space.
type OperandWord = ArrayVec<u8, 16>;

/// A copy of at most sixteen bytes; of more, nothing.
pub(crate) fn list(bytes: &[u8]) -> ArrayVec<u8, 16>
    ensures { length bytes.now ≤ 16 → result.items ≡ bytes.now }
{
    let mut items = ArrayVec::new();
    let _ = items.try_extend_from_slice(bytes);
    items
}

fn address_word(high: u8, low: u8) -> OperandWord
    ensures { result.items ≡ address_word high low }
{
    let mut word = list(b" ");
    let _ = word.try_extend_from_slice(&Phys { high, low }.text());
    word
}

fn is_plain(text: &[u8]) -> bool
    ensures { result ≡ list_all is_text_byte text.now }
{
    text.iter()
        .all(|byte| *byte >= 0x20 && *byte <= 0x7e && *byte != b'"')
}

fn is_text(most: usize, text: &[u8]) -> bool
    ensures { result ≡ is_text most text.now }
{
    if text.is_empty() || text.len() > most {
        return false;
    }
    is_plain(text)
}

fn quoted_text(front: &[u8], text: &[u8]) -> OperandText
    requires { length front.now + length text.now ≤ 45 }
    ensures { result.items ≡ front.now ++ quoted_text text.now }
{
    let mut items = joined(front, b" \"");
    let _ = items.try_extend_from_slice(text);
    items.push(b'"');
    items
}

fn nothing_words(operands: &[u8]) -> Option<OperandText>
    ensures { option_map (λ t. t.items) result ≡ nothing_words operands.now }
{
    match operands {
        [] => Some(ArrayVec::new()),
        _ => None,
    }
}

fn spaced_word(set: WordSet, byte: u8) -> Option<OperandWord>
    ensures { option_map (λ t. t.items) result ≡ spaced_word set byte }
{
    let word = set.word(byte)?;
    let mut items = ArrayVec::new();
    items.push(b' ');
    let _ = items.try_extend_from_slice(word.as_bytes());
    Some(items)
}

fn byte_words(operands: &[u8]) -> Option<OperandWord>
    ensures { option_map (λ t. t.items) result ≡ byte_words operands.now }
{
    match operands {
        [byte] => Some(list(&[b' ', hex_digit(*byte / 16), hex_digit(*byte % 16)])),
        _ => None,
    }
}

fn set_words(set: WordSet, operands: &[u8]) -> Option<OperandWord>
    ensures { option_map (λ t. t.items) result ≡ set_words set operands.now }
{
    match operands {
        [byte] => spaced_word(set, *byte),
        _ => None,
    }
}

fn language_words(operands: &[u8]) -> Option<OperandWord>
    ensures { option_map (λ t. t.items) result ≡ language_words operands.now }
{
    match operands {
        [first, second, third]
            if first.is_ascii_lowercase()
                && second.is_ascii_lowercase()
                && third.is_ascii_lowercase() => { Some(list(&[b' ', *first, *second, *third])) }
        _ => None,
    }
}

fn vendor_words(operands: &[u8]) -> Option<OperandWord>
    ensures { option_map (λ t. t.items) result ≡ vendor_words operands.now }
{
    match operands {
        [first, second, third] => Some(list(&[
            b' ',
            hex_digit(*first / 16),
            hex_digit(*first % 16),
            hex_digit(*second / 16),
            hex_digit(*second % 16),
            hex_digit(*third / 16),
            hex_digit(*third % 16),
        ])),
        _ => None,
    }
}

fn address_words(operands: &[u8]) -> Option<OperandWord>
    ensures { option_map (λ t. t.items) result ≡ address_words operands.now }
{
    match operands {
        [high, low] => Some(address_word(*high, *low)),
        _ => None,
    }
}

fn operand_word(operand: Operand, operands: &[u8]) -> Option<OperandWord>
    ensures { option_map (λ t. t.items) result ≡ operand_word operand operands.now }
{
    match operand {
        Operand::Byte => byte_words(operands),
        Operand::Word(set) => set_words(set, operands),
        Operand::Language => language_words(operands),
        Operand::Vendor => vendor_words(operands),
        Operand::Address => address_words(operands),
    }
}

fn one_word(operand: Operand, operands: &[u8]) -> Option<OperandText>
    ensures { option_map (λ t. t.items) result ≡ operand_word operand operands.now }
{
    Some(joined(&operand_word(operand, operands)?, &[]))
}

fn optional_word(operand: Operand, operands: &[u8]) -> Option<OperandText>
    ensures { option_map (λ t. t.items) result ≡ optional_word operand operands.now }
{
    match operands {
        [] => Some(ArrayVec::new()),
        _ => one_word(operand, operands),
    }
}

fn both(first: Option<OperandWord>, second: Option<OperandWord>) -> Option<OperandText>
    ensures { option_map (λ t. t.items) result ≡ with_both (option_map (λ t. t.items) first) (option_map (λ t. t.items) second) }
{
    match (first, second) {
        (Some(first), Some(second)) => Some(joined(&first, &second)),
        _ => None,
    }
}

fn two_words(first: Operand, second: Operand, operands: &[u8]) -> Option<OperandText>
    ensures { option_map (λ t. t.items) result ≡ two_words first second operands.now }
{
    let size = usize::from(first.size());
    both(
        operand_word(first, before(operands, size)),
        operand_word(second, after(operands, size)),
    )
}

fn text_words(operands: &[u8]) -> Option<OperandText>
    ensures { option_map (λ t. t.items) result ≡ text_words operands.now }
{
    if is_text(14, operands) {
        Some(quoted_text(&[], operands))
    } else {
        None
    }
}

fn word_and_text(set: WordSet, operands: &[u8]) -> Option<OperandText>
    ensures { option_map (λ t. t.items) result ≡ word_and_text set operands.now }
{
    match operands {
        [] => None,
        [byte] => Some(joined(&spaced_word(set, *byte)?, &[])),
        [byte, text @ ..] => {
            if !is_text(13, text) {
                return None;
            }
            Some(quoted_text(&spaced_word(set, *byte)?, text))
        }
    }
}

// A number of at most three digits.
#[tactic(auto, using(std::proofs::lemmas::Fmt::decimal_digit, crate::proofs::VolumeLemmas::decimal_two, crate::proofs::VolumeLemmas::decimal_hundred))]
fn volume_digits(volume: u8) -> ArrayVec<u8, 3>
    requires { volume ≤ 100 }
    ensures { result.items ≡ decimal volume }
{
    let mut digits = ArrayVec::new();
    if volume == 100 {
        let _ = digits.try_extend_from_slice(b"100");
        return digits;
    }
    if volume < 10 {
        digits.push(b'0' + volume);
        return digits;
    }
    digits.push(b'0' + volume / 10);
    digits.push(b'0' + volume % 10);
    digits
}

fn volume_words(operands: &[u8]) -> Option<OperandText>
    ensures { option_map (λ t. t.items) result ≡ volume_words operands.now }
{
    match operands {
        [status] => {
            let volume = *status % 128;
            if volume > 100 {
                return None;
            }
            if *status >= 128 {
                return Some(joined(b" mute ", &volume_digits(volume)));
            }
            Some(joined(b" sound ", &volume_digits(volume)))
        }
        _ => None,
    }
}

fn operand_words(form: Operands, operands: &[u8]) -> Option<OperandText>
    ensures { option_map (λ t. t.items) result ≡ operand_words form operands.now }
{
    match form {
        Operands::Raw => None,
        Operands::Nothing => nothing_words(operands),
        Operands::One(operand) => one_word(operand, operands),
        Operands::Optional(operand) => optional_word(operand, operands),
        Operands::Two(first, second) => two_words(first, second, operands),
        Operands::Volume => volume_words(operands),
        Operands::Text => text_words(operands),
        Operands::WordAndText(set) => word_and_text(set, operands),
    }
}

fn raw_text(operands: &[u8]) -> OperandText
    requires { length operands.now ≤ 16 }
    ensures { result.items ≡ raw_text operands.now }
{
    let mut items = joined(b" :", &[]);
    for byte in operands {
        items.push(hex_digit(*byte / 16));
        items.push(hex_digit(*byte % 16));
    }
    items
}

fn operands_text(form: Operands, operands: &[u8]) -> OperandText
    requires { length operands.now ≤ 16 }
    ensures { result.items ≡ operands_text form operands.now }
{
    match operand_words(form, operands) {
        Some(text) => text,
        None => raw_text(operands),
    }
}

/// `op-` and the hex digits of an opcode.
pub(crate) fn nameless_text(code: u8) -> [u8; 5]
    ensures { result ≡ codes "op-" ++ hex_text code }
{
    [b'o', b'p', b'-', hex_digit(code / 16), hex_digit(code % 16)]
}

/// The name of an opcode, or `op-` and its hex digits where it has none.
pub fn opcode_text(code: u8) -> ArrayVec<u8, 32>
    ensures { result.items ≡ opcode_text code }
{
    let mut items = ArrayVec::new();
    match name(code) {
        Some(name) => {
            let _ = items.try_extend_from_slice(name.as_bytes());
        }
        None => {
            let _ = items.try_extend_from_slice(&nameless_text(code));
        }
    }
    items
}

fn spelled(header: u8, code: u8, operands: &[u8]) -> ArrayVec<u8, 96>
    requires { length operands.now ≤ 16 }
    ensures { result.items ≡ frame_text (header ∷ code ∷ operands.now) }
{
    let mut items = ArrayVec::new();
    let _ = items.try_extend_from_slice(&[
        hex_digit(header / 16),
        b'>',
        hex_digit(header % 16),
        b' ',
    ]);
    let _ = items.try_extend_from_slice(&opcode_text(code));
    let _ = items.try_extend_from_slice(&operands_text(operands_of(code), operands));
    items
}

/// The one text of a frame: its initiator and destination as `4>f`; then, unless it is a poll, the name of its
/// opcode and its operands. At most 96 bytes.
pub fn frame_text(frame: &Frame) -> ArrayVec<u8, 96>
    ensures { result.items ≡ frame_text frame.now }
{
    match frame.bytes() {
        [] => ArrayVec::new(),
        [header] => {
            let mut items = ArrayVec::new();
            let _ = items.try_extend_from_slice(&[
                hex_digit(*header / 16),
                b'>',
                hex_digit(*header % 16),
            ]);
            items
        }
        [header, code, operands @ ..] => spelled(*header, *code, operands),
    }
}

/// Writes the text of a frame.
///
/// After a fault the sink has taken the first `count` bytes of the text.
pub fn write_frame<S: Sink>(frame: &Frame, out: &mut S) -> Result<(), WriteFault>
    ensures { WrittenAll (S.contents out.old) (S.contents out.new) (S.is_stuck out.old) (S.is_stuck out.new) (frame_text frame.now) result }
{
    put_all(out, &frame_text(frame))
}
