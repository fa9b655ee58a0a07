//! From messages to frames.
ghost use Rattle.std.specs.Prelude.{◌≡◌, ◌≢◌, ℕ, ◌<◌, IfNone, ◌≤◌, ◌+◌, ◌*◌, ◌∷◌, ◌++◌, [], Option, length, IfOk, IfSome, MatchResult, option_copied, None, Some};
ghost use Rattle.arrayvec.specs.ArrayVec.{array_vec_len};
ghost use Rattle.message_table.specs.Table.{decoded_of, is_raw_opcode, name_of, rule_of, operands_of, addressing_of, spelling, refusal, meaning, is_own_message};

use crate::message::{Message, Triple};
use crate::operand::{Operand, Operands};
use crate::row::Rule;
use crate::rows::rows;
use crate::word_set::{NamedByte, WordSet, byte_in};
use arrayvec::ArrayVec;
use line_frames::{Addr, Frame};
use thiserror::Error;

/// Why a message is not sent.
#[derive(Clone, Copy, Debug, PartialEq, Eq, Error)]
pub enum EncodeError {
    /// A text is too short or too long for its operand, or the opcode has another message.
    #[error("the message has an operand that its opcode has not")]
    Operand,
    /// The opcode is sent to everybody alone, and the frame is for one, or the other way round (CEC 15).
    #[error("the message does not go to this destination")]
    Addressing,
    /// The opcode and its operands take more than fifteen blocks.
    #[error("a frame has at most 16 blocks")]
    TooLong,
}

macro_rules! names {
    ($unused:expr, $more:ident, { $($op:literal $name:literal $to:ident $message:ident $fields:tt;)* } { $($raw:literal $raw_name:literal;)* }) => {
        &[$(NamedByte { byte: $op, text: $name },)* $(NamedByte { byte: $raw, text: $raw_name },)*]
    };
}

/// The opcodes that have a name.
const NAMES: &[NamedByte] = rows!(names, 0, unused);

macro_rules! name_match {
    ($at:expr, $unused:ident, { $($op:literal $name:literal $to:ident $message:ident $fields:tt;)* } { $($raw:literal $raw_name:literal;)* }) => {
        match $at {
            $($op => Some($name),)*
            $($raw => Some($raw_name),)*
            _ => None,
        }
    };
}

// A word of a row, as a case of `Operand`.
macro_rules! operand {
    (Byte) => {
        Operand::Byte
    };
    (Language) => {
        Operand::Language
    };
    (Vendor) => {
        Operand::Vendor
    };
    (Address) => {
        Operand::Address
    };
    (SystemAudio) => {
        Operand::Word(WordSet::OnOff)
    };
    (DeckControlMode) => {
        Operand::Word(WordSet::DeckControl)
    };
    (MenuRequestType) => {
        Operand::Word(WordSet::MenuRequest)
    };
    ($set:ident) => {
        Operand::Word(WordSet::$set)
    };
}

macro_rules! operands {
    ({}) => {
        Operands::Nothing
    };
    ({ $field:ident : Text }) => {
        Operands::Text
    };
    ({ $field:ident : Volume }) => {
        Operands::Volume
    };
    ({ $field:ident : optional $kind:ident }) => {
        Operands::Optional(operand!($kind))
    };
    ({ $field:ident : $kind:ident }) => {
        Operands::One(operand!($kind))
    };
    ({ $field:ident : $set:ident, $text:ident : optional Text }) => {
        Operands::WordAndText(WordSet::$set)
    };
    ({ $field:ident : $kind:ident, $next:ident : $after:ident }) => {
        Operands::Two(operand!($kind), operand!($after))
    };
}

macro_rules! operands_match {
    ($at:expr, $unused:ident, { $($op:literal $name:literal $to:ident $message:ident $fields:tt;)* } { $($raw:literal $raw_name:literal;)* }) => {
        match $at {
            $($op => operands!($fields),)*
            _ => Operands::Raw,
        }
    };
}

macro_rules! addressing {
    (direct) => {
        (true, false)
    };
    (broadcast) => {
        (false, true)
    };
    (both) => {
        (true, true)
    };
}

macro_rules! addressing_match {
    ($at:expr, $unused:ident, { $($op:literal $name:literal $to:ident $message:ident $fields:tt;)* } { $($raw:literal $raw_name:literal;)* }) => {
        match $at {
            $($op => addressing!($to),)*
            _ => addressing!(both),
        }
    };
}

// The bytes of an operand.
macro_rules! bytes {
    (Byte, $field:ident) => {
        [*$field]
    };
    (Address, $field:ident) => {
        [$field.high, $field.low]
    };
    (Language, $field:ident) => {
        [$field.first, $field.second, $field.third]
    };
    (Vendor, $field:ident) => {
        [$field.first, $field.second, $field.third]
    };
    ($set:ident, $field:ident) => {
        [$field.byte()]
    };
}

macro_rules! pattern {
    ($message:ident) => {
        Message::$message
    };
    ($message:ident $($field:ident)+) => {
        Message::$message { $($field),+ }
    };
}

macro_rules! spell_row {
    ($op:literal) => {
        alone($op)
    };
    ($op:literal, $field:ident : Text) => {
        joined(&[$op], $field.as_slice())
    };
    ($op:literal, $field:ident : optional Address) => {
        match $field {
            None => alone($op),
            Some(address) => with_two($op, address.high, address.low),
        }
    };
    ($op:literal, $field:ident : Byte) => {
        with_one($op, *$field)
    };
    ($op:literal, $field:ident : Address) => {
        with_two($op, $field.high, $field.low)
    };
    ($op:literal, $field:ident : Language) => {
        with_three($op, $field)
    };
    ($op:literal, $field:ident : Vendor) => {
        with_three($op, $field)
    };
    ($op:literal, $field:ident : $set:ident) => {
        with_one($op, $field.byte())
    };
    ($op:literal, $field:ident : $kind:ident, $text:ident : optional Text) => {
        joined(&with_one($op, $field.byte()), $text.as_slice())
    };
    ($op:literal, $field:ident : $kind:ident, $next:ident : $after:ident) => {
        joined(&joined(&[$op], &bytes!($kind, $field)), &bytes!($after, $next))
    };
}

macro_rules! spell_match {
    ($at:expr, $unused:ident, { $($op:literal $name:literal $to:ident $message:ident { $($field:ident : $($kind:ident)+),* };)* } { $($raw:literal $raw_name:literal;)* }) => {
        match $at {
            $(pattern!($message $($field)*) => spell_row!($op $(, $field : $($kind)+)*),)*
            Message::Raw { opcode, operands } => joined(&[*opcode], operands.as_slice()),
            Message::Unknown { opcode, operands } => joined(&[*opcode], operands.as_slice()),
        }
    };
}

macro_rules! raw_match {
    ($at:expr, $unused:ident, { $($op:literal $name:literal $to:ident $message:ident $fields:tt;)* } { $($raw:literal $raw_name:literal;)* }) => {
        match $at {
            $($raw => true,)*
            _ => false,
        }
    };
}

/// The name of an opcode, if it has one.
pub fn name(code: u8) -> Option<&'static str>
    ensures value { option_copied result ≡ name_of code }
    ensures short { IfSome result (λ name. length name.now ≤ 29) }
{
    rows!(name_match, code, code)
}

/// The opcode that has this name, if one has.
pub fn code_named(text: &[u8]) -> Option<u8>
    ensures found { IfSome result (λ code. name_of code ≡ Some text.now) }
    ensures none { IfNone result ((code : ℕ) → code < 256 → name_of code ≢ Some text.now) }
{
    byte_in(NAMES, text)
}

/// How the operands of an opcode are written.
pub fn operands_of(code: u8) -> Operands
    ensures { result ≡ operands_of code }
{
    rows!(operands_match, code, code)
}

// Whether an opcode may come to one device, and to all.
fn addressing(code: u8) -> (bool, bool)
    ensures { result ≡ addressing_of code }
{
    rows!(addressing_match, code, code)
}

/// The rule of an opcode.
pub fn rule(code: u8) -> Rule
    ensures { result ≡ rule_of code }
{
    let operands = operands_of(code);
    let (direct, broadcast) = addressing(code);
    Rule {
        least: operands.least(),
        most: operands.most(),
        direct,
        broadcast,
    }
}

/// One list after another.
fn joined(front: &[u8], back: &[u8]) -> ArrayVec<u8, 24>
    requires { length front.now + length back.now ≤ 24 }
    ensures { result.items ≡ front.now ++ back.now }
{
    let mut items = ArrayVec::new();
    let _ = items.try_extend_from_slice(front);
    let _ = items.try_extend_from_slice(back);
    items
}

fn alone(code: u8) -> ArrayVec<u8, 24>
    ensures { result.items ≡ code ∷ [] }
{
    joined(&[code], &[])
}

fn with_one(code: u8, byte: u8) -> ArrayVec<u8, 24>
    ensures { result.items ≡ code ∷ byte ∷ [] }
{
    joined(&[code], &[byte])
}

fn with_two(code: u8, first: u8, second: u8) -> ArrayVec<u8, 24>
    ensures { result.items ≡ code ∷ first ∷ second ∷ [] }
{
    joined(&[code], &[first, second])
}

fn with_three(code: u8, bytes: &Triple) -> ArrayVec<u8, 24>
    ensures { result.items ≡ code ∷ bytes.now.first ∷ bytes.now.second ∷ bytes.now.third ∷ [] }
{
    joined(&[code], &[bytes.first, bytes.second, bytes.third])
}

/// The opcode and the operands of a message.
pub fn spell(message: &Message) -> ArrayVec<u8, 24>
    ensures value { result.items ≡ spelling message.now }
    ensures least { 1 ≤ array_vec_len result }
    ensures most { array_vec_len result ≤ 18 }
{
    rows!(spell_match, message, message)
}

/// Whether an opcode's operands are kept as they are.
pub(crate) fn is_raw(code: u8) -> bool
    ensures { result ≡ is_raw_opcode code }
{
    rows!(raw_match, code, code)
}

/// Whether a message can be sent.
fn is_own(message: &Message) -> bool
    ensures { result ≡ is_own_message message.now }
{
    match message {
        Message::SetOsdName { text } => 1 <= text.len() && text.len() <= 14,
        Message::SetOsdString { text, .. } => text.len() <= 13,
        Message::Raw { opcode, .. } => is_raw(*opcode),
        Message::Unknown { opcode, .. } => name(*opcode).is_none(),
        _ => true,
    }
}

/// The frame of a message.
pub fn encode(message: &Message, from: Addr, to: Addr) -> Result<Frame, EncodeError>
    ensures sent { IfOk result (λ f. f ≡ (from * 16 + to) ∷ spelling message.now) }
    ensures refused { MatchResult result (λ _. refusal message.now to ≡ None) (λ e. refusal message.now to ≡ Some e) }
    ensures again { IfOk result (λ f. decoded_of f ≡ meaning message.now) }
{
    if !is_own(message) {
        return Err(EncodeError::Operand);
    }
    let spelled = spell(message);
    let rule = rule(spelled[0]);
    let allowed = if to.value() == Addr::BROADCAST {
        rule.broadcast
    } else {
        rule.direct
    };
    if !allowed {
        return Err(EncodeError::Addressing);
    }
    let blocks = joined(&[from.value() * 16 + to.value()], spelled.as_slice());
    match Frame::new(blocks.as_slice()) {
        Ok(frame) => Ok(frame),
        Err(_) => Err(EncodeError::TooLong),
    }
}
