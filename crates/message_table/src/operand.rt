//! How operands are written.
ghost use Rattle.std.specs.Prelude.{◌≡◌, ◌≤◌};
ghost use Rattle.message_table.specs.Operands.{size_of, least_of, most_of};

use crate::word_set::WordSet;

/// An operand that is one word of a frame's text.
#[derive(Clone, Copy, Debug, Drop, PartialEq, Eq)]
pub enum Operand {
    /// A byte, as two hex digits.
    Byte,
    /// A byte of a set of words.
    Word(WordSet),
    /// Three letters.
    Language,
    /// Three bytes, as six hex digits.
    Vendor,
    /// A physical address.
    Address,
}

impl Operand {
    /// How many bytes it has.
    pub fn size(self) -> u8
        ensures value { result ≡ size_of self }
        ensures small { result ≤ 3 }
    {
        match self {
            Operand::Byte | Operand::Word(_) => 1,
            Operand::Language | Operand::Vendor => 3,
            Operand::Address => 2,
        }
    }
}

/// The operands of an opcode.
#[derive(Clone, Copy, Debug, Drop, PartialEq, Eq)]
pub enum Operands {
    /// Any, always as hex digits.
    Raw,
    Nothing,
    One(Operand),
    /// One or none.
    Optional(Operand),
    Two(Operand, Operand),
    /// Whether the sound is off, and how loud it is.
    Volume,
    /// A text of 1 to 14 characters in quotes.
    Text,
    /// A word, and perhaps a text of 1 to 13 characters in quotes.
    WordAndText(WordSet),
}

impl Operands {
    /// How many bytes they have at least.
    pub fn least(self) -> u8
        ensures { result ≡ least_of self }
    {
        match self {
            Operands::Raw | Operands::Nothing | Operands::Optional(_) => 0,
            Operands::One(operand) => operand.size(),
            Operands::Two(first, second) => first.size() + second.size(),
            Operands::Volume | Operands::Text | Operands::WordAndText(_) => 1,
        }
    }

    /// How many bytes they have at most.
    pub fn most(self) -> u8
        ensures { result ≡ most_of self }
    {
        match self {
            Operands::Optional(operand) => operand.size(),
            Operands::Raw | Operands::Text | Operands::WordAndText(_) => 14,
            _ => self.least(),
        }
    }
}
