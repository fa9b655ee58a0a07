//! The shapes of frames, and what stands for a word of a set.
ghost use Rattle.std.specs.Prelude.{◌≡◌, ◌≤◌, ◌+◌, ◌∷◌, ◌++◌, codes, length, option_map};
ghost use Rattle.message_shapes.specs.FrameShape.{frame_shape, operand_label, operands_shape, set_label};

use arrayvec::ArrayVec;
use message_table::{Operand, Operands, WordSet, name, operands_of};
use text_core::joined;

/// What stands for a word of a set.
pub fn set_label(set: WordSet) -> &'static str
    ensures label { result.now ≡ set_label set }
    ensures short { length result.now ≤ 8 }
{
    match set {
        WordSet::Reason => "REASON",
        WordSet::Power => "POWER",
        WordSet::OnOff => "SYS",
        WordSet::DeviceType => "TYPE",
        WordSet::StatusRequest => "STATUS",
        WordSet::DeckInfo => "DECK",
        WordSet::PlayMode => "MODE",
        WordSet::DeckControl => "CONTROL",
        WordSet::Display => "DISPLAY",
        WordSet::MenuRequest => "MENU",
        WordSet::MenuState => "MSTATE",
        WordSet::Version => "VERSION",
        WordSet::UserControl => "CODE",
    }
}

fn operand_label(operand: Operand) -> &'static str
    ensures label { result.now ≡ operand_label operand }
    ensures short { length result.now ≤ 8 }
{
    match operand {
        Operand::Byte => "BYTE",
        Operand::Word(set) => set_label(set),
        Operand::Language => "LANG",
        Operand::Vendor => "ID",
        Operand::Address => "PA",
    }
}

// A label after a space.
fn spaced(label: &str) -> ArrayVec<u8, 48>
    requires { length label.now ≤ 8 }
    ensures value { result.items ≡ 32 ∷ label.now }
    ensures short { length result.items ≤ 9 }
{
    joined(b" ", label.as_bytes())
}

// A label after a space, in brackets.
fn bracketed(label: &str) -> ArrayVec<u8, 48>
    requires { length label.now ≤ 8 }
    ensures value { result.items ≡ codes " [" ++ label.now ++ codes "]" }
    ensures short { length result.items ≤ 11 }
{
    joined(&joined(b" [", label.as_bytes()), b"]")
}

fn two(first: &str, second: &str) -> ArrayVec<u8, 48>
    requires first { length first.now ≤ 8 }
    requires second { length second.now ≤ 8 }
    ensures value { result.items ≡ (32 ∷ first.now) ++ (32 ∷ second.now) }
    ensures short { length result.items ≤ 18 }
{
    joined(&spaced(first), &spaced(second))
}

fn with_text(label: &str) -> ArrayVec<u8, 48>
    requires { length label.now ≤ 8 }
    ensures value { result.items ≡ (32 ∷ label.now) ++ codes " [TEXT]" }
    ensures short { length result.items ≤ 18 }
{
    joined(&spaced(label), b" [TEXT]")
}

fn operands_shape(operands: Operands) -> ArrayVec<u8, 48>
    ensures value { result.items ≡ operands_shape operands }
    ensures short { length result.items ≤ 18 }
{
    match operands {
        Operands::Raw => joined(b" :HEX", &[]),
        Operands::Nothing => ArrayVec::new(),
        Operands::One(operand) => spaced(operand_label(operand)),
        Operands::Optional(operand) => bracketed(operand_label(operand)),
        Operands::Two(first, second) => two(operand_label(first), operand_label(second)),
        Operands::Volume => joined(b" VOLUME", &[]),
        Operands::Text => joined(b" TEXT", &[]),
        Operands::WordAndText(set) => with_text(set_label(set)),
    }
}

fn shaped(name: &str, operands: Operands) -> ArrayVec<u8, 48>
    requires { length name.now ≤ 29 }
    ensures { result.items ≡ name.now ++ operands_shape operands }
{
    joined(name.as_bytes(), &operands_shape(operands))
}

/// How the frames of an opcode look after their addresses, as `play MODE`, if the opcode has a name.
pub fn frame_shape(code: u8) -> Option<ArrayVec<u8, 48>>
    ensures { option_map (λ s. s.items) result ≡ frame_shape code }
{
    Some(shaped(name(code)?, operands_of(code)))
}
