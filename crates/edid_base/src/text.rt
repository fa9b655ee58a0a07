//! A text of at most 13 characters.
ghost use Rattle.std.specs.Prelude.{◌≡◌, ◌==◌, IsTrue, false, true, length, MatchOption};
ghost use Rattle.std.specs.List.{prefix_len, list_all};
ghost use Rattle.edid_base.specs.Chars.{is_char, is_text, is_padding, is_text_form, text_bytes};

use crate::parts::append;
use arrayvec::ArrayVec;

/// A text of a descriptor: printable ASCII without quotes.
#[derive(Drop)]
pub struct Text {
    pub chars: ArrayVec<u8, 13>,
    ghost printable: { IsTrue (is_text chars.items) },
}

fn is_char(byte: u8) -> bool
    ensures { result ≡ is_char byte }
{
    0x20 <= byte && byte <= 0x7e && byte != 0x22
}

/// Whether all characters may stand in a descriptor.
fn are_chars(chars: &[u8]) -> bool
    ensures { result ≡ list_all is_char chars.now }
{
    chars.iter().all(|byte| is_char(*byte))
}

/// How many characters stand in front.
fn front_len(bytes: &[u8]) -> usize
    ensures { result ≡ prefix_len is_char bytes.now }
{
    bytes.iter().take_while(|byte| is_char(**byte)).count()
}

/// Whether all bytes are spaces.
fn are_spaces(bytes: &[u8]) -> bool
    ensures { result ≡ list_all (λ b. b == 0x20) bytes.now }
{
    bytes.iter().all(|byte| *byte == 0x20)
}

/// Whether the bytes are nothing, or a line feed and spaces.
fn is_padding(bytes: &[u8]) -> bool
    ensures { result ≡ is_padding bytes.now }
{
    match bytes {
        [] => true,
        [first, spaces @ ..] => *first == 0x0a && are_spaces(spaces),
    }
}

impl Text {
    ghost use Rattle.edid_base.specs.declared.text.Text.{Text as TextValue};

    /// The text with these characters, where they can be those of one.
    pub fn new(chars: &[u8]) -> Option<Text>
        ensures { MatchOption result ((t : TextValue) → t.chars.items ≡ chars.now → ⊥) (λ t. t.chars.items ≡ chars.now) }
    {
        if chars.len() > 13 || !are_chars(chars) {
            return None;
        }
        let mut text = ArrayVec::new();
        let _ = text.try_extend_from_slice(chars);
        Some(Text { chars: text })
    }

    /// The text that 13 bytes spell.
    pub fn read(bytes: &[u8]) -> Option<Text>
        requires { length bytes.now ≡ 13 }
        ensures { MatchOption result (is_text_form bytes.now ≡ false) (λ t. (is_text_form bytes.now ≡ true) × (text_bytes t.chars.items ≡ bytes.now)) }
    {
        let (front, rest) = bytes.split_at(front_len(bytes));
        if !is_padding(rest) {
            return None;
        }
        let mut chars = ArrayVec::new();
        let _ = chars.try_extend_from_slice(front);
        Some(Text { chars })
    }

    /// The same text.
    pub fn copy(&self) -> Text
        ensures { result ≡ self.now }
    {
        let mut chars = ArrayVec::new();
        append(&mut chars, self.chars.as_slice());
        Text { chars }
    }

    /// Its 13 bytes.
    pub fn write(&self) -> [u8; 13]
        ensures { result ≡ text_bytes self.now.chars.items }
    {
        let mut bytes = [0x20; 13];
        let len = self.chars.len();
        bytes[..len].copy_from_slice(self.chars.as_slice());
        if len < 13 {
            bytes[len] = 0x0a;
        }
        bytes
    }
}
