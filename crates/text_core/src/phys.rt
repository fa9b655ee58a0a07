//! Physical addresses: the path of ports from the root to a device.
ghost use Rattle.std.specs.Prelude.{◌≡◌, ◌<◌, length, IfSome, Some};
ghost use Rattle.text_core.specs.Phys.{digit_value, has_digits, has_dots, is_hex_digit, nibbles, phys_at, phys_of};
ghost use Rattle.text_core.specs.Piece.{phys_text};
ghost use Rattle.text_core.specs.declared.phys.Phys.{Phys as PhysValue};

use crate::piece::hex_digit;

/// A physical address of four nibbles, as `1.2.0.0` (HDMI 1.4, 8.7.2). `high` has the first two
/// nibbles and `low` the last two.
#[derive(Clone, Copy, Debug, PartialEq, Eq)]
pub struct Phys {
    pub high: u8,
    pub low: u8,
}

/// Whether a byte is a hex digit in lower case.
pub fn is_hex_digit(byte: u8) -> bool
    ensures { result ≡ is_hex_digit byte }
{
    matches!(byte, b'0'..=b'9' | b'a'..=b'f')
}

/// What a hex digit counts. A byte that is none counts as some digit.
pub fn digit_value(byte: u8) -> u8
    ensures value { result ≡ digit_value byte }
    ensures in_range { result < 16 }
{
    if byte < b'a' {
        byte.saturating_sub(b'0') % 16
    } else {
        (byte - 87) % 16
    }
}

fn has_dots(text: &[u8]) -> bool
    requires { length text.now ≡ 7 }
    ensures { result ≡ has_dots text.now }
{
    text[1] == b'.' && text[3] == b'.' && text[5] == b'.'
}

fn has_digits(text: &[u8]) -> bool
    requires { length text.now ≡ 7 }
    ensures { result ≡ has_digits text.now }
{
    is_hex_digit(text[0]) && is_hex_digit(text[2]) && is_hex_digit(text[4]) && is_hex_digit(text[6])
}

fn phys_at(text: &[u8]) -> Phys
    requires { length text.now ≡ 7 }
    ensures { result ≡ phys_at text.now }
{
    Phys {
        high: digit_value(text[0]) * 16 + digit_value(text[2]),
        low: digit_value(text[4]) * 16 + digit_value(text[6]),
    }
}

impl Phys {
    /// The address of four nibbles, the first uppermost.
    pub fn of_nibbles(a: u8, b: u8, c: u8, d: u8) -> Phys
        requires a { a < 16 }
        requires b { b < 16 }
        requires c { c < 16 }
        requires d { d < 16 }
        ensures { result ≡ nibbles a b c d }
    {
        Phys {
            high: a * 16 + b,
            low: c * 16 + d,
        }
    }

    /// The address as it stands in a text.
    pub fn text(self) -> [u8; 7]
        ensures { result ≡ phys_text self }
    {
        [
            hex_digit(self.high / 16),
            b'.',
            hex_digit(self.high % 16),
            b'.',
            hex_digit(self.low / 16),
            b'.',
            hex_digit(self.low % 16),
        ]
    }

    /// The address that a text spells: four hex digits in lower case with dots between them.
    pub fn read(text: &[u8]) -> Option<Phys>
        ensures value { result ≡ phys_of text.now }
        ensures text { IfSome result (λ phys. phys_text phys ≡ text.now) }
        ensures only { (phys : PhysValue) → phys.high < 256 → phys.low < 256 → phys_text phys ≡ text.now → result ≡ Some phys }
    {
        if text.len() != 7 || !has_dots(text) || !has_digits(text) {
            return None;
        }
        Some(phys_at(text))
    }
}
