//! Hex numbers. Each reader takes any text; where the text has hex digits, it finds their value.
ghost use Rattle.std.specs.Prelude.{◌≡◌, ◌≤◌, ◌+◌, ◌*◌, length};
ghost use Rattle.text_core.specs.Hex.{hex_at, hex_byte, hex_bytes};

use crate::parts::byte_at;
use crate::phys::{digit_value, is_hex_digit};
use arrayvec::ArrayVec;

/// The byte whose hex digits stand at these places.
pub fn hex_at(text: &[u8], high: usize, low: usize) -> u8
    ensures { result ≡ hex_at text.now high low }
{
    digit_value(byte_at(text, high)) * 16 + digit_value(byte_at(text, low))
}

/// The byte that a word of two hex digits in lower case spells.
pub fn hex_byte(word: &[u8]) -> Option<u8>
    ensures { result ≡ hex_byte word.now }
{
    let [high, low] = word else {
        return None;
    };
    if is_hex_digit(*high) && is_hex_digit(*low) {
        Some(digit_value(*high) * 16 + digit_value(*low))
    } else {
        None
    }
}

/// The bytes of hex digits, two a byte.
pub fn hex_bytes<const N: usize>(digits: &[u8]) -> ArrayVec<u8, N>
    requires { length digits.now ≤ 2 * N }
    ensures { result.items ≡ hex_bytes digits.now }
{
    let mut items = ArrayVec::new();
    let mut rest = digits;
    while let [high, low, more @ ..] = rest {
        items.push(digit_value(*high) * 16 + digit_value(*low));
        rest = more;
    }
    items
}
