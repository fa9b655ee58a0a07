//! The word of what a device from outside holds.
ghost use Rattle.std.specs.Prelude.{◌≡◌, ◌==◌};
ghost use Rattle.std.specs.List.{list_any};
ghost use Rattle.text_core.specs.Phys.{digit_value};
ghost use Rattle.room_script.specs.Holding.{address_at, are_addresses, hold_of, is_address};

use device_core::{Act, MoreHeld};
use line_frames::Addr;
use text_core::{byte_at, digit_value, is_hex_digit};

fn is_address(byte: u8) -> bool
    ensures { result ≡ is_address byte }
{
    is_hex_digit(byte) && byte < b'f'
}

fn is_among(digit: u8, word: &[u8]) -> bool
    ensures { result ≡ list_any (λ other. other == digit) word.now }
{
    word.iter().any(|other| *other == digit)
}

/// Whether a word is addresses with a plus between, none of which stands twice.
fn are_addresses(word: &[u8]) -> bool
    ensures { result ≡ are_addresses word.now }
{
    match word {
        [] => false,
        [digit] => is_address(*digit),
        [digit, plus, rest @ ..] => {
            is_address(*digit) && *plus == b'+' && !is_among(*digit, rest) && are_addresses(rest)
        }
    }
}

/// The address of a digit, below 15.
fn address_of(byte: u8) -> Addr
    ensures { result ≡ digit_value byte }
{
    Addr::new(digit_value(byte))
}

/// The address at a place, where the word is so long.
fn address_at(word: &[u8], place: usize) -> Option<Addr>
    ensures { result ≡ address_at word.now place }
{
    if place < word.len() {
        Some(address_of(byte_at(word, place)))
    } else {
        None
    }
}

/// What the word says: `-`, or one to four different logical addresses.
pub fn hold_in(word: &[u8]) -> Option<Act>
    ensures { result ≡ hold_of word.now }
{
    if word == b"-".as_slice() {
        return Some(Act::Hold {
            first: Addr::new(15),
            second: None,
            more: MoreHeld {
                third: None,
                fourth: None,
            },
        });
    }
    if word.len() > 7 || !are_addresses(word) {
        return None;
    }
    Some(Act::Hold {
        first: address_of(byte_at(word, 0)),
        second: address_at(word, 2),
        more: MoreHeld {
            third: address_at(word, 4),
            fourth: address_at(word, 6),
        },
    })
}
