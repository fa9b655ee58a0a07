//! Digits of a hex dump, and the bytes of their pairs.
ghost use Rattle.std.specs.Prelude.{◌≡◌, ◌+◌, ◌*◌, ◌^◌, ◌<◌, ◌≤◌, length, IsSome, Some, slice_index};
ghost use Rattle.std.specs.Option.{option_map};
ghost use Rattle.edid_dump.specs.Digits.{byte_of, digit, bytes_with_row, is_blank, is_column, octal_of, offset_of, pairs};

use arrayvec::ArrayVec;
use text_core::byte_at;

/// Where the column of characters begins that may follow the digits.
#[derive(Clone, Copy, Debug, PartialEq, Eq)]
pub enum Column {
    /// There is none.
    Absent,
    /// After two spaces.
    AfterGap,
    /// At a bar.
    AfterBar,
    /// At an angle.
    AfterAngle,
}

/// Whether a byte is a space, a tab or a carriage return.
pub fn is_blank(byte: u8) -> bool
    ensures { result ≡ is_blank byte }
{
    byte == b' ' || byte == b'\t' || byte == b'\r'
}

/// What a hex digit counts. A byte that is none counts as some digit.
pub(crate) fn digit(byte: u8) -> u8
    ensures value { result ≡ digit byte }
    ensures small { result < 16 }
{
    if byte < b'A' {
        byte.saturating_sub(b'0') % 16
    } else if byte < b'a' {
        (byte - 55) % 16
    } else {
        (byte - 87) % 16
    }
}

// Whether the column of characters begins here.
fn is_column(column: Column, rest: &[u8]) -> bool
    ensures { result ≡ is_column column rest.now }
{
    match column {
        Column::Absent => false,
        Column::AfterGap => byte_at(rest, 0) == b' ' && byte_at(rest, 1) == b' ',
        Column::AfterBar => byte_at(rest, 0) == b'|',
        Column::AfterAngle => byte_at(rest, 0) == b'>',
    }
}

#[tactic(auto, using(crate::proofs::Pairing::pairs_column, crate::proofs::Pairing::pairs_blank, crate::proofs::Pairing::pairs_lone, crate::proofs::Pairing::pairs_pair, crate::proofs::Pairing::pairs_first, crate::proofs::Pairing::pairs_second, crate::proofs::Pairing::counts_onto, crate::proofs::Pairing::counts_all))]
/// How many bytes pairs of digits spell, where there is nothing but pairs and blanks up to the column.
pub fn pair_count(column: Column, text: &[u8]) -> Option<usize>
    ensures { result ≡ option_map length (pairs column text.now) }
{
    let mut count = 0;
    let mut rest = text;
    'pairs: while let [first, after @ ..] = rest {
        if is_column(column, rest) {
            break;
        }
        if is_blank(*first) {
            rest = after;
        } else {
            let [second, after @ ..] = after else {
                return None;
            };
            if !first.is_ascii_hexdigit() || !second.is_ascii_hexdigit() {
                return None;
            }
            count += 1;
            rest = after;
        }
    }
    Some(count)
}

/// Adds the bytes that pairs of digits spell, as far as there is room.
#[tactic(auto, using(crate::proofs::Pairing::pairs_blank, crate::proofs::Pairing::pairs_lone, crate::proofs::Pairing::pairs_some, crate::proofs::Pairing::filled_onto, crate::proofs::Pairing::some_onto, crate::proofs::Pairing::filled_none, crate::proofs::Pairing::filled_column))]
pub fn push_pairs(column: Column, text: &[u8], bytes: &mut ArrayVec<u8, 512>)
    requires { IsSome (pairs column text.now) }
    ensures { bytes_with_row bytes.old.items (pairs column text.now) ≡ Some bytes.new.items }
{
    let mut rest = text;
    'pairs: while !bytes.is_full() {
        let [first, after @ ..] = rest else {
            return;
        };
        if is_column(column, rest) {
            return;
        }
        if is_blank(*first) {
            rest = after;
        } else {
            let [second, after @ ..] = after else {
                return;
            };
            bytes.push(digit(*first) * 16 + digit(*second));
            rest = after;
        }
    }
}

fn byte_of(line: &[u8], place: usize) -> u64
    requires { place < 8 }
    ensures value { result ≡ byte_of line.now place }
    ensures small { result < 256 }
{
    u64::from(digit(byte_at(line, place)) * 16 + digit(byte_at(line, place + 1)))
}

/// The number that eight digits spell.
pub fn offset_of(line: &[u8]) -> u64
    ensures value { result ≡ offset_of line.now }
    ensures small { result < 2 ^ 32 }
{
    byte_of(line, 0) * 0x100_0000
        + byte_of(line, 2) * 0x1_0000
        + byte_of(line, 4) * 0x100
        + byte_of(line, 6)
}

fn digit_at(line: &[u8], place: usize) -> u64
    ensures value { result ≡ digit (slice_index line.now place) }
    ensures small { result < 16 }
{
    u64::from(digit(byte_at(line, place)))
}

/// The number that seven octal digits spell.
pub fn octal_of(line: &[u8]) -> u64
    ensures value { result ≡ octal_of line.now }
    ensures small { result < 2 ^ 32 }
{
    digit_at(line, 0) * 0o100_0000
        + digit_at(line, 1) * 0o10_0000
        + digit_at(line, 2) * 0o1_0000
        + digit_at(line, 3) * 0o1000
        + digit_at(line, 4) * 0o100
        + digit_at(line, 5) * 0o10
        + digit_at(line, 6)
}
