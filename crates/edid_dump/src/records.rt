//! Records of Intel HEX (Intel, Hexadecimal Object File Format Specification, 1988).
ghost use Rattle.std.specs.Prelude.{◌≡◌, ◌%◌, length, sum, MatchOption, IsSome, Some, None};
ghost use Rattle.std.specs.Option.{option_map};
ghost use Rattle.edid_dump.specs.Digits.{bytes_with_row, pairs};
ghost use Rattle.edid_dump.specs.Records.{data_among, data_of, is_record, record_data};
ghost use Rattle.edid_dump.specs.declared.digits.Column.TheVariants.{Absent};

use crate::digits::{Column, pair_count, push_pairs};
use arrayvec::ArrayVec;
use text_core::{after, before, byte_at};

/// The bytes of a record beside its data: their count, two of the address, its type and the sum.
const FRAME: usize = 5;

/// The most bytes of a record.
const MOST: usize = 260;

// What the bytes add up to, modulo 256.
fn sum_of(bytes: &[u8]) -> u8
    ensures { result ≡ sum bytes.now % 256 }
{
    let mut total = 0u8;
    for byte in bytes {
        total = total.wrapping_add(*byte);
    }
    total
}

// Whether the bytes are a whole record of data.
fn is_record(bytes: &[u8]) -> bool
    ensures { result ≡ is_record bytes.now }
{
    FRAME <= bytes.len()
        && (bytes.len() <= MOST
            && (bytes.len() == usize::from(byte_at(bytes, 0)) + FRAME
                && (byte_at(bytes, 3) == 0 && sum_of(bytes) == 0)))
}

// The bytes that the digits of a text spell, where they are no more than a record has.
#[tactic(auto, using(crate::proofs::Recording::none_read))]
fn bytes_of(text: &[u8]) -> Option<ArrayVec<u8, 512>>
    ensures { MatchOption result (record_data text.now ≡ None) (λ bytes. record_data text.now ≡ data_of (Some bytes.items)) }
{
    let Some(count) = pair_count(Column::Absent, text) else {
        return None;
    };
    if count > MOST {
        return None;
    }
    let mut bytes = ArrayVec::new();
    push_pairs(Column::Absent, text, &mut bytes);
    Some(bytes)
}

/// The data of a record, whose digits follow its colon. Its address is not looked at.
pub fn data_in(text: &[u8]) -> Option<ArrayVec<u8, 512>>
    ensures { MatchOption result (record_data text.now ≡ None) (λ found. record_data text.now ≡ Some found.items) }
{
    let Some(bytes) = bytes_of(text) else {
        return None;
    };
    if !is_record(&bytes) {
        return None;
    }
    Some(data_of(&bytes))
}

// The data among the bytes of a record.
fn data_of(bytes: &[u8]) -> ArrayVec<u8, 512>
    ensures { result.items ≡ data_among bytes.now }
{
    let mut data = ArrayVec::new();
    let _ = data.try_extend_from_slice(before(after(bytes, 4), usize::from(byte_at(bytes, 0))));
    data
}

/// How many bytes of data a record has.
pub fn record_count(text: &[u8]) -> Option<usize>
    ensures { result ≡ option_map length (record_data text.now) }
{
    match data_in(text) {
        Some(data) => Some(data.len()),
        None => None,
    }
}

// Adds bytes, as far as there is room.
#[tactic(auto, using(crate::proofs::Recording::fill_more, crate::proofs::Pairing::filled_none))]
fn fill(more: &[u8], bytes: &mut ArrayVec<u8, 512>)
    ensures { bytes_with_row bytes.old.items (Some more.now) ≡ Some bytes.new.items }
{
    let mut rest = more;
    'bytes: while !bytes.is_full() {
        let [first, others @ ..] = rest else {
            return;
        };
        bytes.push(*first);
        rest = others;
    }
}

/// Adds the data of a record, as far as there is room.
pub fn push_record(text: &[u8], bytes: &mut ArrayVec<u8, 512>)
    requires { IsSome (record_data text.now) }
    ensures { bytes_with_row bytes.old.items (record_data text.now) ≡ Some bytes.new.items }
{
    match data_in(text) {
        Some(data) => fill(data.as_slice(), bytes),
        None => {}
    }
}
