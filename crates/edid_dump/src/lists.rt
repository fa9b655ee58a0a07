//! Lists of bytes, as programs and registries have them, with remarks, and words of two bytes.
ghost use Rattle.std.specs.Prelude.{◌≡◌, ◌+◌, ◌≤◌, length, IsSome, Some};
ghost use Rattle.std.specs.Option.{option_map, option_copied};
ghost use Rattle.std.specs.List.{list_all};
ghost use Rattle.edid_dump.specs.Remarks.{after_close, are_signs, begins, code_bytes, is_last, is_remark, remark_at, some_count};
ghost use Rattle.edid_dump.specs.Digits.{bytes_with_row, is_between, is_named, is_opening, is_prefix, list_start, listed, opened_at, swapped};

use crate::digits::{digit, is_blank};
use arrayvec::ArrayVec;
use text_core::{after, before, byte_at};

/// What a registry has before the bytes of a value.
const NAMED: &[u8] = b"hex:";

// Whether a byte may stand between those of a list, or end it.
fn is_between(byte: u8) -> bool
    ensures { result ≡ is_between byte }
{
    is_blank(byte)
        || byte == b','
        || byte == b':'
        || byte == b'\\'
        || byte == b'}'
        || byte == b';'
        || byte == b'>'
}

fn is_prefix(first: u8, second: u8) -> bool
    ensures { result ≡ is_prefix first second }
{
    first == b'0' && (second == b'x' || second == b'X')
}

/// How many bytes a list has, where there is nothing else.
#[tactic(auto, using(crate::proofs::Listing::listed_between, crate::proofs::Listing::listed_lone, crate::proofs::Listing::listed_prefix, crate::proofs::Listing::listed_pair, crate::proofs::Listing::listed_first, crate::proofs::Listing::listed_second, crate::proofs::Pairing::counts_onto, crate::proofs::Pairing::counts_all))]
pub fn listed_count(text: &[u8]) -> Option<usize>
    ensures { result ≡ option_map length (listed text.now) }
{
    let mut count = 0;
    let mut rest = text;
    'bytes: while let [first, after @ ..] = rest {
        if is_between(*first) {
            rest = after;
        } else {
            let [second, after @ ..] = after else {
                return None;
            };
            if is_prefix(*first, *second) {
                rest = after;
            } else {
                if !first.is_ascii_hexdigit() || !second.is_ascii_hexdigit() {
                    return None;
                }
                count += 1;
                rest = after;
            }
        }
    }
    Some(count)
}

/// Adds the bytes of a list, as far as there is room.
#[tactic(auto, using(crate::proofs::Listing::listed_between, crate::proofs::Listing::listed_lone, crate::proofs::Listing::listed_prefix, crate::proofs::Listing::listed_some, crate::proofs::Pairing::filled_onto, crate::proofs::Pairing::some_onto, crate::proofs::Pairing::filled_none))]
pub fn push_listed(text: &[u8], bytes: &mut ArrayVec<u8, 512>)
    requires { IsSome (listed text.now) }
    ensures { bytes_with_row bytes.old.items (listed text.now) ≡ Some bytes.new.items }
{
    let mut rest = text;
    'bytes: while !bytes.is_full() {
        let [first, after @ ..] = rest else {
            return;
        };
        if is_between(*first) {
            rest = after;
        } else {
            let [second, after @ ..] = after else {
                return;
            };
            if !is_prefix(*first, *second) {
                bytes.push(digit(*first) * 16 + digit(*second));
            }
            rest = after;
        }
    }
}

/// Whether a text begins with another one.
pub fn begins(text: &[u8], front: &[u8]) -> bool
    ensures { result ≡ begins front.now text.now }
{
    before(text, front.len()) == front
}

// Whether a remark begins here.
fn is_remark(rest: &[u8]) -> bool
    ensures { result ≡ is_remark rest.now }
{
    byte_at(rest, 0) == b'#' || begins(rest, b"//") || begins(rest, b"/*")
}

// Where the first remark of a line begins.
fn remark_in(text: &[u8]) -> Option<usize>
    ensures { result ≡ remark_at 0 text.now }
{
    let mut place = 0;
    let mut rest = text;
    'bytes: while let [_first, others @ ..] = rest {
        if is_remark(rest) {
            return Some(place);
        }
        place += 1;
        rest = others;
    }
    None
}

// What stands after the end of a remark.
fn after_close(text: &[u8]) -> Option<&[u8]>
    ensures { option_copied result ≡ after_close text.now }
{
    let mut rest = text;
    'bytes: while let [first, others @ ..] = rest {
        if *first == b'*' && byte_at(others, 0) == b'/' {
            return Some(after(others, 1));
        }
        rest = others;
    }
    None
}

fn are_between(text: &[u8]) -> bool
    ensures { result ≡ list_all is_between text.now }
{
    text.iter().all(|b| is_between(*b))
}

// Whether a remark ends, and nothing stands after it but what may stand between bytes.
#[tactic(auto, using(crate::proofs::Remarking::signs_after, crate::proofs::Remarking::never_closed))]
fn is_closed(text: &[u8]) -> bool
    ensures { result ≡ are_signs (after_close text.now) }
{
    match after_close(text) {
        Some(others) => are_between(others),
        None => false,
    }
}

// Whether nothing stands after a remark, but what may stand between bytes.
fn is_last(remark: &[u8]) -> bool
    ensures { result ≡ is_last remark.now }
{
    if begins(remark, b"/*") {
        is_closed(after(remark, 2))
    } else {
        true
    }
}

/// How many bytes a list has, where nothing else stands beside it but a remark at its end.
#[tactic(auto, using(crate::proofs::Remarking::code_plain, crate::proofs::Remarking::code_open))]
pub fn code_count(text: &[u8]) -> Option<usize>
    ensures { result ≡ option_map length (code_bytes text.now) }
{
    match remark_in(text) {
        None => listed_count(text),
        Some(place) => {
            if is_last(after(text, place)) {
                some_of(listed_count(before(text, place)))
            } else {
                None
            }
        }
    }
}

// A count that is not 0.
fn some_of(count: Option<usize>) -> Option<usize>
    ensures { result ≡ some_count count }
{
    match count {
        Some(count) => { if count == 0 { None } else { Some(count) } }
        None => None,
    }
}

/// Adds the bytes of such a list, as far as there is room.
pub fn push_code(text: &[u8], bytes: &mut ArrayVec<u8, 512>)
    requires { IsSome (code_bytes text.now) }
    ensures { bytes_with_row bytes.old.items (code_bytes text.now) ≡ Some bytes.new.items }
{
    match remark_in(text) {
        None => push_listed(text, bytes),
        Some(place) => push_listed(before(text, place), bytes),
    }
}

fn is_opening(byte: u8) -> bool
    ensures { result ≡ is_opening byte }
{
    byte == b'<' || byte == b'{'
}

fn is_named(rest: &[u8]) -> bool
    ensures { result ≡ is_named rest.now }
{
    before(rest, 4) == NAMED
}

/// Where the list of a line begins: after what opens it, or with the line.
pub fn list_start(line: &[u8]) -> usize
    ensures { result ≡ list_start line.now }
{
    let mut place = 0;
    let mut rest = line;
    'bytes: while let [first, after @ ..] = rest {
        if is_opening(*first) {
            return place + 1;
        }
        if is_named(rest) {
            return place + 4;
        }
        place += 1;
        rest = after;
    }
    0
}

/// The bytes of words, of each of which the high byte is printed first.
#[tactic(auto, using(crate::proofs::Listing::swapped_more, crate::proofs::Listing::swapped_last))]
pub fn swapped(bytes: &ArrayVec<u8, 512>) -> ArrayVec<u8, 512>
    ensures { result.items ≡ swapped bytes.now.items }
{
    let mut words: ArrayVec<u8, 512> = ArrayVec::new();
    let mut rest = bytes.as_slice();
    'words: while let [low, after @ ..] = rest {
        let [high, after @ ..] = after else {
            words.push(*low);
            return words;
        };
        words.push(*high);
        words.push(*low);
        rest = after;
    }
    words
}
