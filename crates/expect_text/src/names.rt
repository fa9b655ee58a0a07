//! Names of devices in the header of a pattern.
ghost use Rattle.std.specs.Prelude.{◌≡◌, ◌+◌, ◌<◌, ◌≤◌, ◌^◌, true, length, IfSome};
ghost use Rattle.std.specs.List.{list_any};
ghost use Rattle.std.specs.Option.{option_copied, option_map};
ghost use Rattle.text_core.specs.Lines.{lines_of};
ghost use Rattle.expect_text.specs.Fits.{fits};
ghost use Rattle.expect_text.specs.Said.{is_said};
ghost use Rattle.expect_text.specs.Senders.{judged_as};
ghost use Rattle.expect_text.specs.Names.{after_front, at_place, for_byte, for_first, has_name, has_names, holds_in, is_held_after, is_meetable, last_from, meets, name_length, named_after, named_as, named_in, unmet_from, unmet_word, with_byte};

use crate::form::{ExpectLine, form_in};
use crate::line::unlabelled;
use crate::named::NamedPattern;
use crate::part::Judged;
use crate::pattern::fits;
use crate::said::is_said;
use arrayvec::ArrayVec;
use text_core::{before, first_line};

/// The most bytes of a pattern.
const MOST: usize = 160;

/// The last digits of the addresses that a device can hold: all below 15.
const ADDRESSES: &[u8] = b"0123456789abcde";

// The place of the first `@` of the first word.
fn at_place(pattern: &[u8]) -> Option<usize>
    ensures value { result ≡ at_place pattern.now }
    ensures within { IfSome result (λ place. place < length pattern.now) }
{
    match pattern {
        [] => None,
        [b'@', ..] => Some(0),
        [b' ', ..] => None,
        [_, others @ ..] => match at_place(others) {
            None => None,
            Some(place) => Some(place + 1),
        },
    }
}

// How many bytes stand before the first `>` or space.
fn name_length(text: &[u8]) -> usize
    ensures value { result ≡ name_length text.now }
    ensures within { result ≤ length text.now }
{
    match text {
        [] => 0,
        [b'>' | b' ', ..] => 0,
        [_, others @ ..] => name_length(others) + 1,
    }
}

// The name with which a text begins, after this front.
fn named_after<'a>(front: &'a [u8], text: &'a [u8]) -> NamedPattern<'a>
    requires { length front.now + length text.now < 160 }
    ensures { named_as result ≡ named_after front.now text.now }
{
    let (name, rest) = text.split_at(name_length(text));
    NamedPattern { front, name, rest }
}

/// The first name of a pattern, where it has one.
#[tactic(auto, unfolding(crate::specs::Names::named_in))]
pub fn named_in(pattern: &[u8]) -> Option<NamedPattern<'_>>
    ensures { option_map named_as result ≡ named_in pattern.now }
{
    if pattern.len() > MOST {
        return None;
    }
    match at_place(pattern) {
        None => None,
        Some(place) => {
            let (front, text) = pattern.split_at(place);
            let (_at, text) = text.split_at(1);
            Some(named_after(front, text))
        }
    }
}

fn with_byte(named: &NamedPattern<'_>, byte: u8) -> ArrayVec<u8, 160>
    ensures { result.items ≡ with_byte (named_as named.now) byte }
{
    let mut pattern = ArrayVec::new();
    let _ = pattern.try_extend_from_slice(named.front);
    pattern.push(byte);
    let _ = pattern.try_extend_from_slice(named.rest);
    pattern
}

fn last_from<'a>(word: &'a [u8], text: &'a [u8]) -> &'a [u8]
    ensures { result.now ≡ last_from word.now text.now }
{
    match text {
        [] => word,
        [b' ', others @ ..] => last_from(others, others),
        [_, others @ ..] => last_from(word, others),
    }
}

fn after_front<'a>(front: &[u8], text: &'a [u8]) -> Option<&'a [u8]>
    ensures { option_copied result ≡ after_front front.now text.now }
{
    match front {
        [] => Some(text),
        [due, rest @ ..] => match text {
            [] => None,
            [byte, others @ ..] => {
                if byte == due {
                    after_front(rest, others)
                } else {
                    None
                }
            }
        },
    }
}

fn is_held_after(byte: u8, text: Option<&[u8]>) -> bool
    ensures { result ≡ is_held_after byte (option_copied text.entry) }
{
    match text {
        None => false,
        Some(text) => after_front(&[b'=', byte, b'@'], text).is_some(),
    }
}

// Whether a device holds an address, by the last word of a line.
fn holds_in(word: &[u8], name: &[u8], byte: u8) -> bool
    ensures { result ≡ holds_in word.now name.now byte }
{
    match word {
        [] => false,
        [first, others @ ..] => {
            (*first == b'@' && is_held_after(byte, after_front(name, others)))
                || holds_in(others, name, byte)
        }
    }
}

// ---- patterns that a line meets

// Whether a pattern fits with one of these bytes, each of an address that the device holds, in the place of the name.
fn fits_by(word: &[u8], named: &NamedPattern<'_>, bytes: &[u8], text: &[u8]) -> bool
    ensures { result ≡ for_byte (holds_in word.now) (λ p. fits p text.now) (named_as named.now) bytes.now }
{
    match bytes {
        [] => false,
        [byte, others @ ..] => {
            (holds_in(word, named.name, *byte) && fits(&with_byte(named, *byte), text))
                || fits_by(word, named, others, text)
        }
    }
}

#[tactic(auto, unfolding(crate::specs::Names::for_first))]
fn fits_first(word: &[u8], pattern: &[u8], text: &[u8]) -> bool
    ensures { result ≡ for_first (holds_in word.now) (λ p. fits p text.now) pattern.now }
{
    match named_in(pattern) {
        None => fits(pattern, text),
        Some(named) => fits_by(word, &named, ADDRESSES, text),
    }
}

// The same of a pattern that has another name after that one.
fn meets_by(word: &[u8], named: &NamedPattern<'_>, bytes: &[u8], text: &[u8]) -> bool
    ensures { result ≡ for_byte (holds_in word.now) (for_first (holds_in word.now) (λ p. fits p text.now)) (named_as named.now) bytes.now }
{
    match bytes {
        [] => false,
        [byte, others @ ..] => {
            (holds_in(word, named.name, *byte) && fits_first(word, &with_byte(named, *byte), text))
                || meets_by(word, named, others, text)
        }
    }
}

/// Whether what a line says meets a pattern: where it has names, with one of the addresses that the last word of the line says that
/// the device holds in the place of each.
#[tactic(auto, unfolding(crate::specs::Names::meets))]
pub fn meets(pattern: &[u8], text: &[u8]) -> bool
    ensures { result ≡ meets pattern.now text.now }
{
    match named_in(pattern) {
        None => fits(pattern, text),
        Some(named) => meets_by(last_from(text, text), &named, ADDRESSES, text),
    }
}

// ---- patterns that some line meets

// Whether a pattern can be met with one of these bytes in the place of the name.
fn said_by(who: Judged<'_>, named: &NamedPattern<'_>, bytes: &[u8]) -> bool
    ensures { result ≡ for_byte (λ name b. true) (is_said (judged_as who.entry)) (named_as named.now) bytes.now }
{
    match bytes {
        [] => false,
        [byte, others @ ..] => {
            is_said(who, &with_byte(named, *byte)) || said_by(who, named, others)
        }
    }
}

#[tactic(auto, unfolding(crate::specs::Names::for_first))]
fn said_first(who: Judged<'_>, pattern: &[u8]) -> bool
    ensures { result ≡ for_first (λ name b. true) (is_said (judged_as who.entry)) pattern.now }
{
    match named_in(pattern) {
        None => is_said(who, pattern),
        Some(named) => said_by(who, &named, ADDRESSES),
    }
}

// The same of a pattern that has another name after that one.
fn meetable_by(who: Judged<'_>, named: &NamedPattern<'_>, bytes: &[u8]) -> bool
    ensures { result ≡ for_byte (λ name b. true) (for_first (λ name b. true) (is_said (judged_as who.entry))) (named_as named.now) bytes.now }
{
    match bytes {
        [] => false,
        [byte, others @ ..] => {
            said_first(who, &with_byte(named, *byte)) || meetable_by(who, named, others)
        }
    }
}

/// Whether a pattern can be met: by what the line of some round says, with some address in the place of each name.
#[tactic(auto, unfolding(crate::specs::Names::is_meetable))]
pub fn is_meetable(who: Judged<'_>, pattern: &[u8]) -> bool
    ensures { result ≡ is_meetable (judged_as who.entry) pattern.now }
{
    match named_in(pattern) {
        None => is_said(who, pattern),
        Some(named) => meetable_by(who, &named, ADDRESSES),
    }
}

/// The word at fault of a pattern that no line meets, counted from 0: the first with which its front is met by none.
pub(crate) fn unmet_word(who: Judged<'_>, pattern: &[u8]) -> usize
    ensures value { result ≡ unmet_word (judged_as who.entry) pattern.now }
    ensures bounded { result < 2 ^ 63 }
{
    let mut rest = pattern;
    let mut place = 0usize;
    let mut number = 0usize;
    'bytes: while let [byte, others @ ..] = rest {
        if *byte == b' ' {
            if !is_meetable(who, before(pattern, place)) {
                return number;
            }
            number += 1;
        }
        place += 1;
        rest = others;
    }
    number
}

// ---- scripts with names

// Whether a line expects rounds by a pattern with a name.
fn has_name(line: &[u8]) -> bool
    ensures { result ≡ has_name line.now }
{
    match form_in(unlabelled(line).rest) {
        Err(_) => false,
        Ok(form) => match form {
            ExpectLine::Other => false,
            ExpectLine::Rounds { pattern, .. } => named_in(pattern).is_some(),
            ExpectLine::State { .. } => false,
            ExpectLine::Refused { .. } => false,
            ExpectLine::Unremarked { .. } => false,
        },
    }
}

/// Whether an expectation of a script has a pattern with a name.
pub fn has_names(script: &[u8]) -> bool
    ensures { result ≡ has_names script.now }
{
    let mut rest = script;
    'lines: while let Some((line, after)) = first_line(rest) {
        if has_name(line) {
            return true;
        }
        rest = after;
    }
    false
}
