//! The words of a line before its frame: the instant, and the fault.
ghost use Rattle.std.specs.Prelude.{◌≡◌, ◌≤◌, ◌+◌, ◌<◌, Ok, Err, IfOk, IfSome, MatchResult};
ghost use Rattle.line_wave.specs.Bounds.{latest_event};
ghost use Rattle.std.specs.Option.{option_copied};
ghost use Rattle.text_core.specs.Words.{words_after};
ghost use Rattle.message_lay.specs.Words.{bit_in, eom_of, fault_after, fault_in, fault_of, glitch_of, is_too_wide, number_in, numbers_in, second_in, third_in, time_in, times_in, verb_of, verb_words};

use crate::bits::BitTimes;
use crate::fault::LayCause;
use crate::pulls::Fault;
use line_wave::{LATEST_EVENT, WIDEST_PULL};
use text_core::{AtWord, at_word, first_word};

/// The verb of a fault.
#[derive(Clone, Copy, Debug, PartialEq, Eq)]
pub enum Verb {
    Eom,
    Bit,
    Start,
    Last,
    Drive,
    Glitch,
}

/// The numbers after the verb of a fault, 0 where it has fewer.
#[derive(Clone, Copy, Debug, PartialEq, Eq)]
pub struct FaultNumbers {
    pub first: u64,
    pub second: u64,
    pub third: u64,
}

/// The instant of a word.
pub fn time_in(word: &[u8]) -> Option<u64>
    ensures time { result ≡ time_in word.now }
    ensures early { IfSome result (λ time. time ≤ latest_event) }
{
    let time = text_core::number_in(word)?;
    if time > LATEST_EVENT {
        None
    } else {
        Some(time)
    }
}

fn verb_of(word: &[u8]) -> Option<Verb>
    ensures { result ≡ verb_of word.now }
{
    if word == b"eom".as_slice() {
        Some(Verb::Eom)
    } else if word == b"bit".as_slice() {
        Some(Verb::Bit)
    } else if word == b"start".as_slice() {
        Some(Verb::Start)
    } else if word == b"last".as_slice() {
        Some(Verb::Last)
    } else if word == b"drive".as_slice() {
        Some(Verb::Drive)
    } else if word == b"glitch".as_slice() {
        Some(Verb::Glitch)
    } else {
        None
    }
}

/// How many numbers stand after a verb.
fn verb_words(verb: Verb) -> usize
    ensures count { result ≡ verb_words verb }
    ensures few { result ≤ 3 }
{
    match verb {
        Verb::Last | Verb::Drive => 1,
        Verb::Eom | Verb::Start => 2,
        Verb::Bit | Verb::Glitch => 3,
    }
}

/// The number of the next word, which has this number, and what stands after it.
fn number_in<'a>(
    rest: Option<&'a [u8]>,
    at: usize,
) -> Result<(u64, Option<&'a [u8]>), AtWord<LayCause>>
    ensures { MatchResult result
        (λ p. number_in at (words_after (option_copied rest.entry)) ≡ Ok (p.0, words_after (option_copied p.1)))
        (λ fault. number_in at (words_after (option_copied rest.entry)) ≡ Err fault) }
{
    let Some(line) = rest else {
        return Err(at_word(at, LayCause::Word));
    };
    let (word, after) = first_word(line);
    match text_core::number_in(word) {
        None => Err(at_word(at, LayCause::Number)),
        Some(number) => Ok((number, after)),
    }
}

// The third number of a fault.
fn third_in<'a>(
    first: u64,
    second: u64,
    rest: Option<&'a [u8]>,
) -> Result<(FaultNumbers, Option<&'a [u8]>), AtWord<LayCause>>
    ensures { MatchResult result
        (λ p. third_in first second (number_in 4 (words_after (option_copied rest.entry))) ≡ Ok (p.0, words_after (option_copied p.1)))
        (λ fault. third_in first second (number_in 4 (words_after (option_copied rest.entry))) ≡ Err fault) }
{
    match number_in(rest, 4) {
        Err(fault) => Err(fault),
        Ok((third, after)) => Ok((
            FaultNumbers {
                first,
                second,
                third,
            },
            after,
        )),
    }
}

// The numbers of a fault after the first.
fn second_in<'a>(
    count: usize,
    first: u64,
    rest: Option<&'a [u8]>,
) -> Result<(FaultNumbers, Option<&'a [u8]>), AtWord<LayCause>>
    ensures { MatchResult result
        (λ p. second_in count first (number_in 3 (words_after (option_copied rest.entry))) ≡ Ok (p.0, words_after (option_copied p.1)))
        (λ fault. second_in count first (number_in 3 (words_after (option_copied rest.entry))) ≡ Err fault) }
{
    match number_in(rest, 3) {
        Err(fault) => Err(fault),
        Ok((second, after)) => {
            if count <= 2 {
                return Ok((
                    FaultNumbers {
                        first,
                        second,
                        third: 0,
                    },
                    after,
                ));
            }
            third_in(first, second, after)
        }
    }
}

/// So many numbers, one to three, and what stands after them.
fn numbers_in<'a>(
    count: usize,
    rest: Option<&'a [u8]>,
) -> Result<(FaultNumbers, Option<&'a [u8]>), AtWord<LayCause>>
    ensures { MatchResult result
        (λ p. numbers_in count (words_after (option_copied rest.entry)) ≡ Ok (p.0, words_after (option_copied p.1)))
        (λ fault. numbers_in count (words_after (option_copied rest.entry)) ≡ Err fault) }
{
    match number_in(rest, 2) {
        Err(fault) => Err(fault),
        Ok((first, after)) => {
            if count <= 1 {
                return Ok((
                    FaultNumbers {
                        first,
                        second: 0,
                        third: 0,
                    },
                    after,
                ));
            }
            second_in(count, first, after)
        }
    }
}

fn is_too_wide(width: u64) -> bool
    ensures { result ≡ is_too_wide width }
{
    width > WIDEST_PULL
}

/// The times of a bit, whose low is the word of this number.
fn times_in(at: usize, low: u64, total: u64) -> Result<BitTimes, AtWord<LayCause>>
    requires { at < 8 }
    ensures { result ≡ times_in at low total }
{
    if low == 0 || is_too_wide(low) {
        return Err(at_word(at, LayCause::Width));
    }
    if total <= low || is_too_wide(total) {
        return Err(at_word(at + 1, LayCause::Width));
    }
    Ok(BitTimes {
        low: low as u32,
        total: total as u32,
    })
}

fn bit_in(number: u64) -> Option<bool>
    ensures { result ≡ bit_in number }
{
    match number {
        0 => Some(false),
        1 => Some(true),
        _ => None,
    }
}

fn eom_of(block: u64, bit: Option<bool>) -> Result<Fault, AtWord<LayCause>>
    ensures { result ≡ eom_of block bit }
{
    match bit {
        None => Err(at_word(3, LayCause::Number)),
        Some(bit) => Ok(Fault::Eom { block, bit }),
    }
}

fn glitch_of(slot: u64, after: u64, low: u64) -> Result<Fault, AtWord<LayCause>>
    ensures { result ≡ glitch_of slot after low }
{
    if is_too_wide(after) {
        return Err(at_word(3, LayCause::Width));
    }
    if low == 0 || is_too_wide(low) {
        return Err(at_word(4, LayCause::Width));
    }
    Ok(Fault::Glitch {
        slot,
        after: after as u32,
        low: low as u32,
    })
}

/// The fault of a verb and its numbers.
fn fault_of(verb: Verb, numbers: FaultNumbers) -> Result<Fault, AtWord<LayCause>>
    ensures { result ≡ fault_of verb numbers }
{
    match verb {
        Verb::Eom => eom_of(numbers.first, bit_in(numbers.second)),
        Verb::Bit => match times_in(3, numbers.second, numbers.third) {
            Err(fault) => Err(fault),
            Ok(times) => Ok(Fault::Bit {
                slot: numbers.first,
                times,
            }),
        },
        Verb::Start => match times_in(2, numbers.first, numbers.second) {
            Err(fault) => Err(fault),
            Ok(times) => Ok(Fault::Start { times }),
        },
        Verb::Last => Ok(Fault::Last {
            slot: numbers.first,
        }),
        Verb::Drive => Ok(Fault::Drive {
            slot: numbers.first,
        }),
        Verb::Glitch => glitch_of(numbers.first, numbers.second, numbers.third),
    }
}

// The fault of a verb, and what stands after its numbers.
fn fault_after<'a>(
    verb: Verb,
    rest: Option<&'a [u8]>,
) -> Result<(Fault, usize, Option<&'a [u8]>), AtWord<LayCause>>
    ensures bounded { IfOk result (λ p. p.1 < 8) }
    ensures read { MatchResult result
        (λ p. fault_after verb (numbers_in (verb_words verb) (words_after (option_copied rest.entry))) ≡ Ok (record { fault = p.0; at = p.1; words = words_after (option_copied p.2) }))
        (λ fault. fault_after verb (numbers_in (verb_words verb) (words_after (option_copied rest.entry))) ≡ Err fault) }
{
    let count = verb_words(verb);
    match numbers_in(count, rest) {
        Err(fault) => Err(fault),
        Ok((numbers, after)) => match fault_of(verb, numbers) {
            Err(fault) => Err(fault),
            Ok(fault) => Ok((fault, 2 + count, after)),
        },
    }
}

/// The fault of the words after the instant, the number of the word after it, and what stands from that word on. A line has no
/// fault where the word after its instant is no verb of one.
pub fn fault_in<'a>(
    rest: Option<&'a [u8]>,
) -> Result<(Fault, usize, Option<&'a [u8]>), AtWord<LayCause>>
    ensures bounded { IfOk result (λ p. p.1 < 8) }
    ensures read { MatchResult result
        (λ p. fault_in (words_after (option_copied rest.entry)) ≡ Ok (record { fault = p.0; at = p.1; words = words_after (option_copied p.2) }))
        (λ fault. fault_in (words_after (option_copied rest.entry)) ≡ Err fault) }
{
    let Some(line) = rest else {
        return Ok((Fault::Absent, 1, None));
    };
    let (word, after) = first_word(line);
    match verb_of(word) {
        None => Ok((Fault::Absent, 1, Some(line))),
        Some(verb) => fault_after(verb, after),
    }
}
