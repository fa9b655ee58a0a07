//! A line of a file of pin events.
ghost use Rattle.std.specs.Prelude.{◌≡◌, ◌+◌, ◌*◌, ◌<◌};
ghost use Rattle.capture_pin.specs.Pin.{code_of, event_cut, event_of, fraction_of, nanos_of, start_in_comment, word_at_fault, word_start};

use capture_core::decimals_in;
use text_core::{after, before, byte_at, len_before, number_in};

/// What a line says.
#[derive(Clone, Copy, Debug, PartialEq, Eq)]
pub struct PinEvent {
    /// The time in nanoseconds.
    pub nanos: u128,
    /// Whether the line is low, where the event is one of the CEC pin.
    pub low: Option<bool>,
}

// Nine digits.
fn fraction_of(text: &[u8]) -> Option<u64>
    ensures { result ≡ fraction_of text.now }
{
    if text.len() != 9 {
        return None;
    }
    decimals_in(text)
}

// Whether the CEC line is low by an event's code: 0 low, 1 high, 2 to 5 other pins, with 65,536 more where events were lost.
fn code_of(word: &[u8]) -> Option<Option<bool>>
    ensures { result ≡ code_of word.now }
{
    let code = number_in(word)?;
    if code == 0 || code == 65_536 {
        Some(Some(true))
    } else if code == 1 || code == 65_537 {
        Some(Some(false))
    } else if code <= 5 || (65_538 <= code && code <= 65_541) {
        Some(None)
    } else {
        None
    }
}

// Nanoseconds.
fn nanos_of(seconds: &[u8], fraction: &[u8]) -> Option<u128>
    ensures { result ≡ nanos_of seconds.now fraction.now }
{
    let whole = number_in(seconds)?;
    let nanos = fraction_of(fraction)?;
    Some(u128::from(whole) * 1_000_000_000 + u128::from(nanos))
}

// What a line says, cut at its dot.
fn event_cut(seconds: &[u8], rest: &[u8]) -> Option<PinEvent>
    ensures { result ≡ event_cut seconds.now rest.now }
{
    if byte_at(rest, 9) != b' ' {
        return None;
    }
    let nanos = nanos_of(seconds, before(rest, 9))?;
    let low = code_of(after(rest, 10))?;
    Some(PinEvent { nanos, low })
}

/// What a line says: seconds, a dot, nine digits, a space, a code.
pub fn event_of(line: &[u8]) -> Option<PinEvent>
    ensures { result ≡ event_of line.now }
{
    let dot = len_before(line, b'.');
    event_cut(before(line, dot), after(line, dot + 1))
}

// A time in seconds, a dot and nine digits.
fn time_in(word: &[u8]) -> Option<u128>
    ensures { result ≡ word_start word.now }
{
    let dot = len_before(word, b'.');
    nanos_of(before(word, dot), after(word, dot + 1))
}

/// The start that a comment gives, if it gives one.
pub fn start_in_comment(line: &[u8]) -> Option<u128>
    ensures { result ≡ start_in_comment line.now }
{
    if before(line, 18) == b"# start_monotonic ".as_slice() {
        time_in(after(line, 18))
    } else {
        None
    }
}

/// The word at fault of a line that is refused, counted from 0: its code, where that is none after a time, and else its time.
pub fn word_at_fault(line: &[u8]) -> usize
    ensures { result ≡ word_at_fault line.now }
{
    let space = len_before(line, b' ');
    if time_in(before(line, space)).is_some() && code_of(after(line, space + 1)).is_none() {
        1
    } else {
        0
    }
}
