//! Units of time.
ghost use Rattle.std.specs.Prelude.{◌≡◌, ◌+◌, ◌*◌, ◌^◌, ◌<◌, None, Some};
ghost use Rattle.std.specs.Option.{option_map};
ghost use Rattle.capture_vcd.specs.Scale.{count_times, counted_word, instant_of, micros, of_unit, unit_of};

use line_wave::LATEST_INSTANT;
use text_core::{after, byte_at, number_in};

/// A unit of time.
#[derive(Clone, Copy, Debug, PartialEq, Eq)]
pub enum Unit {
    Second,
    Millisecond,
    Microsecond,
    Nanosecond,
    Picosecond,
    Femtosecond,
}

/// How many units a tick is.
#[derive(Clone, Copy, Debug, PartialEq, Eq)]
pub enum Count {
    One,
    Ten,
    Hundred,
}

/// What a tick is.
#[derive(Clone, Copy, Debug, PartialEq, Eq)]
pub struct Scale {
    pub count: Count,
    pub unit: Unit,
}

/// The unit of a word.
pub fn unit_of(word: &[u8]) -> Option<Unit>
    ensures { result ≡ unit_of word.now }
{
    if word == b"us".as_slice() {
        Some(Unit::Microsecond)
    } else if word == b"ns".as_slice() {
        Some(Unit::Nanosecond)
    } else if word == b"ps".as_slice() {
        Some(Unit::Picosecond)
    } else if word == b"fs".as_slice() {
        Some(Unit::Femtosecond)
    } else if word == b"ms".as_slice() {
        Some(Unit::Millisecond)
    } else if word == b"s".as_slice() {
        Some(Unit::Second)
    } else {
        None
    }
}

/// The count at the front of a word, and what stands after it.
pub fn counted_word(word: &[u8]) -> Option<(Count, &[u8])>
    ensures { option_map (λ c. (c.0, c.1.now)) result ≡ counted_word word.now }
{
    if byte_at(word, 0) != b'1' {
        return None;
    }
    if byte_at(word, 1) != b'0' {
        return Some((Count::One, after(word, 1)));
    }
    if byte_at(word, 2) != b'0' {
        return Some((Count::Ten, after(word, 2)));
    }
    Some((Count::Hundred, after(word, 3)))
}

fn count_times(count: Count, tick: u128) -> u128
    requires { tick < 2 ^ 64 }
    ensures value { result ≡ count_times count tick }
    ensures small { result < 100 * 2 ^ 64 }
{
    match count {
        Count::One => tick,
        Count::Ten => tick * 10,
        Count::Hundred => tick * 100,
    }
}

fn of_unit(unit: Unit, units: u128) -> u128
    requires { units < 100 * 2 ^ 64 }
    ensures { result ≡ of_unit unit units }
{
    match unit {
        Unit::Second => units * 1_000_000,
        Unit::Millisecond => units * 1_000,
        Unit::Microsecond => units,
        Unit::Nanosecond => (units + 999) / 1_000,
        Unit::Picosecond => (units + 999_999) / 1_000_000,
        Unit::Femtosecond => (units + 999_999_999) / 1_000_000_000,
    }
}

// The first whole microsecond that is not before a tick.
fn micros(scale: Scale, tick: u64) -> u128
    ensures { result ≡ micros scale tick }
{
    of_unit(scale.unit, count_times(scale.count, u128::from(tick)))
}

/// The instant of a tick's number, rounded up to whole microseconds, within the limit.
pub fn instant_of(scale: Scale, word: &[u8]) -> Option<u64>
    ensures { result ≡ instant_of scale word.now }
{
    let tick = number_in(word)?;
    if tick == u64::MAX {
        return None;
    }
    let instant = micros(scale, tick);
    if instant <= u128::from(LATEST_INSTANT) {
        Some(instant as u64)
    } else {
        None
    }
}
