//! Times of the day, as ISO 8601 writes them.
ghost use Rattle.std.specs.Prelude.{◌≡◌, ◌<◌, ◌≤◌, position, IfSome};
ghost use Rattle.std.specs.List.{list_all};
ghost use Rattle.std.specs.Char.{is_ascii_digit};
ghost use Rattle.capture_csv.specs.Clock.{begins_zone, clock_fraction, clock_seconds, cut_decimals, day, days, days_before, fraction_of, in_ranges, is_clock, is_date, is_leap, is_offset, is_two, leap_day, leap_days, month, seconds, two_at, utc_by, year, zone_in, zone_of};

use capture_core::decimals_in;
use text_core::{after, before, byte_at};

/// How many decimals are read; those after them are cut.
const DECIMALS: usize = 9;

/// Where the fraction of the seconds stands, or the zone.
const AFTER_SECONDS: usize = 19;

const FIRST_YEAR: u64 = 1970;
/// The leap days before that year, from the year 1 on.
const LEAP_DAYS_BEFORE: u64 = 477;

/// The days of a year before each month, without a leap day.
const DAYS_BEFORE: [u64; 12] = [0, 31, 59, 90, 120, 151, 181, 212, 243, 273, 304, 334];

const SECONDS_OF_A_DAY: u64 = 86_400;

/// How far a clock is from that of UTC.
#[derive(Clone, Copy, Debug, PartialEq, Eq)]
pub struct Zone {
    pub is_ahead: bool,
    pub minutes: u64,
}

fn all_digits(text: &[u8]) -> bool
    ensures { result ≡ list_all is_ascii_digit text.now }
{
    text.iter().all(|b| b.is_ascii_digit())
}

/// The billionths of decimals. Those after the ninth are cut.
pub fn cut_decimals(text: &[u8]) -> Option<u64>
    ensures { result ≡ cut_decimals text.now }
{
    if all_digits(text) {
        decimals_in(before(text, DECIMALS))
    } else {
        None
    }
}

fn is_two(text: &[u8], place: usize) -> bool
    requires near { place < 1000 }
    ensures { result ≡ is_two text.now place }
{
    byte_at(text, place).is_ascii_digit() && byte_at(text, place + 1).is_ascii_digit()
}

fn two_at(text: &[u8], place: usize) -> u64
    requires near { place < 1000 }
    ensures value { result ≡ two_at text.now place }
    ensures small { result < 3000 }
{
    let tens = u64::from(byte_at(text, place).saturating_sub(b'0'));
    let ones = u64::from(byte_at(text, place + 1).saturating_sub(b'0'));
    tens * 10 + ones
}

fn is_date(text: &[u8]) -> bool
    ensures { result ≡ is_date text.now }
{
    is_two(text, 0)
        && is_two(text, 2)
        && byte_at(text, 4) == b'-'
        && is_two(text, 5)
        && byte_at(text, 7) == b'-'
        && is_two(text, 8)
}

fn is_clock(text: &[u8]) -> bool
    ensures { result ≡ is_clock text.now }
{
    byte_at(text, 10) == b'T'
        && is_two(text, 11)
        && byte_at(text, 13) == b':'
        && is_two(text, 14)
        && byte_at(text, 16) == b':'
        && is_two(text, 17)
}

fn year(text: &[u8]) -> u64
    ensures value { result ≡ year text.now }
    ensures small { result < 400000 }
{
    two_at(text, 0) * 100 + two_at(text, 2)
}

fn in_ranges(text: &[u8]) -> bool
    ensures { result ≡ in_ranges text.now }
{
    FIRST_YEAR <= year(text)
        && 1 <= two_at(text, 5)
        && two_at(text, 5) <= 12
        && 1 <= two_at(text, 8)
        && two_at(text, 8) <= 31
        && two_at(text, 11) < 24
        && two_at(text, 14) < 60
        && two_at(text, 17) < 60
}

fn is_leap(year: u64) -> bool
    ensures { result ≡ is_leap year }
{
    year % 4 == 0 && (year % 100 != 0 || year % 400 == 0)
}

fn leap_day(year: u64, month: u64) -> u64
    ensures value { result ≡ leap_day year month }
    ensures small { result ≤ 1 }
{
    if is_leap(year) && month > 2 { 1 } else { 0 }
}

fn leap_days(year: u64) -> u64
    requires small { year < 400000 }
    ensures value { result ≡ leap_days year }
    ensures small { result < 200000 }
{
    let before = year.saturating_sub(1);
    (before / 4 + before / 400).saturating_sub(before / 100)
}

fn days_before(month: u64) -> u64
    ensures value { result ≡ days_before month }
    ensures small { result < 400 }
{
    match DAYS_BEFORE.get(month.saturating_sub(1) as usize) {
        None => 0,
        Some(days) => *days,
    }
}

// Days from 1970-01-01 on.
fn days(text: &[u8]) -> u64
    ensures value { result ≡ days text.now }
    ensures small { result < 200000000 }
{
    let (year, month) = (year(text), two_at(text, 5));
    year.saturating_sub(FIRST_YEAR) * 365
        + leap_days(year).saturating_sub(LEAP_DAYS_BEFORE)
        + days_before(month)
        + leap_day(year, month)
        + two_at(text, 8).saturating_sub(1)
}

// Seconds from then on, by the digits of the day.
fn seconds(text: &[u8]) -> u64
    ensures value { result ≡ seconds text.now }
    ensures small { result < 20000000000000 }
{
    days(text) * SECONDS_OF_A_DAY
        + two_at(text, 11) * 3_600
        + two_at(text, 14) * 60
        + two_at(text, 17)
}

fn zone_at(rest: &[u8]) -> Option<usize>
    ensures { result ≡ position begins_zone rest.now }
{
    rest.iter()
        .position(|b| *b == b'Z' || *b == b'+' || *b == b'-')
}

// Where the zone begins after the seconds.
fn zone_in(rest: &[u8]) -> usize
    ensures { result ≡ zone_in rest.now }
{
    match zone_at(rest) {
        Some(place) => place,
        None => rest.len(),
    }
}

fn fraction_of(text: &[u8]) -> Option<u64>
    ensures { result ≡ fraction_of text.now }
{
    if text.is_empty() {
        Some(0)
    } else if byte_at(text, 0) == b'.' {
        cut_decimals(after(text, 1))
    } else {
        None
    }
}

fn is_offset(text: &[u8]) -> bool
    ensures { result ≡ is_offset text.now }
{
    text.len() == 6
        && (byte_at(text, 0) == b'+' || byte_at(text, 0) == b'-')
        && is_two(text, 1)
        && byte_at(text, 3) == b':'
        && is_two(text, 4)
}

fn zone_of(text: &[u8]) -> Option<Zone>
    ensures value { result ≡ zone_of text.now }
    ensures small { IfSome result (λ zone. zone.minutes < 200000) }
{
    if text.is_empty() || (text.len() == 1 && byte_at(text, 0) == b'Z') {
        Some(Zone {
            is_ahead: false,
            minutes: 0,
        })
    } else if is_offset(text) {
        Some(Zone {
            is_ahead: byte_at(text, 0) == b'+',
            minutes: two_at(text, 1) * 60 + two_at(text, 4),
        })
    } else {
        None
    }
}

// Seconds of UTC.
fn utc_by(zone: Option<Zone>, seconds: u64) -> Option<u64>
    requires zone { IfSome zone (λ zone. zone.minutes < 200000) }
    requires small { seconds < 20000000000000 }
    ensures { result ≡ utc_by zone seconds }
{
    let zone = zone?;
    if !zone.is_ahead {
        Some(seconds + zone.minutes * 60)
    } else {
        seconds.checked_sub(zone.minutes * 60)
    }
}

/// The seconds of a time of the day since 1970-01-01 at the clock of UTC.
pub fn clock_seconds(text: &[u8]) -> Option<u64>
    ensures { result ≡ clock_seconds text.now }
{
    if !(is_date(text) && is_clock(text) && in_ranges(text)) {
        return None;
    }
    let rest = after(text, AFTER_SECONDS);
    utc_by(zone_of(after(rest, zone_in(rest))), seconds(text))
}

/// The nanoseconds below a second of a time of the day.
pub fn clock_fraction(text: &[u8]) -> Option<u64>
    ensures { result ≡ clock_fraction text.now }
{
    let rest = after(text, AFTER_SECONDS);
    fraction_of(before(rest, zone_in(rest)))
}
