//! Seconds with decimals.
ghost use Rattle.std.specs.Prelude.{◌≡◌, ◌+◌, ◌*◌, ◌%◌, ◌<◌};
ghost use Rattle.std.specs.List.{list_all};
ghost use Rattle.std.specs.Char.{is_ascii_digit};
ghost use Rattle.capture_core.specs.Seconds.{decimals_of, digit_at, instant_of, nine_digits};

use line_wave::LATEST_INSTANT;
use text_core::byte_at;

fn digit_at(text: &[u8], place: usize) -> u64
    ensures value { result ≡ digit_at text.now place }
    ensures small { result < 256 }
{
    u64::from(byte_at(text, place).saturating_sub(b'0'))
}

fn all_digits(text: &[u8]) -> bool
    ensures { result ≡ list_all is_ascii_digit text.now }
{
    text.iter().all(|b| b.is_ascii_digit())
}

/// The nanoseconds of up to nine decimals of a second. Those that are missing count as 0.
pub fn decimals_in(text: &[u8]) -> Option<u64>
    ensures { result ≡ decimals_of text.now }
{
    if text.len() > 9 || !all_digits(text) {
        return None;
    }
    let front = digit_at(text, 0) * 100_000_000
        + digit_at(text, 1) * 10_000_000
        + digit_at(text, 2) * 1_000_000;
    let middle = digit_at(text, 3) * 100_000
        + digit_at(text, 4) * 10_000
        + digit_at(text, 5) * 1_000;
    let last = digit_at(text, 6) * 100 + digit_at(text, 7) * 10 + digit_at(text, 8);
    Some(front + middle + last)
}

fn digit_of(number: u64) -> u8
    ensures { result ≡ 48 + number % 10 }
{
    b'0' + (number % 10) as u8
}

/// Nine decimals of a second, of which this many microseconds are over: six digits of them, and three zeros.
pub fn nine_digits(micros: u64) -> [u8; 9]
    ensures { result ≡ nine_digits micros }
{
    [
        digit_of(micros / 100_000),
        digit_of(micros / 10_000),
        digit_of(micros / 1_000),
        digit_of(micros / 100),
        digit_of(micros / 10),
        digit_of(micros),
        b'0',
        b'0',
        b'0',
    ]
}

/// The microseconds of nanoseconds, rounded up, within the limit.
pub fn instant_of(nanos: u128) -> Option<u64>
    ensures { result ≡ instant_of nanos }
{
    if nanos > u128::from(LATEST_INSTANT) * 1_000 {
        return None;
    }
    Some(((nanos + 999) / 1_000) as u64)
}
