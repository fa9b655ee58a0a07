//! The factor by which the times of a capture are multiplied.
ghost use Rattle.std.specs.Prelude.{◌≡◌};
ghost use Rattle.std.specs.Option.{option_map};
ghost use Rattle.capture_scale.specs.Factor.{fraction_in, halves, in_range, scale_by, scale_of, split_scale, whole_scale};

use capture_core::decimals_in;
use text_core::number_in;

/// The factor by which a capture stays as it is: 1, in ten-thousandths.
pub const AS_IT_IS: u64 = 10_000;

/// The greatest factor: 1,000, in ten-thousandths.
pub(crate) const MOST_SCALE: u64 = 10_000_000;

// What stands before the first `.` of a word, and what stands after it, where it has one.
fn halves(word: &str) -> Option<(&str, &str)>
    ensures { option_map (λ parts. (parts.0.now, parts.1.now)) result ≡ halves word.now }
{
    word.split_once('.')
}

// One to four decimals, in ten-thousandths.
fn fraction_in(text: &[u8]) -> Option<u64>
    ensures { result ≡ fraction_in text.now }
{
    if text.is_empty() || text.len() > 4 {
        return None;
    }
    let nanos = decimals_in(text)?;
    Some(nanos / 100_000)
}

fn in_range(factor: u64) -> Option<u64>
    ensures { result ≡ in_range factor }
{
    if 1 <= factor && factor <= MOST_SCALE {
        Some(factor)
    } else {
        None
    }
}

fn scale_by(whole: u64, fraction: u64) -> Option<u64>
    ensures { result ≡ scale_by whole fraction }
{
    if whole > 1_000 || fraction > 9_999 {
        None
    } else {
        in_range(whole * 10_000 + fraction)
    }
}

fn whole_scale(word: &[u8]) -> Option<u64>
    ensures { result ≡ whole_scale word.now }
{
    let whole = number_in(word)?;
    scale_by(whole, 0)
}

fn split_scale(whole: &[u8], decimals: &[u8]) -> Option<u64>
    ensures { result ≡ split_scale whole.now decimals.now }
{
    let whole = number_in(whole)?;
    let fraction = fraction_in(decimals)?;
    scale_by(whole, fraction)
}

/// A number of at most four decimals, from 0.0001 to 1000, in ten-thousandths. Its whole part is in digits without leading zeros.
pub fn scale_of(word: &str) -> Option<u64>
    ensures { result ≡ scale_of word.now }
{
    match halves(word) {
        None => whole_scale(word.as_bytes()),
        Some((whole, decimals)) => split_scale(whole.as_bytes(), decimals.as_bytes()),
    }
}
