//! Numbers of a unit, in nanoseconds.
ghost use Rattle.std.specs.Prelude.{◌≡◌, ◌+◌, ◌*◌, ◌<◌, ◌≤◌};
ghost use Rattle.capture_csv.specs.Unit.{nanos_by, nanos_from, nanos_of};

use crate::clock::cut_decimals;
use crate::column::TimeUnit;
use text_core::{after, before, len_before, number_in};

/// The most whole seconds of a time, and the same in the other units.
const MOST_SECONDS: u64 = 9_999_999_999;

const MOST_MILLISECONDS: u64 = 9_999_999_999_999;

const MOST_MICROSECONDS: u64 = 9_999_999_999_999_999;

const MOST_NANOSECONDS: u64 = 9_999_999_999_999_999_999;

/// The most billionths below a unit.
const MOST_PART: u64 = 999_999_999;

// The nanoseconds of whole units, and of billionths of one.
fn nanos_from(unit: TimeUnit, whole: u64, part: u64) -> Option<u64>
    requires small { part ≤ 999999999 }
    ensures { result ≡ nanos_from unit whole part }
{
    match unit {
        TimeUnit::Seconds => {
            if whole > MOST_SECONDS {
                None
            } else {
                Some(whole * 1_000_000_000 + part)
            }
        }
        TimeUnit::Milliseconds => {
            if whole > MOST_MILLISECONDS {
                None
            } else {
                Some(whole * 1_000_000 + part / 1_000)
            }
        }
        TimeUnit::Microseconds => {
            if whole > MOST_MICROSECONDS {
                None
            } else {
                Some(whole * 1_000 + part / 1_000_000)
            }
        }
        TimeUnit::Nanoseconds => {
            if whole > MOST_NANOSECONDS {
                None
            } else {
                Some(whole)
            }
        }
    }
}

/// The nanoseconds of whole units, and of billionths of one, where both are known.
pub fn nanos_by(unit: TimeUnit, whole: Option<u64>, part: Option<u64>) -> Option<u64>
    ensures { result ≡ nanos_by unit whole part }
{
    let (whole, part) = (whole?, part?);
    if part > MOST_PART {
        return None;
    }
    nanos_from(unit, whole, part)
}

/// Nanoseconds of whole units, and perhaps a dot and decimals, of which nine are read.
pub fn nanos_of(unit: TimeUnit, word: &[u8]) -> Option<u64>
    ensures { result ≡ nanos_of unit word.now }
{
    let dot = len_before(word, b'.');
    nanos_by(
        unit,
        number_in(before(word, dot)),
        cut_decimals(after(word, dot + 1)),
    )
}
