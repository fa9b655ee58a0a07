//! The verdict of a capture.
ghost use Rattle.std.specs.Prelude.{◌≡◌, IfOk};
ghost use Rattle.capture_verdict.specs.Lists.{first_some};
ghost use Rattle.capture_verdict.specs.Verdicts.{HintReadsMore, IsFirst, IsVerdict, after_plain, after_readings, other_readings};

use crate::lines::{cause_of, last_verdict, plain_verdict};
use crate::readings::other_reading;
use capture_core::Capture;
use std::alloc::{AllocError, Global};

/// What a captured line is. Times are in microseconds.
#[derive(Clone, Copy, Debug, PartialEq, Eq)]
pub enum Verdict {
    /// It has no edge, and takes no time.
    Empty,
    /// It does not fall up to its end.
    Idle { end: u64 },
    /// Nine frames of ten are in order, and it begins within one.
    MidFrame { frames: u64, in_order: u64 },
    /// Nine frames of ten are in order.
    Fine { frames: u64, in_order: u64 },
    /// It falls as the mains do.
    Hum { period: u64 },
    /// Read the other way round, so many more readings are complete.
    Inverted { more: u64 },
    /// Without so many pulses and gaps, which are shorter than `glitch`, so many more are.
    Glitches { count: u64, glitch: u64, more: u64 },
    /// Its falls stand as in frames, in another unit of time: so long is the shortest time from fall to fall.
    TimeUnit { period: u64 },
    /// It is low for so long, in stretches that are longer than any of CEC.
    Stuck { low: u64 },
    /// Its samples are so far apart.
    Rate { period: u64 },
    /// By windows that are wider by a margin, so many more readings are complete.
    Nearly { margin: u64, more: u64 },
    /// Its falls stand as in frames, by a clock that is off.
    Clock { period: u64 },
    /// Most of its low stretches are too short for CEC.
    Bus { lows: u64 },
    /// No block is read, and it has few low stretches.
    Short { lows: u64 },
    /// No block is read, and it has many.
    Noise { lows: u64 },
    /// So many of its frames are in order.
    Odd { frames: u64, in_order: u64 },
}

// Of a line that is not fine, and of which no more is read otherwise.
fn caused_verdict(capture: &Capture) -> Verdict
    ensures { IsFirst capture.now (after_readings capture.now) result }
{
    match cause_of(capture) {
        None => last_verdict(capture),
        Some(verdict) => verdict,
    }
}

// The same after the readings that read more.
fn unsteady_by(capture: &Capture, other: Option<Verdict>) -> Verdict
    requires { other ≡ first_some (other_readings capture.now) }
    ensures { IsFirst capture.now (after_plain capture.now) result }
{
    match other {
        None => caused_verdict(capture),
        Some(verdict) => verdict,
    }
}

// Of a line that is not fine.
fn unsteady_verdict(alloc: Global, capture: &Capture) -> Result<Verdict, AllocError>
    ensures { IfOk result (λ v. IsFirst capture.now (after_plain capture.now) v) }
{
    let other = other_reading(alloc, capture)?;
    Ok(unsteady_by(capture, other))
}

fn first_verdict(alloc: Global, capture: &Capture) -> Result<Verdict, AllocError>
    ensures { IfOk result (λ v. IsVerdict capture.now v) }
{
    match plain_verdict(capture) {
        None => unsteady_verdict(alloc, capture),
        Some(verdict) => Ok(verdict),
    }
}

/// The verdict of a captured line: the first of a list whose predicate holds. Of a line with a hint more readings are complete where it is
/// read so. A line that is fine is read once; another one is read again by each hint that may read more of it.
///
/// # Errors
///
/// No memory for the line turned or smoothed.
pub fn verdict_of(alloc: Global, capture: &Capture) -> Result<Verdict, AllocError>
    ensures verdict { IfOk result (λ v. IsVerdict capture.now v) }
    ensures hint { IfOk result (λ v. HintReadsMore capture.now v) }
{
    first_verdict(alloc, capture)
}
