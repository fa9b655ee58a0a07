//! Verdicts of lines of which more is read otherwise: turned, or without short pulses and gaps.
ghost use Rattle.std.specs.Prelude.{◌≡◌, ◌<◌, IfOk, nat_lt, true};
ghost use Rattle.capture_invert.specs.Inverted.{inverted_edges};
ghost use Rattle.capture_smooth.specs.Smooth.{smooth_edges};
ghost use Rattle.capture_signs.specs.Signs.{short_below};
ghost use Rattle.capture_verdict.specs.Lists.{first_some};
ghost use Rattle.capture_verdict.specs.Verdicts.{above, complete, glitch_of, glitches_by, glitches_of, inverted_by, inverted_of, other_readings, smoothed, turned};

use crate::counts::{complete, is_low, sum};
use crate::verdict::Verdict;
use capture_core::Capture;
use capture_invert::invert;
use capture_signs::{Sign, longest_short};
use capture_smooth::smooth_edges;
use std::alloc::{AllocError, Global};

// How many readings are complete of the line turned, which is this one.
fn count_turned(_capture: &Capture, other: &Capture) -> u64
    requires edges { other.now.edges ≡ inverted_edges _capture.now.edges }
    requires end { other.now.end ≡ _capture.now.end }
    ensures { result ≡ complete (turned _capture.now) }
{
    complete(other)
}

fn complete_turned(alloc: Global, capture: &Capture) -> Result<u64, AllocError>
    ensures { IfOk result (λ n. n ≡ complete (turned capture.now)) }
{
    let other = invert(alloc, capture)?;
    Ok(count_turned(capture, &other))
}

// The same of the line without pulses and gaps that are shorter.
fn count_smoothed(_glitch: u64, _capture: &Capture, other: &Capture) -> u64
    requires edges { other.now.edges ≡ smooth_edges _glitch _capture.now.edges }
    requires end { other.now.end ≡ _capture.now.end }
    ensures { result ≡ complete (smoothed _glitch _capture.now) }
{
    complete(other)
}

fn complete_smoothed(alloc: Global, capture: &Capture, glitch: u64) -> Result<u64, AllocError>
    ensures { IfOk result (λ n. n ≡ complete (smoothed glitch capture.now)) }
{
    let other = smooth_edges(alloc, capture, glitch)?;
    Ok(count_smoothed(glitch, capture, &other))
}

fn inverted_by(low: bool, plain: u64, other: u64) -> Option<Verdict>
    ensures { result ≡ inverted_by low plain other }
{
    if low && plain < other {
        Some(Verdict::Inverted {
            more: other.saturating_sub(plain),
        })
    } else {
        None
    }
}

fn inverted_low(alloc: Global, capture: &Capture) -> Result<Option<Verdict>, AllocError>
    ensures { IfOk result (λ v. v ≡ inverted_by true (complete capture.now) (complete (turned capture.now))) }
{
    let other = complete_turned(alloc, capture)?;
    Ok(inverted_by(true, complete(capture), other))
}

fn inverted_of(alloc: Global, capture: &Capture) -> Result<Option<Verdict>, AllocError>
    ensures { IfOk result (λ v. v ≡ inverted_of capture.now) }
{
    if is_low(capture) {
        inverted_low(alloc, capture)
    } else {
        Ok(None)
    }
}

fn above(longest: u64) -> u64
    requires { longest < short_below }
    ensures { result ≡ above longest }
{
    10 * (longest / 10) + 10
}

#[tactic(auto, unfolding(crate::specs::Verdicts::glitch_of))]
fn glitch_of(capture: &Capture) -> u64
    ensures { result ≡ glitch_of capture.now }
{
    above(longest_short(capture.edges()))
}

fn glitches_by(count: u64, glitch: u64, plain: u64, other: u64) -> Option<Verdict>
    ensures { result ≡ glitches_by count glitch plain other }
{
    if count > 0 && plain < other {
        Some(Verdict::Glitches {
            count,
            glitch,
            more: other.saturating_sub(plain),
        })
    } else {
        None
    }
}

fn glitches_short(
    alloc: Global,
    capture: &Capture,
    count: u64,
) -> Result<Option<Verdict>, AllocError>
    ensures { IfOk result (λ v. v ≡ glitches_by count (glitch_of capture.now) (complete capture.now) (complete (smoothed (glitch_of capture.now) capture.now))) }
{
    let glitch = glitch_of(capture);
    let other = complete_smoothed(alloc, capture, glitch)?;
    Ok(glitches_by(count, glitch, complete(capture), other))
}

fn is_any(count: u64) -> bool
    ensures { result ≡ nat_lt 0 count }
{
    count > 0
}

fn glitches_of(alloc: Global, capture: &Capture) -> Result<Option<Verdict>, AllocError>
    ensures { IfOk result (λ v. v ≡ glitches_of capture.now) }
{
    let count = sum(Sign::ShortPulses, capture);
    if is_any(count) {
        glitches_short(alloc, capture, count)
    } else {
        Ok(None)
    }
}

// After the line turned.
fn later_reading(
    alloc: Global,
    capture: &Capture,
    inverted: Option<Verdict>,
) -> Result<Option<Verdict>, AllocError>
    requires { inverted ≡ inverted_of capture.now }
    ensures { IfOk result (λ v. v ≡ first_some (other_readings capture.now)) }
{
    match inverted {
        None => glitches_of(alloc, capture),
        Some(verdict) => Ok(Some(verdict)),
    }
}

/// The first of the readings that read more.
pub(crate) fn other_reading(alloc: Global, capture: &Capture) -> Result<Option<Verdict>, AllocError>
    ensures { IfOk result (λ v. v ≡ first_some (other_readings capture.now)) }
{
    let inverted = inverted_of(alloc, capture)?;
    later_reading(alloc, capture, inverted)
}
