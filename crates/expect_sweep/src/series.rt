//! Series of instants, in the place of a time of a script.
ghost use Rattle.std.specs.Prelude.{◌≡◌, ◌≤◌, ◌<◌, IfSome, length};
ghost use Rattle.line_wave.specs.Bounds.{latest_event};
ghost use Rattle.expect_sweep.specs.Series.{is_range, positive, series_in, series_to, series_until, step_at, steps_between, time_in_range};

use expect_text::RangeCause;
use line_wave::LATEST_EVENT;
use std::marker::Model;
use text_core::{after, before, byte_at, len_before, number_in};

/// The most instants of a range: each costs a run.
const MOST_INSTANTS: u64 = 1_000_000;

/// The instants from one to another, one every so many microseconds.
#[derive(Debug, Drop)]
pub(crate) struct InstantSeries {
    from: u64,
    to: u64,
    step: u64,
}

impl Model for InstantSeries {
    ghost use Rattle.expect_sweep.specs.Series.{IsSeries, InstantSeries};

    ghost Value = { InstantSeries };

    ghost view = { λ s. record { from = s.from; to = s.to; step = s.step } };

    ghost invariant = { λ s. IsSeries (record { from = s.from; to = s.to; step = s.step }) };
}

impl InstantSeries {
    ghost use Rattle.expect_sweep.specs.Order.{last_of};
    ghost use Rattle.expect_sweep.specs.Series.{IsSeries, instants_of};

    /// The first instant.
    pub(crate) fn from(&self) -> u64
        ensures from { result ≡ self.now.from }
        ensures series { IsSeries self.now }
    {
        self.from
    }

    /// The time after which no instant comes.
    pub(crate) fn to(&self) -> u64
        ensures to { result ≡ self.now.to }
        ensures series { IsSeries self.now }
    {
        self.to
    }

    /// The last instant.
    #[tactic(auto, using(crate::proofs::Ordered::remainder_within))]
    pub(crate) fn last(&self) -> u64
        ensures { result ≡ last_of self.now }
    {
        let (from, to, step) = (self.from(), self.to(), self.step());
        to - (to - from) % step
    }

    /// How many instants there are.
    #[tactic(auto, using(crate::proofs::Instants::counted))]
    pub(crate) fn count(&self) -> u64
        ensures { result ≡ length (instants_of self.now) }
    {
        steps_between(self.from(), self.to(), self.step()) + 1
    }

    /// How many microseconds lie between two instants.
    pub(crate) fn step(&self) -> u64
        ensures step { result ≡ self.now.step }
        ensures series { IsSeries self.now }
    {
        self.step
    }
}

/// Whether a word is meant as a range: its first point is followed by another.
pub(crate) fn is_range(word: &[u8]) -> bool
    ensures { result ≡ is_range word.now }
{
    let point = len_before(word, b'.');
    byte_at(word, point) == b'.' && byte_at(word, point + 1) == b'.'
}

// A time within the limit.
fn time_in_range(number: Option<u64>) -> Option<u64>
    ensures value { result ≡ time_in_range number }
    ensures early { IfSome result (λ time. time ≤ latest_event) }
{
    match number {
        None => None,
        Some(time) => {
            if time <= LATEST_EVENT {
                Some(time)
            } else {
                None
            }
        }
    }
}

fn positive(number: Option<u64>) -> Option<u64>
    ensures value { result ≡ positive number }
    ensures moves { IfSome result (λ step. 0 < step) }
{
    match number {
        None => None,
        Some(step) => { if step == 0 { None } else { Some(step) } }
    }
}

// The step after a slash, or 1 where there is none.
fn step_at(text: &[u8], slash: usize) -> Option<u64>
    ensures value { result ≡ step_at text.now slash }
    ensures moves { IfSome result (λ step. 0 < step) }
{
    if slash < text.len() {
        positive(time_in_range(number_in(after(text, slash + 1))))
    } else {
        Some(1)
    }
}

// How many steps lie between two times, one fewer than instants.
fn steps_between(from: u64, to: u64, step: u64) -> u64
    requires forward { from ≤ to }
    requires moves { 0 < step }
    ensures { result ≡ steps_between from to step }
{
    (to - from) / step
}

fn series_to(from: u64, to: u64, step: u64) -> Result<InstantSeries, RangeCause>
    requires { (to ≤ latest_event) × (0 < step) }
    ensures { result ≡ series_to from to step }
{
    if to < from {
        Err(RangeCause::Order)
    } else if steps_between(from, to, step) < MOST_INSTANTS {
        Ok(InstantSeries { from, to, step })
    } else {
        Err(RangeCause::Range)
    }
}

// Up to a time, with a step or without.
fn series_until(from: Option<u64>, text: &[u8]) -> Result<InstantSeries, RangeCause>
    ensures { result ≡ series_until from text.now }
{
    let slash = len_before(text, b'/');
    let Some(from) = from else {
        return Err(RangeCause::Number);
    };
    let Some(to) = time_in_range(number_in(before(text, slash))) else {
        return Err(RangeCause::Number);
    };
    let Some(step) = step_at(text, slash) else {
        return Err(RangeCause::Number);
    };
    series_to(from, to, step)
}

/// The series of a range.
///
/// # Errors
///
/// The first cause.
pub(crate) fn series_in(word: &[u8]) -> Result<InstantSeries, RangeCause>
    ensures { result ≡ series_in word.now }
{
    let point = len_before(word, b'.');
    series_until(
        time_in_range(number_in(before(word, point))),
        after(word, point + 2),
    )
}
