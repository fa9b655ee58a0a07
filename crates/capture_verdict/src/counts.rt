//! What is counted of a capture.
ghost use Rattle.std.specs.Prelude.{◌≡◌};
ghost use Rattle.capture_verdict.specs.Verdicts.{complete, is_framed, is_framed_by, is_low, is_most, is_stuck, pieces, shortest, sum};

use capture_advice::complete_by;
use capture_core::Capture;
use capture_signs::{PieceCounts, RunKind, Sign, counts_of, run_count, shortest_period, signed};

#[tactic(auto, unfolding(crate::specs::Verdicts::pieces))]
pub(crate) fn pieces(capture: &Capture) -> PieceCounts
    ensures { result ≡ pieces capture.now }
{
    counts_of(capture.edges(), capture.end())
}

#[tactic(auto, unfolding(crate::specs::Verdicts::sum))]
pub(crate) fn sum(sign: Sign, capture: &Capture) -> u64
    ensures { result ≡ sum sign capture.now }
{
    signed(sign, capture.end(), capture.edges())
}

#[tactic(auto, unfolding(crate::specs::Verdicts::shortest))]
pub(crate) fn shortest(capture: &Capture) -> u64
    ensures { result ≡ shortest capture.now }
{
    shortest_period(capture.edges())
}

/// How many readings are complete.
pub(crate) fn complete(capture: &Capture) -> u64
    ensures { result ≡ complete capture.now }
{
    complete_by(capture, 0)
}

pub(crate) fn is_most(part: u64, whole: u64) -> bool
    ensures { result ≡ is_most part whole }
{
    part.saturating_add(part) > whole
}

#[tactic(auto, unfolding(crate::specs::Verdicts::is_stuck))]
pub(crate) fn is_stuck(capture: &Capture) -> bool
    ensures { result ≡ is_stuck capture.now }
{
    is_most(sum(Sign::StuckTime, capture), capture.end())
}

/// Whether it is low most of the time.
#[tactic(auto, unfolding(crate::specs::Verdicts::is_low))]
pub(crate) fn is_low(capture: &Capture) -> bool
    ensures { result ≡ is_low capture.now }
{
    is_most(sum(Sign::LowTime, capture), capture.end())
}

fn is_framed_by(runs: u64, framed: u64, periods: u64, bits: u64) -> bool
    ensures { result ≡ is_framed_by runs framed periods bits }
{
    3 <= framed && (runs.saturating_sub(framed) <= runs / 3 && bits <= periods / 10)
}

/// Whether the falls stand as in frames, and few times are as long as a bit.
#[tactic(auto, unfolding(crate::specs::Verdicts::is_framed))]
pub(crate) fn is_framed(capture: &Capture) -> bool
    ensures { result ≡ is_framed capture.now }
{
    let shortest = shortest(capture);
    let edges = capture.edges();
    let runs = run_count(RunKind::Each, shortest, edges);
    let framed = run_count(RunKind::Framed, shortest, edges);
    let periods = sum(Sign::RunPeriods(shortest), capture);
    let bits = sum(Sign::BitPeriods(shortest), capture);
    is_framed_by(runs, framed, periods, bits)
}
