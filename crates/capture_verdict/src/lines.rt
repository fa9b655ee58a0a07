//! Verdicts of a line as it stands.
ghost use Rattle.std.specs.Prelude.{◌≡◌, ◌∷◌};
ghost use Rattle.capture_verdict.specs.Lists.{first_some, or_else};
ghost use Rattle.capture_verdict.specs.Verdicts.{IsFirst, after_causes, bus_by, bus_of, causes, clock_by, clock_of, fine_by, fine_of, first_of, hum_by, hum_of, hums, is_steady, mains, nearly_of, odd_of, plain_verdicts, remains, rate_by, rate_of, short_by, short_of, silent_by, silent_of, steady_verdict, stuck_by, stuck_of, unit_by, unit_of};

use crate::counts::{is_framed, is_most, is_stuck, pieces, shortest, sum};
use crate::verdict::Verdict;
use capture_advice::{Widening, widening_of};
use capture_core::Capture;
use capture_signs::{PieceCounts, Sign, coarse_rate};
use line_wave::Edge;

/// The periods of the mains, in microseconds: at 50 and at 60 Hz, and half of them.
const MAINS_50: u64 = 20_000;

const MAINS_60: u64 = 16_667;

const RECTIFIED_50: u64 = 10_000;

const RECTIFIED_60: u64 = 8_333;

/// A line with fewer low stretches says little.
const FEW: u64 = 20;

/// The low stretches of the longest frame: a start bit and sixteen blocks (CEC 6.1).
const LONGEST_FRAME: u64 = 161;

/// A fifth below the shortest bit, and above the longest (CEC 5.2.2).
const FAST_BIT: u64 = 1_640;

const SLOW_BIT: u64 = 3_300;

fn silent_by(edges: &[Edge], end: u64) -> Option<Verdict>
    ensures { result ≡ silent_by edges.now end }
{
    match edges {
        [] => {
            if end == 0 {
                Some(Verdict::Empty)
            } else {
                Some(Verdict::Idle { end })
            }
        }
        [_, ..] => None,
    }
}

#[tactic(auto, unfolding(crate::specs::Verdicts::silent_of))]
fn silent_of(capture: &Capture) -> Option<Verdict>
    ensures { result ≡ silent_of capture.now }
{
    silent_by(capture.edges(), capture.end())
}

fn is_steady(counts: PieceCounts) -> bool
    ensures { result ≡ is_steady counts }
{
    counts.read > 0 && counts.frames.saturating_sub(counts.in_order) <= counts.frames / 10
}

fn steady_verdict(counts: PieceCounts) -> Verdict
    ensures { result ≡ steady_verdict counts }
{
    if counts.mid_frames > 0 {
        Verdict::MidFrame {
            frames: counts.frames,
            in_order: counts.in_order,
        }
    } else {
        Verdict::Fine {
            frames: counts.frames,
            in_order: counts.in_order,
        }
    }
}

fn fine_by(stuck: bool, counts: PieceCounts) -> Option<Verdict>
    ensures { result ≡ fine_by stuck counts }
{
    if !stuck && is_steady(counts) {
        Some(steady_verdict(counts))
    } else {
        None
    }
}

#[tactic(auto, unfolding(crate::specs::Verdicts::fine_of))]
fn fine_of(capture: &Capture) -> Option<Verdict>
    ensures { result ≡ fine_of capture.now }
{
    fine_by(is_stuck(capture), pieces(capture))
}

fn hum_by(framed: bool, period: u64, all: u64, near: u64) -> Option<Verdict>
    ensures { result ≡ hum_by framed period all near }
{
    if !framed && (5 <= all && all.saturating_sub(near) <= all / 5) {
        Some(Verdict::Hum { period })
    } else {
        None
    }
}

#[tactic(auto, unfolding(crate::specs::Verdicts::hum_of))]
fn hum_of(period: u64, capture: &Capture) -> Option<Verdict>
    ensures { result ≡ hum_of period capture.now }
{
    let all = sum(Sign::Periods, capture);
    let near = sum(Sign::HumPeriods(period), capture);
    hum_by(is_framed(capture), period, all, near)
}

fn or_else(first: Option<Verdict>, later: Option<Verdict>) -> Option<Verdict>
    ensures { result ≡ or_else first later }
{
    match first {
        None => later,
        Some(verdict) => Some(verdict),
    }
}

fn hum_among(periods: &[u64], capture: &Capture) -> Option<Verdict>
    ensures { result ≡ first_some (hums capture.now periods.now) }
{
    let [period, rest @ ..] = periods else {
        return None;
    };
    or_else(hum_of(*period, capture), hum_among(rest, capture))
}

fn hum_first(capture: &Capture) -> Option<Verdict>
    ensures { result ≡ first_some (hums capture.now mains) }
{
    hum_among(&[MAINS_50, MAINS_60, RECTIFIED_50, RECTIFIED_60], capture)
}

fn fine_or_hum(capture: &Capture) -> Option<Verdict>
    ensures { result ≡ first_some (fine_of capture.now ∷ hums capture.now mains) }
{
    match fine_of(capture) {
        None => hum_first(capture),
        Some(verdict) => Some(verdict),
    }
}

/// The first of the verdicts of a line as it stands.
pub(crate) fn plain_verdict(capture: &Capture) -> Option<Verdict>
    ensures { result ≡ first_some (plain_verdicts capture.now) }
{
    match silent_of(capture) {
        None => fine_or_hum(capture),
        Some(verdict) => Some(verdict),
    }
}

// ---- why little is read

fn unit_by(framed: bool, shortest: u64) -> Option<Verdict>
    ensures { result ≡ unit_by framed shortest }
{
    if framed && (shortest < FAST_BIT || shortest > SLOW_BIT) {
        Some(Verdict::TimeUnit { period: shortest })
    } else {
        None
    }
}

fn clock_by(framed: bool, shortest: u64) -> Option<Verdict>
    ensures { result ≡ clock_by framed shortest }
{
    if framed {
        Some(Verdict::Clock { period: shortest })
    } else {
        None
    }
}

fn stuck_by(stuck: bool, low: u64) -> Option<Verdict>
    ensures { result ≡ stuck_by stuck low }
{
    if stuck {
        Some(Verdict::Stuck { low })
    } else {
        None
    }
}

fn rate_by(lows: u64, rate: Option<u64>) -> Option<Verdict>
    ensures { result ≡ rate_by lows rate }
{
    if lows > FEW {
        match rate {
            None => None,
            Some(period) => Some(Verdict::Rate { period }),
        }
    } else {
        None
    }
}

fn nearly_of(widening: Widening) -> Option<Verdict>
    ensures { result ≡ nearly_of widening }
{
    if widening.more > 0 {
        Some(Verdict::Nearly {
            margin: widening.margin,
            more: widening.more,
        })
    } else {
        None
    }
}

fn bus_by(lows: u64, fast: u64) -> Option<Verdict>
    ensures { result ≡ bus_by lows fast }
{
    if lows > FEW && is_most(fast, lows) {
        Some(Verdict::Bus { lows })
    } else {
        None
    }
}

fn short_by(headed: u64, lows: u64) -> Option<Verdict>
    ensures { result ≡ short_by headed lows }
{
    if headed != 0 {
        return None;
    }
    if lows > LONGEST_FRAME {
        Some(Verdict::Noise { lows })
    } else {
        Some(Verdict::Short { lows })
    }
}

#[tactic(auto, unfolding(crate::specs::Verdicts::unit_of))]
fn unit_of(capture: &Capture) -> Option<Verdict>
    ensures { result ≡ unit_of capture.now }
{
    unit_by(is_framed(capture), shortest(capture))
}

#[tactic(auto, unfolding(crate::specs::Verdicts::clock_of))]
fn clock_of(capture: &Capture) -> Option<Verdict>
    ensures { result ≡ clock_of capture.now }
{
    clock_by(is_framed(capture), shortest(capture))
}

#[tactic(auto, unfolding(crate::specs::Verdicts::stuck_of))]
fn stuck_of(capture: &Capture) -> Option<Verdict>
    ensures { result ≡ stuck_of capture.now }
{
    stuck_by(is_stuck(capture), sum(Sign::StuckTime, capture))
}

#[tactic(auto, unfolding(crate::specs::Verdicts::rate_of))]
fn rate_of(capture: &Capture) -> Option<Verdict>
    ensures { result ≡ rate_of capture.now }
{
    rate_by(sum(Sign::Lows, capture), coarse_rate(capture.edges()))
}

#[tactic(auto, unfolding(crate::specs::Verdicts::bus_of))]
fn bus_of(capture: &Capture) -> Option<Verdict>
    ensures { result ≡ bus_of capture.now }
{
    bus_by(sum(Sign::Lows, capture), sum(Sign::FastLows, capture))
}

#[tactic(auto, unfolding(crate::specs::Verdicts::short_of))]
fn short_of(capture: &Capture) -> Option<Verdict>
    ensures { result ≡ short_of capture.now }
{
    short_by(pieces(capture).headed, sum(Sign::Lows, capture))
}

#[tactic(auto, unfolding(crate::specs::Verdicts::odd_of))]
fn odd_of(capture: &Capture) -> Verdict
    ensures { result ≡ odd_of capture.now }
{
    let counts = pieces(capture);
    Verdict::Odd {
        frames: counts.frames,
        in_order: counts.in_order,
    }
}

fn stuck_or_rate(capture: &Capture) -> Option<Verdict>
    ensures { result ≡ or_else (stuck_of capture.now) (rate_of capture.now) }
{
    match stuck_of(capture) {
        None => rate_of(capture),
        Some(verdict) => Some(verdict),
    }
}

/// The first of the verdicts that say why little is read, before a margin is tried.
pub(crate) fn cause_of(capture: &Capture) -> Option<Verdict>
    ensures { result ≡ first_some (causes capture.now) }
{
    match unit_of(capture) {
        None => stuck_or_rate(capture),
        Some(verdict) => Some(verdict),
    }
}

fn bus_or_short(capture: &Capture) -> Option<Verdict>
    ensures { result ≡ or_else (bus_of capture.now) (short_of capture.now) }
{
    match bus_of(capture) {
        None => short_of(capture),
        Some(verdict) => Some(verdict),
    }
}

// The first of those after a margin.
fn remaining(capture: &Capture) -> Option<Verdict>
    ensures { result ≡ first_some (remains capture.now) }
{
    match clock_of(capture) {
        None => bus_or_short(capture),
        Some(verdict) => Some(verdict),
    }
}

fn remaining_or_odd(capture: &Capture) -> Verdict
    ensures { result ≡ first_of capture.now (remains capture.now) }
{
    match remaining(capture) {
        None => odd_of(capture),
        Some(verdict) => verdict,
    }
}

/// The verdict of a line of which none of those holds.
pub(crate) fn last_verdict(capture: &Capture) -> Verdict
    ensures { IsFirst capture.now (after_causes capture.now) result }
{
    let widening = widening_of(capture);
    match nearly_of(widening) {
        None => remaining_or_odd(capture),
        Some(verdict) => verdict,
    }
}
