//! Sums over the low stretches of a captured line.
ghost use Rattle.std.specs.Prelude.{◌≡◌, ◌≤◌, ◌+◌, length};
ghost use Rattle.audit_pieces.specs.Stretches.{rise_by};
ghost use Rattle.audit_widths.specs.Spreads.{width_to};
ghost use Rattle.capture_signs.specs.Signs.{amount, any, gap_from, is_bit_in_run, is_fast, is_in_run, is_near, is_pause, is_short, low_width, one_where, signed, stuck_time};
ghost use Rattle.capture_signs.specs.Sums.{one_if, with_some};
ghost use Rattle.audit_widths.specs.Misfits.{fits, window};
ghost use Rattle.piece_audit.specs.Wide.{lows_from};

use crate::lows::after_first;
use audit_widths::{Low, first_low};
use line_reading::STANDARD;
use line_wave::Edge;

/// No stretch of CEC is low for longer, in microseconds: a low drive (CEC 7.4) that begins while a 0 is low.
const LONGEST_LOW: u64 = 5_540;

/// What is low for less is of a faster bus, or noise.
const FAST_BELOW: u64 = 100;

/// A pulse or a gap that is shorter is chatter.
const SHORT_BELOW: u64 = 175;

/// What is summed over low stretches. Times are in microseconds.
#[derive(Clone, Copy, Debug, PartialEq, Eq)]
pub enum Sign {
    /// How many there are.
    Lows,
    /// How long they are low.
    LowTime,
    /// How long those are low that are longer than any of CEC.
    StuckTime,
    /// How many are shorter than a quarter of any of CEC.
    FastLows,
    /// How many pulses and gaps are chatter.
    ShortPulses,
    /// How many falls follow another one.
    Periods,
    /// How many of these do so after such a time, or up to a tenth of it sooner or later.
    HumPeriods(u64),
    /// How many do so before a pause, by the shortest time from fall to fall.
    RunPeriods(u64),
    /// How many of these do so after as long as a bit lasts.
    BitPeriods(u64),
}

pub(crate) fn one_if(holds: bool) -> u64
    ensures { result ≡ one_if holds }
{
    if holds { 1 } else { 0 }
}

pub(crate) fn width_to(from: u64, to: Option<u64>) -> Option<u64>
    ensures { result ≡ width_to from to }
{
    match to {
        None => None,
        Some(to) => Some(to.saturating_sub(from)),
    }
}

fn rise_by(end: u64, rise: Option<u64>) -> u64
    ensures { result ≡ rise_by end rise }
{
    match rise {
        None => end,
        Some(rise) => rise,
    }
}

fn low_width(end: u64, low: Low) -> u64
    ensures { result ≡ low_width end low }
{
    rise_by(end, low.rise).saturating_sub(low.fall)
}

fn stuck_time(width: u64) -> u64
    ensures { result ≡ stuck_time width }
{
    if width > LONGEST_LOW { width } else { 0 }
}

pub(crate) fn gap_from(rise: Option<u64>, next: Option<u64>) -> Option<u64>
    ensures { result ≡ gap_from rise next }
{
    match rise {
        None => None,
        Some(rise) => width_to(rise, next),
    }
}

fn one_fast(width: Option<u64>) -> u64
    ensures { result ≡ one_where is_fast width }
{
    match width {
        None => 0,
        Some(width) => one_if(width < FAST_BELOW),
    }
}

pub(crate) fn is_short(width: u64) -> bool
    ensures { result ≡ is_short width }
{
    width < SHORT_BELOW
}

fn one_short(width: Option<u64>) -> u64
    ensures value { result ≡ one_where is_short width }
    ensures within { result ≤ 1 }
{
    match width {
        None => 0,
        Some(width) => one_if(is_short(width)),
    }
}

fn short_pulses(low: Low) -> u64
    ensures { result ≡ one_where is_short (width_to low.fall low.rise) + one_where is_short (gap_from low.rise low.next) }
{
    one_short(width_to(low.fall, low.rise)) + one_short(gap_from(low.rise, low.next))
}

fn one_at_all(time: Option<u64>) -> u64
    ensures { result ≡ one_where any time }
{
    match time {
        None => 0,
        Some(_) => 1,
    }
}

fn is_near(period: u64, time: u64) -> bool
    ensures { result ≡ is_near period time }
{
    let tenfold = 10 * u128::from(time);
    9 * u128::from(period) <= tenfold && tenfold <= 11 * u128::from(period)
}

fn one_near(period: u64, time: Option<u64>) -> u64
    ensures { result ≡ one_where (is_near period) time }
{
    match time {
        None => 0,
        Some(time) => one_if(is_near(period, time)),
    }
}

/// Whether a time from fall to fall is a pause, by the shortest one.
pub(crate) fn is_pause(shortest: u64, period: u64) -> bool
    ensures { result ≡ is_pause shortest period }
{
    5 * u128::from(shortest) < 2 * u128::from(period)
}

fn one_in_run(shortest: u64, period: Option<u64>) -> u64
    ensures { result ≡ one_where (is_in_run shortest) period }
{
    match period {
        None => 0,
        Some(period) => one_if(!is_pause(shortest, period)),
    }
}

fn is_bit(period: u64) -> bool
    ensures { result ≡ fits (window 2050 2750) period }
{
    STANDARD.bit_total.least <= period && period <= STANDARD.bit_total.most
}

fn one_bit(shortest: u64, period: Option<u64>) -> u64
    ensures { result ≡ one_where (is_bit_in_run shortest) period }
{
    match period {
        None => 0,
        Some(period) => one_if(!is_pause(shortest, period) && is_bit(period)),
    }
}

fn amount(sign: Sign, end: u64, low: Low) -> u64
    ensures { result ≡ amount sign end low }
{
    match sign {
        Sign::Lows => 1,
        Sign::LowTime => low_width(end, low),
        Sign::StuckTime => stuck_time(low_width(end, low)),
        Sign::FastLows => one_fast(width_to(low.fall, low.rise)),
        Sign::ShortPulses => short_pulses(low),
        Sign::Periods => one_at_all(width_to(low.fall, low.next)),
        Sign::HumPeriods(period) => one_near(period, width_to(low.fall, low.next)),
        Sign::RunPeriods(shortest) => one_in_run(shortest, width_to(low.fall, low.next)),
        Sign::BitPeriods(shortest) => one_bit(shortest, width_to(low.fall, low.next)),
    }
}

// With that of a low stretch, if there is one.
fn with_low(sign: Sign, end: u64, low: Option<Low>, sum: u64) -> u64
    ensures { result ≡ with_some (amount sign end) sum low }
{
    match low {
        None => sum,
        Some(low) => amount(sign, end, low).saturating_add(sum),
    }
}

/// The sum over the low stretches of a captured line up to `end`, of its edges, which begin with a fall. It stays at the greatest value.
pub fn signed(sign: Sign, end: u64, edges: &[Edge]) -> u64
    ensures { result ≡ signed sign end (lows_from edges.now) }
{
    let mut sum = 0;
    let mut left = edges;
    'lows: while left.len() > 0 {
        sum = with_low(sign, end, first_low(left), sum);
        left = after_first(left);
    }
    sum
}
