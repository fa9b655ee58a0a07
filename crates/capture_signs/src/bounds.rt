//! The shortest and the longest times of a captured line.
ghost use Rattle.std.specs.Prelude.{◌≡◌, ◌<◌};
ghost use Rattle.audit_widths.specs.Spreads.{width_to};
ghost use Rattle.capture_signs.specs.Signs.{longest_short, short_below, short_or_none, shortest_period, time_or_most};
ghost use Rattle.capture_signs.specs.Steps.{longer_short, shorter_period};
ghost use Rattle.piece_audit.specs.Wide.{lows_from};

use crate::lows::after_first;
use crate::sums::{gap_from, is_short, width_to};
use audit_widths::{Low, first_low};
use line_wave::Edge;

fn time_or_most(time: Option<u64>) -> u64
    ensures { result ≡ time_or_most time }
{
    match time {
        None => u64::MAX,
        Some(time) => time,
    }
}

fn shorter_period(shortest: u64, low: Option<Low>) -> u64
    ensures { result ≡ shorter_period shortest low }
{
    match low {
        None => shortest,
        Some(low) => shortest.min(time_or_most(width_to(low.fall, low.next))),
    }
}

/// The shortest time from a fall to the next one, of edges that begin with a fall; of no such time the greatest value.
pub fn shortest_period(edges: &[Edge]) -> u64
    ensures { result ≡ shortest_period (lows_from edges.now) }
{
    let mut shortest = u64::MAX;
    let mut left = edges;
    'lows: while left.len() > 0 {
        shortest = shorter_period(shortest, first_low(left));
        left = after_first(left);
    }
    shortest
}

fn short_or_none(width: Option<u64>) -> u64
    ensures value { result ≡ short_or_none width }
    ensures small { result < short_below }
{
    match width {
        None => 0,
        Some(width) => { if is_short(width) { width } else { 0 } }
    }
}

fn longer_short(longest: u64, low: Option<Low>) -> u64
    requires { longest < short_below }
    ensures value { result ≡ longer_short longest low }
    ensures small { result < short_below }
{
    match low {
        None => longest,
        Some(low) => {
            let pulse = short_or_none(width_to(low.fall, low.rise));
            let gap = short_or_none(gap_from(low.rise, low.next));
            longest.max(pulse.max(gap))
        }
    }
}

/// The longest pulse or gap that is chatter, of edges that begin with a fall, or 0.
pub fn longest_short(edges: &[Edge]) -> u64
    ensures value { result ≡ longest_short (lows_from edges.now) }
    ensures small { result < short_below }
{
    let mut longest = 0;
    let mut left = edges;
    'lows: while left.len() > 0 {
        longest = longer_short(longest, first_low(left));
        left = after_first(left);
    }
    longest
}
