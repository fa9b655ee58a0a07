//! How far samples of a captured line are apart.
ghost use Rattle.std.specs.Prelude.{◌≡◌, ◌<◌, drop};
ghost use Rattle.capture_signs.specs.Rates.{are_multiples, begins_multiple, coarse_rate};

use line_wave::Edge;

/// The coarsest rate that is tried, in microseconds.
const COARSEST: u64 = 1_000;

/// How many are tried: down to 251.
const RATES: u64 = 750;

fn begins_multiple(g: u64, edges: &[Edge]) -> bool
    requires { 0 < g }
    ensures { result ≡ begins_multiple g edges.now }
{
    match edges {
        [] => true,
        [_] => true,
        [edge, next, ..] => next.at.saturating_sub(edge.at) % g == 0,
    }
}

fn are_multiples(g: u64, edges: &[Edge]) -> bool
    requires { 0 < g }
    ensures { result ≡ are_multiples g edges.now }
{
    let mut left = edges;
    'edges: while let [_, after @ ..] = left {
        if !begins_multiple(g, left) {
            return false;
        }
        left = after;
    }
    true
}

/// The greatest time from 251 to 1,000 microseconds of which all edges stand at multiples from each other.
pub fn coarse_rate(edges: &[Edge]) -> Option<u64>
    ensures { result ≡ coarse_rate edges.now }
{
    for step in 0..RATES {
        if are_multiples(COARSEST - step, edges) {
            return Some(COARSEST - step);
        }
    }
    None
}
