//! The low stretches of a captured line.
ghost use Rattle.std.specs.Prelude.{◌≡◌, ◌-◌, ◌++◌, length, take};
ghost use Rattle.audit_widths.specs.Lows.{first_low, low_at, lows_before, lows_in};
ghost use Rattle.line_wave.specs.Bounds.{most_sent};

use arrayvec::ArrayVec;
use line_wave::{Edge, MOST_SENT};

/// A low stretch of a captured line, from its fall on. Instants are in microseconds.
#[derive(Clone, Copy, Debug, Default, PartialEq, Eq)]
pub struct Low {
    /// Where it falls.
    pub fall: u64,
    /// Where it rises, if the capture has that.
    pub rise: Option<u64>,
    /// Where the line falls next, if the capture has that.
    pub next: Option<u64>,
}

fn low_at(fall: u64, after: &[Edge]) -> Low
    ensures { result ≡ low_at fall after.now }
{
    match after {
        [] => Low {
            fall,
            rise: None,
            next: None,
        },
        [rise] => Low {
            fall,
            rise: Some(rise.at),
            next: None,
        },
        [rise, next, ..] => Low {
            fall,
            rise: Some(rise.at),
            next: Some(next.at),
        },
    }
}

/// The first low stretch, of edges that begin with a fall.
pub fn first_low(edges: &[Edge]) -> Option<Low>
    ensures { result ≡ first_low edges.now }
{
    match edges {
        [] => None,
        [fall, after @ ..] => Some(low_at(fall.at, after)),
    }
}

fn push_lows(edges: &[Edge], until: u64, lows: &mut ArrayVec<Low, MOST_SENT>)
    ensures { lows.new.items ≡ lows.old.items ++ take (most_sent - length lows.old.items) (lows_in until edges.now) }
{
    let [fall, after @ ..] = edges else {
        return;
    };
    if fall.at >= until || lows.is_full() {
        return;
    }
    lows.push(low_at(fall.at, after));
    if let [_, falls @ ..] = after {
        push_lows(falls, until, lows);
    }
}

/// The low stretches that fall before an instant, of edges that begin with a fall: at most 161 of them.
pub fn lows_before(edges: &[Edge], until: u64) -> ArrayVec<Low, MOST_SENT>
    ensures { result.items ≡ lows_before until edges.now }
{
    let mut lows = ArrayVec::new();
    push_lows(edges, until, &mut lows);
    lows
}
