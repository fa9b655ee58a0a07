//! Runs of falls between pauses.
ghost use Rattle.std.specs.Prelude.{◌≡◌, length, None, Some};
ghost use Rattle.audit_widths.specs.Spreads.{sum_of, width_to};
ghost use Rattle.capture_signs.specs.Runs.{ends_run, is_framed_run, run_amount, run_count};
ghost use Rattle.capture_signs.specs.Steps.{run_with};
ghost use Rattle.piece_audit.specs.Wide.{lows_from};

use crate::lows::after_first;
use crate::sums::{is_pause, width_to};
use audit_widths::{Low, first_low};
use line_wave::Edge;

/// Which runs are counted.
#[derive(Clone, Copy, Debug, PartialEq, Eq)]
pub enum RunKind {
    Each,
    /// Those with one fall more than a multiple of ten, as a start bit and blocks have.
    Framed,
}

/// How many runs have ended, and how many falls the one has that runs.
#[derive(Clone, Copy, Debug, PartialEq, Eq)]
struct RunTally {
    count: u64,
    falls: u64,
}

fn ends_run(shortest: u64, period: Option<u64>) -> bool
    ensures { result ≡ ends_run shortest period }
{
    match period {
        None => true,
        Some(period) => is_pause(shortest, period),
    }
}

fn run_amount(kind: RunKind, falls: u64) -> u64
    ensures { result ≡ run_amount kind falls }
{
    match kind {
        RunKind::Each => 1,
        RunKind::Framed => { if falls > 10 && falls % 10 == 1 { 1 } else { 0 } }
    }
}

impl RunTally {
    // With a low stretch, if there is one.
    fn with(self, kind: RunKind, shortest: u64, low: Option<Low>) -> RunTally
        ensures { result ≡ run_with kind shortest self low }
    {
        let Some(low) = low else {
            return self;
        };
        let falls = self.falls.saturating_add(1);
        if ends_run(shortest, width_to(low.fall, low.next)) {
            RunTally {
                count: run_amount(kind, falls).saturating_add(self.count),
                falls: 0,
            }
        } else {
            RunTally {
                count: self.count,
                falls,
            }
        }
    }
}

/// How many runs of a kind there are, of edges that begin with a fall, by the shortest time from fall to fall.
pub fn run_count(kind: RunKind, shortest: u64, edges: &[Edge]) -> u64
    ensures { result ≡ run_count kind shortest (lows_from edges.now) }
{
    let mut tally = RunTally { count: 0, falls: 0 };
    let mut left = edges;
    'lows: while left.len() > 0 {
        tally = tally.with(kind, shortest, first_low(left));
        left = after_first(left);
    }
    tally.count
}
