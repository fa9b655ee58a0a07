//! The margin with which most frames of a capture are read.
ghost use Rattle.std.specs.Prelude.{◌≡◌, ◌-◌, ◌≤◌};
ghost use Rattle.line_reading.specs.Windows.{most_margin};
ghost use Rattle.capture_advice.specs.Counts.{IsCounted, ReadsMore, capped, complete_at, most_count};

use crate::complete::complete_by;
use crate::lacks::margins_of;
use capture_core::Capture;
use line_reading::MOST_MARGIN;

/// How many complete readings a margin adds, in microseconds.
#[derive(Clone, Copy, Debug, PartialEq, Eq)]
pub struct Widening {
    pub margin: u64,
    pub more: u64,
}

impl Widening {
    fn is_better(self, other: Widening) -> bool {
        self.more > other.more || (self.more == other.more && self.margin < other.margin)
    }
}

// No margin reads more.
fn none(_capture: &Capture) -> Widening
    ensures { IsCounted _capture.now result }
{
    Widening { margin: 0, more: 0 }
}

fn at_most(margin: u64) -> u64
    ensures { result ≤ most_margin }
{
    margin.min(MOST_MARGIN)
}

fn more_than(count: u64, plain: u64) -> u64
    ensures { result ≡ count - plain }
{
    count.saturating_sub(plain)
}

// A margin, or the one that was best before.
fn better(capture: &Capture, plain: u64, margin: u64, best: Widening) -> Widening
    requires plain { capped plain ≡ capped (complete_at 0 capture.now) }
    requires within { plain ≤ most_count }
    requires best { IsCounted capture.now best }
    ensures { IsCounted capture.now result }
{
    let margin = at_most(margin);
    let count = complete_by(capture, margin);
    let tried = Widening {
        margin,
        more: more_than(count, plain),
    };
    if tried.is_better(best) { tried } else { best }
}

fn best_of(capture: &Capture, plain: u64, margins: &[u64], best: Widening) -> Widening
    requires plain { capped plain ≡ capped (complete_at 0 capture.now) }
    requires within { plain ≤ most_count }
    requires best { IsCounted capture.now best }
    ensures { IsCounted capture.now result }
{
    let [margin, margins @ ..] = margins else {
        return best;
    };
    let best = better(capture, plain, *margin, best);
    best_of(capture, plain, margins, best)
}

// The best of the margins that frames lack.
fn best_margin(capture: &Capture) -> Widening
    ensures { IsCounted capture.now result }
{
    let margins = margins_of(capture);
    if margins.is_empty() {
        return none(capture);
    }
    let plain = complete_by(capture, 0);
    best_of(capture, plain, margins.as_slice(), none(capture))
}

/// The least of the margins that frames of a capture lack with which most readings are complete, and how many more these are than
/// without. Where that is 0 no margin reads more.
#[tactic(auto, using(crate::proofs::Counting::reads_more))]
pub fn widening_of(capture: &Capture) -> Widening
    ensures counted { IsCounted capture.now result }
    ensures more { ReadsMore capture.now result }
{
    best_margin(capture)
}
