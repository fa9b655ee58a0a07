//! The rounds of a run, of which those in a span are found by halves.
ghost use Rattle.std.specs.Prelude.{◌≡◌, true, List, ℕ, map};
ghost use Rattle.expect_judge.specs.Told.{round_as};
ghost use Rattle.expect_judge.specs.Seen.{rounds_seen};
ghost use Rattle.expect_judge.specs.Index.{are_in_order};

use crate::lines::RoundLine;
use crate::seen::{TimeSpan, are_in_order, first_place, last_place};

/// The rounds of a run, in order.
#[derive(Drop)]
pub struct RoundLines<'a> {
    pub rounds: &'a [RoundLine<'a>],
    /// Whether the rounds began and ended one after another.
    in_order: bool,
    ghost order_is: { in_order ≡ true → are_in_order rounds.now ≡ true },
}

// Those of these rounds, which are in order, that can be in a span.
fn in_span<'a, 'b>(rounds: &'b [RoundLine<'a>], span: TimeSpan) -> &'b [RoundLine<'a>]
    requires { are_in_order rounds.now ≡ true }
    ensures { (pattern : List ℕ) → rounds_seen (map round_as result.now) span pattern ≡ rounds_seen (map round_as rounds.now) span pattern }
{
    let (_earlier, rest) = rounds.split_at(first_place(rounds, span));
    let (within, _later) = rest.split_at(last_place(rest, span));
    within
}

impl<'a> RoundLines<'a> {
    /// These rounds.
    pub fn new(rounds: &'a [RoundLine<'a>]) -> Self
        ensures { result.rounds.now ≡ rounds.now }
    {
        RoundLines {
            rounds,
            in_order: are_in_order(rounds),
        }
    }

    /// Rounds of these, in order, with all that are in a span: no others, where each began and ended no later than the next one.
    pub fn within(&self, span: TimeSpan) -> &[RoundLine<'a>]
        ensures { (pattern : List ℕ) → rounds_seen (map round_as result.now) span pattern ≡ rounds_seen (map round_as self.now.rounds.now) span pattern }
    {
        if self.in_order {
            in_span(self.rounds, span)
        } else {
            self.rounds
        }
    }
}
