//! What hears of a run.
ghost use Rattle.std.specs.Prelude.{◌≡◌, ◌≤◌, Bool, Some};
ghost use Rattle.line_wave.specs.Bounds.{latest_instant};
ghost use Rattle.line_rounds.specs.Round.{IsRound};
ghost use Rattle.room_net.specs.State.{NetState, next_start};
ghost use Rattle.room_net.specs.Step.{after_round, seats_of};
ghost use Rattle.room_net.specs.Progress.{IsProgress};
ghost use Rattle.room_run.specs.Happening.{Happening, IsApplied, OfEvent, OfRound};

use line_rounds::Outcome;
use room_event::EventError;
use room_net::Net;
use room_script::TimedEvent;

/// An event that was applied.
#[derive(Clone, Copy)]
pub struct AppliedEvent<'a> {
    /// When, in microseconds.
    pub at: u64,
    pub event: &'a TimedEvent,
    /// Why it was refused.
    pub refused: Option<EventError>,
    /// Which devices were on the wire before it.
    pub was: &'a [bool],
}

/// What hears of a run, turn by turn: a text of it, a report, a sieve.
pub trait Reporter {
    /// To hear of a turn leads it from one state to another.
    ghost hears: { Self → Happening → Self → Type 0 };

    /// Whether it is to hear of more.
    ghost goes_on: { Self → Bool };

    /// Hears of an event that was applied, with the network after it.
    fn event<W>(&mut self, applied: &AppliedEvent<'_>, net: &Net<W>)
        ensures { (before : NetState) → IsApplied applied.now.at applied.now.event.now before applied.now.refused applied.now.was.now net.now
            → hears self.old (OfEvent applied.now.at applied.now.event.now before) self.new };

    /// Hears of a round that begins at `begin`, at most 2,000,000,000,000, and gives this outcome, with the network before it.
    fn round<W>(&mut self, begin: u64, outcome: &Outcome, net: &Net<W>)
        requires soon { begin ≤ latest_instant }
        requires begins { next_start net.now ≡ Some begin }
        requires round { IsRound (seats_of net.now begin) begin net.now.pulses outcome.now }
        requires progress { IsProgress net.now begin (after_round net.now begin outcome.now) }
        ensures { hears self.old (OfRound begin net.now outcome.now) self.new };

    /// Whether it is to hear of more.
    fn wants_more(&self) -> bool
        ensures { result ≡ goes_on self.now };
}
