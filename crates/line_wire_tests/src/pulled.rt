//! A wire in a round of pulls that may be dense.
ghost use Rattle.std.specs.Prelude.{◌≡◌, ◌≤◌, IsTrue, All, ℕ, length};
ghost use Rattle.line_wave.specs.Line.{IsWaveFrom};
ghost use Rattle.line_wave.specs.Bounds.{latest_begin};
ghost use Rattle.line_wave.specs.Pulls.{EndsInTime};

use arrayvec::ArrayVec;
use line_rounds::{Outcome, Seat};
use line_wave::{Edge, LATEST_HEARD, Stretch};
use line_wire::EdgeWire;
use std::marker::Model;
use std::process::Abort;

/// A wire, and all pulls of its round, of which some have begun.
#[derive(Drop)]
pub(crate) struct Pulled {
    wire: EdgeWire,
    pulls: ArrayVec<Stretch, 64>,
}

impl Model for Pulled {
    ghost use Rattle.std.specs.Prelude.{take};
    ghost use Rattle.line_wire.specs.declared.edge_wire.EdgeWire.{EdgeWire};
    ghost use Rattle.line_wire.specs.Wired.{ArePulls, IsBegunWith};

    ghost Value = { EdgeWire };

    ghost view = { λ p. p.wire };

    ghost invariant = { λ p.
        IsBegunWith (take p.wire.begun p.pulls.items) p.wire × ArePulls (take p.wire.begun p.pulls.items) p.pulls.items p.wire };
}

// They are in order from an instant on, neither overlap nor touch, and end in time.
fn are_from(from: u64, pulls: &[Stretch]) -> bool
    ensures order { IsTrue result → IsWaveFrom from pulls.now }
    ensures ends { IsTrue result → All EndsInTime pulls.now }
{
    let [pull, others @ ..] = pulls else {
        return true;
    };
    from <= pull.from
        && pull.from < pull.to
        && pull.to < LATEST_HEARD
        && are_from(pull.to + 1, others)
}

impl Pulled {
    ghost use Rattle.std.specs.Prelude.{MatchOption, true};
    ghost use Rattle.line_wire.specs.Wired.{is_silent_in};

    /// A wire that begins a round of at most 15 seats at `start`.
    pub(crate) fn begin(
        rt: &impl Abort,
        wire: EdgeWire,
        seats: &[Seat],
        start: u64,
        pulls: ArrayVec<Stretch, 64>,
    ) -> Self
        requires few { length seats.now ≤ 15 }
        requires early { start ≤ latest_begin }
    {
        if !are_from(start, pulls.as_slice()) {
            panic!(rt; "pulls in order");
        }
        let mut wire = wire;
        wire.begin(seats, start);
        Pulled { wire, pulls }
    }

    // The next edge, if there is one.
    fn edge(&mut self) -> Option<Edge>
        ensures { MatchOption result (is_silent_in self.new ≡ true) (λ _. Unit {0}) }
    {
        self.wire.next_edge_among(self.pulls.as_slice())
    }

    /// What the round gives.
    pub(crate) fn finish(self, rt: &impl Abort) -> Outcome {
        let mut pulled = self;
        for _edge in 0..400 {
            if pulled.edge().is_none() {
                let mut wire = pulled.wire;
                return wire.finish();
            }
        }
        panic!(rt; "no end")
    }
}
