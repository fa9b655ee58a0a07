//! A wire that is handed pulses, beside what is known of it from outside.
ghost use Rattle.std.specs.Prelude.{◌≡◌, ◌<◌, ◌≤◌, ◌++◌, ◌-◌, length, take, IsTrue, ℕ};
ghost use Rattle.std.specs.Option.{option_to_list};
ghost use Rattle.line_wave.specs.Bounds.{latest_heard};
ghost use Rattle.line_wave.specs.Line.{IsWave};
ghost use Rattle.line_wave.specs.Pulses.{AreSparse};
ghost use Rattle.line_wire.specs.Wired.{IsNext};

use arrayvec::ArrayVec;
use line_reading::{Receiver, Sender};
use line_rounds::{Outcome, Seat};
use line_wave::{Edge, LATEST_HEARD, Pulses, Stretch};
use line_wire::EdgeWire;
use std::marker::Model;
use std::process::Abort;

/// A wire in a round: how many seats it has, the pulses that have begun, and the instant after its last edge; where no
/// edge is left no pulse may begin any more.
#[derive(Drop)]
pub(crate) struct Driven {
    pub(crate) wire: EdgeWire,
    seats: usize,
    pulses: ArrayVec<Stretch, 24>,
    heard: u64,
}

impl Model for Driven {
    ghost use Rattle.std.specs.Prelude.{◌≡◌, ◌≤◌, length};
    ghost use Rattle.line_wire.specs.declared.edge_wire.EdgeWire.{EdgeWire};
    ghost use Rattle.line_wire.specs.Wired.{IsBegunWith};

    ghost Value = { EdgeWire };

    ghost view = { λ d. d.wire };

    ghost invariant = { λ d.
        IsBegunWith d.pulses.items d.wire × (d.seats ≡ length d.wire.seats.items) × (d.wire.time ≤ d.heard) };
}

// The stretches are sparse.
fn are_sparse(stretches: &[Stretch]) -> bool
    ensures { IsTrue result → AreSparse stretches.now }
{
    match Pulses::new(stretches) {
        Ok(pulses) => {
            let _stretches = pulses.as_slice();
            true
        }
        Err(_) => false,
    }
}

// The first pulse that begins at an instant or later.
fn first_from(pulses: &[Stretch], at: u64) -> Option<Stretch> {
    for pulse in pulses {
        if at <= pulse.from {
            return Some(*pulse);
        }
    }
    None
}

// A pulse begins at an instant or later, and ends in time.
fn is_in_time(at: u64, pulse: Stretch) -> bool
    ensures late { IsTrue result → at ≤ pulse.from }
    ensures ends { IsTrue result → pulse.to < latest_heard }
{
    at <= pulse.from && pulse.to < LATEST_HEARD
}

// A wire that is begun with these pulses, and was heard before an instant, may be handed this pulse next.
fn is_next(pulses: &[Stretch], heard: u64, next: Option<Stretch>) -> bool
    ensures { IsTrue result → IsWave pulses.now → (t : ℕ) → t ≤ heard → IsNext pulses.now t next }
{
    let Some(pulse) = next else {
        return true;
    };
    let Ok(mut stretches) = ArrayVec::<Stretch, 25>::try_from(pulses) else {
        return false;
    };
    if stretches.try_push(pulse).is_err() {
        return false;
    }
    if !is_in_time(heard, pulse) {
        return false;
    }
    are_sparse(stretches.as_slice())
}

// Takes the next pulse, if so many have begun with it.
fn take(rt: &impl Abort, pulses: &mut ArrayVec<Stretch, 24>, next: Option<Stretch>, count: usize)
    ensures { pulses.new.items ≡ pulses.old.items ++ take (count - length pulses.old.items) (option_to_list next) }
{
    if let Some(pulse) = next {
        if pulses.len() < count.min(24) {
            pulses.push(pulse);
        }
    }
    assert!(rt; pulses.len() == count);
}

impl Driven {
    ghost use Rattle.std.specs.Prelude.{MatchOption, true};
    ghost use Rattle.line_wire.specs.Wired.{is_silent_in};

    /// A wire that begins a round of at most 15 seats at `start`.
    pub(crate) fn begin(wire: EdgeWire, seats: &[Seat], start: u64) -> Self
        requires few { length seats.now ≤ 15 }
        requires early { start ≤ 2000000100000 }
    {
        let mut wire = wire;
        wire.begin(seats, start);
        Driven {
            wire,
            seats: seats.len(),
            pulses: ArrayVec::new(),
            heard: start,
        }
    }

    /// The next edge, if there is one. The wire is handed the first of these pulses that has not begun.
    pub(crate) fn edge(&mut self, rt: &impl Abort, pulses: &[Stretch]) -> Option<Edge>
        ensures { MatchOption result (is_silent_in self.new ≡ true) (λ _. Unit {0}) }
    {
        let next = first_from(pulses, self.heard);
        if !is_next(self.pulses.as_slice(), self.heard, next) {
            panic!(rt; "a pulse too early");
        }
        let edge = self.wire.next_edge(next);
        take(rt, &mut self.pulses, next, self.wire.pulses_begun());
        match edge {
            None => {
                self.heard = u64::MAX;
                None
            }
            Some(edge) => {
                self.heard = edge.at.saturating_add(1);
                Some(edge)
            }
        }
    }

    /// What the round gives, where no pulse begins any more.
    pub(crate) fn finish(self, rt: &impl Abort) -> Outcome {
        let mut driven = self;
        for _edge in 0..400 {
            if driven.edge(rt, &[]).is_none() {
                let mut wire = driven.wire;
                return wire.finish();
            }
        }
        panic!(rt; "no end")
    }

    /// The receiver that its seats share.
    pub(crate) fn receiver(&self, rt: &impl Abort) -> &Receiver {
        assert!(rt; self.seats > 0);
        self.wire.receiver_of(0)
    }

    /// The sender of a seat, if it sends.
    pub(crate) fn sender(&self, rt: &impl Abort, seat: usize) -> Option<&Sender> {
        assert!(rt; seat < self.seats);
        self.wire.sender_of(seat)
    }
}
