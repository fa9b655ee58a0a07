//! A round that is taken edge by edge.
ghost use Rattle.std.specs.Prelude.{◌≡◌, ◌+◌, ◌≤◌, ◌<◌, length, IfSome, MatchOption, Option, ℕ, Bool, true};
ghost use Rattle.line_wave.specs.Bounds.{latest_instant};
ghost use Rattle.line_rounds.specs.Edges.{IsNextEdge};
ghost use Rattle.line_rounds.specs.Round.{IsRound, IsRoundLine};
ghost use Rattle.line_wire.specs.Wired.{is_silent_in, SameRound};
ghost use Rattle.room_net.specs.Underway.{Takes};

use crate::net::{Net, give_up};
use crate::step::{RoundReport, seats_of};
use crate::wiring::DEVICES;
use arrayvec::ArrayVec;
use device_core::Device;
use line_reading::Standing;
use line_rounds::Outcome;
use line_wave::{Edge, Stretch};
use line_wire::EdgeWire;

// The next edge of the round in which a wire stands, with these pulses.
fn next_edge_of(wire: &mut EdgeWire, pulses: &[Stretch]) -> Option<Edge>
    requires takes { Takes pulses.now wire.old }
    ensures takes { Takes pulses.now wire.new }
    ensures round { SameRound wire.old wire.new }
    ensures goes { MatchOption result (is_silent_in wire.new ≡ true) (λ edge. wire.old.time < wire.new.time) }
    ensures at { IfSome result (λ edge. edge.at + 1 ≡ wire.new.time) }
    ensures edge { (low : ℕ → Bool) → IsRoundLine wire.old.seats.items wire.old.begin pulses.now low → IsNextEdge low wire.old.time result }
{
    wire.next_edge_among(pulses)
}

// What a round gives, with the edges that are left.
fn outcome_of(wire: EdgeWire, pulses: &[Stretch]) -> Outcome
    requires takes { Takes pulses.now wire }
    ensures { IsRound wire.seats.items wire.begin pulses.now result }
{
    let mut wire = wire;
    'edges: while next_edge_of(&mut wire, pulses).is_some() {}
    wire.finish()
}

// Copies devices to where others stood. A list of devices is large: a new one costs more than these copies.
fn copy_devices(copy: &mut ArrayVec<Device<16>, DEVICES>, devices: &[Device<16>])
    requires { length devices.now ≤ 15 }
    ensures { copy.new.items ≡ devices.now }
{
    copy.clear();
    for device in devices {
        copy.push(device.copy());
    }
}

fn copied_devices(devices: &[Device<16>]) -> ArrayVec<Device<16>, DEVICES>
    requires { length devices.now ≤ 15 }
    ensures { result.items ≡ devices.now }
{
    let mut copy = ArrayVec::new();
    copy_devices(&mut copy, devices);
    copy
}

fn copied_wire(wire: &Option<EdgeWire>) -> Option<EdgeWire>
    ensures { result ≡ wire.now }
{
    match wire {
        None => None,
        Some(wire) => Some(wire.copy()),
    }
}

// Copies the wire of a round that was begun to where another stood. Where there is none, the room for one is not touched.
fn copy_wire(copy: &mut Option<EdgeWire>, wire: &Option<EdgeWire>)
    ensures { copy.new ≡ wire.now }
{
    match wire {
        None => give_up(copy),
        Some(wire) => *copy = Some(wire.copy()),
    }
}

impl Net<EdgeWire> {
    ghost use Rattle.std.specs.Prelude.{MatchBool, Some, None, IsSome};
    ghost use Rattle.line_reading.specs.Follows.{standing_by_code};
    ghost use Rattle.room_net.specs.State.{next_start};
    ghost use Rattle.room_net.specs.Step.{IsNextRound};
    ghost use Rattle.room_net.specs.Progress.{IsProgress};
    ghost use Rattle.room_net.specs.Held.{HeldOnce};
    ghost use Rattle.room_net.specs.Underway.{OfRound, standing_reported};

    /// The same network again, where this one stands.
    pub fn copy(&self) -> Self
        ensures { result ≡ self.now }
    {
        Net {
            tree: self.tree.copy(),
            wire: self.wire.copy(),
            pulses: self.pulses.copy(),
            devices: copied_devices(&self.devices),
            close: self.close,
            rest: self.rest,
            begun: copied_wire(&self.begun),
        }
    }

    /// Becomes a copy of another network, in its own place: a network is large. What the wire holds between rounds says
    /// nothing.
    pub fn copy_from(&mut self, other: &Self)
        ensures { self.new ≡ other.now }
    {
        self.tree.copy_from(&other.tree);
        self.pulses.copy_from(&other.pulses);
        copy_devices(&mut self.devices, &other.devices);
        self.close = other.close;
        self.rest = other.rest;
        copy_wire(&mut self.begun, &other.begun);
    }

    /// Begins the next round, to take it edge by edge. A round that was begun is given up. False, and nothing changes,
    /// where there is no next start. The last round closed by 2,000,000,000,000.
    pub fn begin(&mut self) -> bool
        requires { self.old.close ≤ latest_instant }
        ensures { MatchBool result
            ((begin : ℕ) × (next_start self.old ≡ Some begin) × (self.new ≡ record self.old { heard = Some begin }))
            ((next_start self.old ≡ None) × (self.new ≡ self.old)) }
    {
        let Some(begin) = self.next_start() else {
            return false;
        };
        let seats = seats_of(&self.devices, self.rest, begin);
        // No effect at run time. The proof reads from it how many there are at most.
        let _pulses = self.pulses.as_slice();
        let mut wire = EdgeWire::new();
        wire.begin(&seats, begin);
        self.begun = Some(wire);
        true
    }

    /// The instant before which the line of a round that was begun was told; none where no round was begun.
    pub fn heard_until(&self) -> Option<u64>
        ensures { result ≡ self.now.heard }
    {
        match &self.begun {
            None => None,
            Some(wire) => Some(wire.heard_until()),
        }
    }

    /// The next edge of the line of a round that was begun, if there is one. The line is then told through that edge.
    pub fn next_edge(&mut self) -> Option<Edge>
        requires { IsSome self.old.heard }
        ensures edge { OfRound self.old (λ begin heard low. IsNextEdge low heard result) }
        ensures state { (heard : ℕ) × (self.new ≡ record self.old { heard = Some heard }) × IfSome result (λ edge. edge.at + 1 ≡ heard) }
    {
        // The wire is large, and stays where it stands.
        match &mut self.begun {
            None => unreachable!(),
            Some(wire) => next_edge_of(wire, self.pulses.as_slice()),
        }
    }

    /// Where the receiver of a device stands in a round that was begun, by what was reported of its line so far. The
    /// device's number is below the count.
    pub fn standing_of(&self, number: usize) -> Standing<'_>
        requires underway { IsSome self.now.heard }
        requires known { number < length self.now.tree }
        ensures { OfRound self.now (λ begin heard low. standing_by_code result ≡ standing_reported low begin heard) }
    {
        // No effect at run time. The proof reads from it how many there are at most.
        let _pulses = self.pulses.as_slice();
        match &self.begun {
            None => unreachable!(),
            Some(wire) => wire.receiver_of(number).standing(),
        }
    }

    /// Takes the edges that are left of a round that was begun, and ends it as `round` does.
    pub fn finish_round(&mut self) -> RoundReport
        requires { IsSome self.old.heard }
        ensures begins { next_start self.old ≡ Some result.begin }
        ensures step { IsNextRound self.old result.begin result.outcome self.new }
        ensures progress { IsProgress self.old result.begin self.new }
        ensures once { HeldOnce self.new.devices }
    {
        let Some(wire) = self.begun.take() else {
            unreachable!();
        };
        let begin = wire.begun_at();
        let outcome = outcome_of(wire, self.pulses.as_slice());
        self.end(begin, &outcome);
        RoundReport { begin, outcome }
    }
}
