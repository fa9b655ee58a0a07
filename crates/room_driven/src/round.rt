//! One round, and who drives its line.
ghost use Rattle.std.specs.Prelude.{◌≡◌, [], ◌+◌, ◌∷◌, ◌++◌, ◌≤◌, length, Some};
ghost use Rattle.line_wave.specs.Bounds.{latest_heard, latest_instant};
ghost use Rattle.line_wave.specs.Line.{IsWave};
ghost use Rattle.line_rounds.specs.Round.{IsRound};
ghost use Rattle.room_net.specs.Progress.{IsProgress};
ghost use Rattle.room_net.specs.State.{next_start};
ghost use Rattle.room_net.specs.Step.{after_round, seats_of};
ghost use Rattle.text_core.specs.Adds.{Adds};
ghost use Rattle.room_drives.specs.Drives.{IsBegunRound, drives_of};
ghost use Rattle.room_driven.specs.Named.{round_of};

use crate::wires::Wires;
use arrayvec::ArrayVec;
use capture_wires::{Drive, add_wires};
use line_rounds::{Outcome, Seat};
use line_wave::Stretch;
use room_drives::{begun_within, put_drives};
use room_named::add_named_round;
use room_net::Net;
use text_core::{Counted, Sink};

// Adds the line of a round that began at `begin` and gave this outcome, and these drives of it.
fn add_round_wires<S: Sink>(
    out: &mut Counted<'_, S>,
    wires: Wires,
    drives: &[Drive],
    pulses: &[Stretch],
    begin: u64,
    outcome: &Outcome,
)
    requires few { length drives.now ≤ 90 }
    requires pulses { IsWave pulses.now }
    requires early { outcome.now.reading.at ≤ latest_heard }
    requires rest { (begin ≤ outcome.now.rest) × (outcome.now.rest ≤ latest_heard) }
    ensures { Adds out.old out.new (round_of wires (drives.now ++ pulses.now ∷ []) begin outcome.now) }
{
    let wave = outcome.wave.as_slice();
    let rest = outcome.rest;
    match wires {
        Wires::Plain => add_wires(out, wave, drives, pulses, begin, rest + 1),
        Wires::Named => {
            add_named_round(out, wave, drives, pulses, &outcome.reading, begin, rest);
        }
    }
}

// Adds the line and the drives of a round that began at `begin` and gave this outcome.
fn add_round<S: Sink>(
    out: &mut Counted<'_, S>,
    wires: Wires,
    seats: &[Seat],
    begin: u64,
    pulses: &[Stretch],
    outcome: &Outcome,
)
    requires seats { length seats.now ≤ 15 }
    requires pulses { IsWave pulses.now }
    requires begin { begin ≤ latest_instant }
    requires early { outcome.now.reading.at ≤ latest_heard }
    requires rest { (begin ≤ outcome.now.rest) × (outcome.now.rest ≤ latest_heard) }
    requires round { IsBegunRound seats.now begin pulses.now outcome.now }
    ensures { Adds out.old out.new (round_of wires (drives_of seats.now begin pulses.now outcome.now) begin outcome.now) }
{
    let mut drives = ArrayVec::new();
    put_drives(&mut drives, seats, begin, outcome);
    let begun = begun_within(pulses, begin, outcome.rest);
    add_round_wires(out, wires, &drives, begun, begin, outcome);
}

/// Adds these wires of the round that comes next, which begins at `begin`, at most 2,000,000,000,000, and gives this
/// outcome. The network is that before the round.
pub fn add_drives<S: Sink, W>(
    out: &mut Counted<'_, S>,
    wires: Wires,
    begin: u64,
    outcome: &Outcome,
    net: &Net<W>,
)
    requires soon { begin ≤ latest_instant }
    requires begins { next_start net.now ≡ Some begin }
    requires round { IsRound (seats_of net.now begin) begin net.now.pulses outcome.now }
    requires progress { IsProgress net.now begin (after_round net.now begin outcome.now) }
    ensures { Adds out.old out.new (round_of wires (drives_of (seats_of net.now begin) begin net.now.pulses outcome.now) begin outcome.now) }
{
    let seats = net.seats(begin);
    // No effect at run time. The proof reads from it how many there are at most, and that they are in order.
    let _stretches = outcome.wave.as_slice();
    add_round(out, wires, &seats, begin, net.pulls(), outcome);
}
