//! The drives of a round: of each seat, and of the pulses.
ghost use Rattle.std.specs.Prelude.{◌≡◌, ◌+◌, ◌≤◌, ◌++◌, [], filter, length, nat_le};
ghost use Rattle.line_wave.specs.Bounds.{latest_instant, latest_heard};
ghost use Rattle.line_wave.specs.Line.{IsWave};
ghost use Rattle.line_rounds.specs.Bounds.{begun_within};
ghost use Rattle.room_drives.specs.Drives.{AreOfPulses, AreOfSeats};
ghost use Rattle.room_drives.specs.Stretches.{drives_from};

use crate::seat::seat_drive;
use arrayvec::ArrayVec;
use capture_wires::Drive;
use line_rounds::{Outcome, Seat};
use line_wave::Stretch;

/// The most seats of a round.
pub const MOST_DRIVES: usize = 15;

// ---- the pulses

// Those of pulses in order that begin at an instant or later.
fn begun_since(pulses: &[Stretch], instant: u64) -> &[Stretch]
    requires { IsWave pulses.now }
    ensures order { IsWave result.now }
    ensures later { result.now ≡ filter (λ p. nat_le instant p.from) pulses.now }
{
    let mut left = pulses;
    'earlier: while let [pulse, others @ ..] = left {
        if instant <= pulse.from {
            return left;
        }
        left = others;
    }
    left
}

/// Those of pulses in order that begin in a round, as many as there are: from its begin to its rest. They pull its line low
/// exactly where a pulse does by the rule of a round.
pub fn begun_within(pulses: &[Stretch], begin: u64, rest: u64) -> &[Stretch]
    requires order { IsWave pulses.now }
    requires rest { rest ≤ latest_heard }
    ensures order { IsWave result.now }
    ensures begun { result.now ≡ begun_within begin rest pulses.now }
    ensures ruled { AreOfPulses begin pulses.now rest result.now }
{
    let begun = begun_since(pulses, begin);
    let later = begun_since(begun, rest + 1);
    &begun[..begun.len() - later.len()]
}

// ---- the seats

// Adds the drives of seats, from this number on.
fn push_drives(
    drives: &mut ArrayVec<Drive, MOST_DRIVES>,
    outcome: &Outcome,
    number: usize,
    seats: &[Seat],
    begin: u64,
)
    requires room { length drives.old.items + length seats.now ≤ 15 }
    requires number { number + length seats.now ≤ 15 }
    requires begin { begin ≤ latest_instant }
    requires early { outcome.now.reading.at ≤ latest_heard }
    ensures drives { drives.new.items ≡ drives.old.items ++ drives_from begin outcome.now number seats.now }
{
    let Some((seat, others)) = seats.split_first() else {
        return;
    };
    drives.push(seat_drive(outcome, number, seat, begin));
    push_drives(drives, outcome, number + 1, others, begin);
}

/// Where each seat pulls the line of a round that begins at `begin` and gave this outcome: exactly where it does by the rule of
/// a round. They are put into an empty list of the caller's, since they are large.
#[inline(never)]
pub fn put_drives(
    drives: &mut ArrayVec<Drive, MOST_DRIVES>,
    seats: &[Seat],
    begin: u64,
    outcome: &Outcome,
)
    requires fresh { drives.old.items ≡ [] }
    requires seats { length seats.now ≤ 15 }
    requires begin { begin ≤ latest_instant }
    requires early { outcome.now.reading.at ≤ latest_heard }
    ensures { AreOfSeats seats.now begin outcome.now drives.new.items }
{
    push_drives(drives, outcome, 0, seats, begin);
}
