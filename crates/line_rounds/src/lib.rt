//! Rounds of the CEC line: who sends, who wins arbitration (CEC 9), what the line carries, how it ends, and what becomes of
//! those who sent; the laws of its line; and a recorder of its wave.
#![tactic(auto)]

ghost use Rattle.std.specs.Prelude.{◌≡◌, ◌≤◌, true, length};
ghost use Rattle.line_wave.specs.Bounds.{latest_begin};
ghost use Rattle.line_rounds.specs.Round.{holds_address, is_held};

use arrayvec::ArrayVec;
use line_frames::{Addr, Frame, Reading};
use line_wave::{LOW_OF_0, MOST_STRETCHES, Pulls, Wave};

/// A follower that acknowledges a block pulls for so long from the fall of its tenth slot (CEC 6.1), in microseconds: as long
/// as a 0 is low (CEC 5.2.2).
pub const ACK_PULL: u64 = LOW_OF_0;

/// A low drive takes so long from a fall too early (CEC 7.4), in microseconds.
pub const SHORT_PULL: u64 = 3600;

/// The longest round where the pulls from outside are sparse, from its begin to its rest, in microseconds: a reading of 444,861, a
/// low drive, and a pulse of 10,000 that begins as that ends (`rounds_are_short`).
pub const LONGEST_PULSED_ROUND: u64 = 458_461;

/// A place on the line.
#[derive(Debug, Default, Drop)]
pub struct Seat {
    pub plugged: bool,
    /// The addresses that it holds, 15 among them: one for each unit that has settled, and up to four of a device from outside.
    pub holds: [Option<Addr>; 4],
    pub sends: Option<Frame>,
}

// A unit at this address, if it has settled, holds an address below 15.
fn is_at(held: &Option<Addr>, address: u8) -> bool
    ensures { result ≡ holds_address held.now address }
{
    match held {
        None => false,
        Some(held) => held.value() == address && held.value() < Addr::BROADCAST,
    }
}

impl Seat {
    ghost use Rattle.line_rounds.specs.Machine.{IsSentWell};

    /// One of its units holds this address, below 15.
    pub fn has_address(&self, address: u8) -> bool
        ensures { result ≡ is_held self.now.holds address }
    {
        self.holds.iter().any(|held| is_at(held, address))
    }

    /// The same seat again. What it sends has 1 to 16 blocks (CEC 6).
    pub fn copy(&self) -> Self
        ensures same { result ≡ self.now }
        ensures sends { IsSentWell result.sends }
    {
        Seat {
            plugged: self.plugged,
            holds: [self.holds[0], self.holds[1], self.holds[2], self.holds[3]],
            sends: match &self.sends {
                None => None,
                Some(frame) => Some(frame.copy()),
            },
        }
    }
}

/// A seat that was out before the ending.
#[derive(Clone, Copy, Debug, Default, PartialEq, Eq)]
pub struct Loser {
    pub seat: usize,
    pub slot: usize,
}

/// What a round gave.
#[derive(Debug, Drop)]
pub struct Outcome {
    pub reading: Reading,
    pub survivors: ArrayVec<usize, 15>,
    pub losers: ArrayVec<Loser, 15>,
    pub rest: u64,
    pub wave: Wave<MOST_STRETCHES>,
}

/// A line that rounds are run on.
pub trait Wire {
    ghost use Rattle.line_rounds.specs.Lasting.{is_begun};
    ghost use Rattle.line_rounds.specs.Round.{IsRound};

    fn round(&mut self, seats: &[Seat], start: u64, pulls: &Pulls) -> Outcome
        requires few { length seats.now ≤ 15 }
        requires early { start ≤ latest_begin }
        requires begun { is_begun seats.now start pulls.now ≡ true }
        ensures { IsRound seats.now start pulls.now result };
}

mod fates;
mod laws;
mod recorder;

pub use laws::{
    acknowledged_is_zero, acknowledgers_hold, alike_pulses, bits_come_in_order, complete_is_read,
    complete_is_survivors, complete_is_winners, falls_are_begins, falls_are_read, fates_reported,
    few_falls, followers_let_go, free_is_read, has_line, holders_are_heard, later_pulses,
    least_frames_are_there, losers_inside, more_bits_change_nothing, one_line, one_outcome,
    readings_go_slot_by_slot, rests_are_last, round_below, rounds_are_contended, rounds_are_lone,
    rounds_are_quiet, rounds_are_short, rounds_have_outcomes, rounds_last, same_line,
    senders_pull_slot_by_slot, slots_are_apart, waves_are_recorded, winners_last, winners_window,
};
pub use recorder::Recorder;
