//! What becomes of those who sent, and the close of a round.
ghost use Rattle.std.specs.Prelude.{◌≡◌, ◌==◌};
ghost use Rattle.line_reading.specs.Sending.{destination};
ghost use Rattle.line_rounds.specs.Round.{is_taken_up, fate_at_end, fate_by, out_in};

use crate::Outcome;
use line_frames::{Addr, Ending, Fate};
use line_reading::destination;

const HEADER_BITS: usize = 8;

const ACK_EVERY: usize = 10;

const INITIATOR_SLOTS: usize = 4;

// A destination was read, and it is 15.
#[tactic(auto, using(crate::proofs::ReportedFates::short_direct))]
fn is_broadcast(bits: &[bool]) -> bool
    ensures { result ≡ (destination bits.now == 15) }
{
    bits.len() >= HEADER_BITS && destination(bits) == Addr::BROADCAST
}

// The last acknowledge bit says that the frame was taken: 0 for a directly addressed frame, 1 for a broadcast (CEC 6.1).
fn is_taken_up(bits: &[bool]) -> bool
    ensures { result ≡ is_taken_up bits.now }
{
    let last = if bits.is_empty() {
        false
    } else {
        bits[bits.len() - 1]
    };
    last == is_broadcast(bits)
}

// The fate of a sender that was still sending.
fn fate_at_end(ending: Ending, bits: &[bool]) -> Fate
    ensures { result ≡ fate_at_end ending bits.now }
{
    match ending {
        Ending::Complete => {
            if is_taken_up(bits) {
                Fate::Delivered
            } else {
                Fate::Unacked
            }
        }
        _ => Fate::Broken,
    }
}

// The fate of a sender, by the slot at which it was out: arbitration is decided in the first four (CEC 9).
fn fate_by(ending: Ending, bits: &[bool], out: Option<usize>) -> Fate
    ensures { result ≡ fate_by ending bits.now out }
{
    let Some(slot) = out else {
        return fate_at_end(ending, bits);
    };
    if slot % ACK_EVERY == 0 {
        Fate::Unacked
    } else if slot <= INITIATOR_SLOTS {
        Fate::Lost
    } else {
        Fate::Broken
    }
}

impl Outcome {
    ghost use Rattle.line_rounds.specs.Round.{out_in, fate_in, close_in};

    /// The later of the reading's end and the rest, in microseconds.
    pub fn close(&self) -> u64
        ensures { result ≡ close_in self.now }
    {
        self.reading.at.max(self.rest)
    }

    /// The slot at which a seat was out, from 1, if it was out before the ending.
    pub fn out_at(&self, seat: usize) -> Option<usize>
        ensures { result ≡ out_in self.now.losers.items seat }
    {
        for loser in self.losers.as_slice() {
            if loser.seat == seat {
                return Some(loser.slot);
            }
        }
        None
    }

    /// The fate of a seat that sent.
    pub fn fate(&self, seat: usize) -> Fate
        ensures { result ≡ fate_in self.now seat }
    {
        fate_by(
            self.reading.ending,
            self.reading.bits.as_slice(),
            self.out_at(seat),
        )
    }
}
