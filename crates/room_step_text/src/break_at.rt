//! The round that is looked for.
ghost use Rattle.std.specs.Prelude.{◌≡◌, ◌==◌};
ghost use Rattle.std.specs.List.{list_any};
ghost use Rattle.line_frames.specs.Blocks.{frame_in};
ghost use Rattle.room_step_text.specs.Stops.{has_opcode, stops};

use line_frames::{Ending, Reading};
use line_rounds::{Loser, Outcome};

/// The round that is looked for.
#[derive(Clone, Copy, Debug, PartialEq, Eq)]
pub enum Break {
    /// One that reads a complete frame of this opcode.
    Opcode(u8),
    /// One in which the device of this number contends.
    Device(usize),
    /// One that ends in any other way than complete.
    AnyBreak,
}

fn has_opcode(reading: &Reading, opcode: u8) -> bool
    ensures { result ≡ has_opcode opcode (frame_in reading.now) }
{
    match reading.frame() {
        None => false,
        Some(frame) => match frame.bytes().get(1) {
            None => false,
            Some(byte) => *byte == opcode,
        },
    }
}

fn is_among(seats: &[usize], device: usize) -> bool
    ensures { result ≡ list_any (λ seat. seat == device) seats.now }
{
    seats.iter().any(|seat| *seat == device)
}

fn is_out(losers: &[Loser], device: usize) -> bool
    ensures { result ≡ list_any (λ loser. loser.seat == device) losers.now }
{
    losers.iter().any(|loser| loser.seat == device)
}

/// Whether a round is the one that is looked for.
pub fn stops(at: Break, outcome: &Outcome) -> bool
    ensures { result ≡ stops at outcome.now }
{
    match at {
        Break::Opcode(opcode) => has_opcode(&outcome.reading, opcode),
        Break::Device(device) => {
            is_among(&outcome.survivors, device) || is_out(&outcome.losers, device)
        }
        Break::AnyBreak => match outcome.reading.ending {
            Ending::Complete => false,
            _ => true,
        },
    }
}
