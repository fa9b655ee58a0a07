//! A piece as a reading.
ghost use Rattle.std.specs.Prelude.{◌≡◌, ◌+◌, ◌++◌, ◌≤◌, length, map};
ghost use Rattle.line_frames.specs.Bits.{most_bits};
ghost use Rattle.line_reading.specs.Reports.{listed_as};
ghost use Rattle.audit_pieces.specs.Pieces.{parts_of, piece_of};
ghost use Rattle.audit_pieces.specs.Slots.{bit_of};
ghost use Rattle.piece_audit.specs.Readings.{close_by, ending_as, last_fall, last_sample, listed_of};

use arrayvec::ArrayVec;
use audit_pieces::{Parts, Piece, PieceEnding, Slot};
use line_frames::{Ending, MOST_BITS, Reading};
use line_reading::SAMPLE;

fn ending_as(ending: PieceEnding) -> Ending
    ensures { result ≡ ending_as ending }
{
    match ending {
        PieceEnding::Complete => Ending::Complete,
        PieceEnding::Stops => Ending::Silent,
        PieceEnding::Drive | PieceEnding::Overrun | PieceEnding::Intruder => Ending::Short,
        PieceEnding::Long => Ending::Long,
        PieceEnding::Open => Ending::Open,
        PieceEnding::Stray | PieceEnding::Mid => Ending::BadStart,
    }
}

fn last_fall(parts: &Parts) -> u64
    ensures { result ≡ last_fall (parts_of parts.now) parts.now.broken_by }
{
    match parts.broken_by {
        None => parts.last,
        Some(by) => by.fall,
    }
}

fn last_sample(parts: &Parts) -> u64
    ensures { result ≡ last_sample (parts_of parts.now) }
{
    parts.slot_fall().saturating_add(SAMPLE)
}

fn close_by(parts: &Parts, ending: PieceEnding) -> u64
    ensures { result ≡ close_by (parts_of parts.now) ending }
{
    match ending {
        PieceEnding::Complete | PieceEnding::Long => last_sample(parts),
        PieceEnding::Stops
        | PieceEnding::Drive
        | PieceEnding::Overrun
        | PieceEnding::Intruder
        | PieceEnding::Open
        | PieceEnding::Stray
        | PieceEnding::Mid => last_fall(parts),
    }
}

fn push_bits(slots: &[Slot], bits: &mut ArrayVec<bool, MOST_BITS>)
    requires { length bits.old.items + length slots.now ≤ most_bits }
    ensures { bits.new.items ≡ bits.old.items ++ map bit_of slots.now }
{
    let [slot, rest @ ..] = slots else {
        return;
    };
    bits.push(slot.bit());
    push_bits(rest, bits);
}

/// A piece as a reading. Where it was broken off it ends with the fall that did so, else with its last sample or fall.
pub fn reading_of(piece: &Piece) -> Reading
    ensures { listed_as result ≡ listed_of (piece_of piece.now) }
{
    let mut bits = ArrayVec::new();
    push_bits(piece.parts.slots.as_slice(), &mut bits);
    Reading {
        begin: piece.parts.head.fall,
        at: close_by(&piece.parts, piece.ending),
        ending: ending_as(piece.ending),
        bits,
    }
}
