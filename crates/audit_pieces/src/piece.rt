//! Pieces of a captured line.

use crate::stretch::LowStretch;
use arrayvec::ArrayVec;
use line_frames::MOST_BITS;

/// A slot of a frame. Instants are in microseconds.
#[derive(Clone, Copy, Debug, Default, PartialEq, Eq)]
pub struct Slot {
    pub fall: u64,
    pub rise: u64,
    /// Where it falls again, in an acknowledge slot that was pulled late (CEC 5.2.3).
    pub late: Option<u64>,
}

/// What a piece is made of.
#[derive(Debug, Drop)]
pub struct Parts {
    /// What it begins with: a start bit or a low drive, or a bit that has none before it.
    pub head: LowStretch,
    /// The slots of a frame.
    pub slots: ArrayVec<Slot, MOST_BITS>,
    /// What breaks a frame off.
    pub broken_by: Option<LowStretch>,
    /// How many bits trail behind its end.
    pub trail: u64,
    /// Where the last of all its stretches falls.
    pub last: u64,
}

/// Where a stretch stands in the piece that it follows.
#[derive(Clone, Copy, Debug, PartialEq, Eq)]
pub enum Place {
    /// It is the next slot.
    InSlot,
    /// It acknowledges the last slot late.
    Late,
    /// It breaks the frame off.
    Breaks,
    /// It is a bit behind its end.
    Trails,
    /// It begins the next piece.
    Outside,
}

/// How a piece ends.
#[derive(Clone, Copy, Debug, PartialEq, Eq)]
pub enum PieceEnding {
    /// A frame with all slots up to the acknowledge of a block whose EOM is 1.
    Complete,
    /// A frame after which nothing comes that belongs to it.
    Stops,
    /// A frame that a long stretch breaks off, which is no start bit.
    Drive,
    /// A frame within which a start bit begins.
    Overrun,
    /// A frame with a bit that comes sooner than any bit may.
    Intruder,
    /// A frame that goes on after its sixteenth block.
    Long,
    /// A frame within which the capture ends.
    Open,
    /// Bits without a start bit.
    Stray,
    /// The same at the begin of the capture: the rest of a frame.
    Mid,
}

/// What comes after a piece.
#[derive(Clone, Copy, Debug, PartialEq, Eq)]
pub enum After {
    /// The next stretch.
    Fall(LowStretch),
    /// The end of the capture.
    End(u64),
}

/// A piece of a captured line: a frame that is nearly right or was broken off, or bits without a start bit.
#[derive(Debug, Drop)]
pub struct Piece {
    pub parts: Parts,
    pub ending: PieceEnding,
}
