//! Laws of the wide reading.
ghost use Rattle.audit_pieces.specs.Frames.{FramesArePieces};
ghost use Rattle.audit_pieces.specs.Wide.{OneWide, PiecesAreAll, ReadersGivePieces};

/// What a reader gives are the pieces of the stretches that it was given.
pub fn readers_give_pieces()
    ensures { ReadersGivePieces }
{}

/// A capture has one list of pieces.
pub fn one_wide_reading()
    ensures { OneWide }
{}

/// The pieces of a capture, one after another, are all of its stretches, in order.
pub fn pieces_are_all()
    ensures { PiecesAreAll }
{}

/// A start bit and the bits of a frame up to the acknowledge of its last block, 1,650 at least and less than 6,000 from fall to fall, are one
/// complete piece where nothing follows for 6,000.
pub fn frames_are_pieces()
    ensures { FramesArePieces }
{}
