//! Laws of room.
ghost use Rattle.edid_room.specs.Laws.{BaseIsWhole, CtaIsWhole, LongerDoNot, ReaderHasRoom, ShorterFit};

/// The room of a block is what its bytes leave, and what the reader of texts gives.
/// - `base`, `cta`: what is used and what is left are the 128 bytes of a block;
/// - `reader`: after the blocks and timings of an extension the reader has the bytes that are left, and those of the tail;
/// - `shorter`: a data block that is no longer than what is left fits there, and the tail after it;
/// - `longer`: after a longer one the tail does not.
pub fn room_is_taken()
    ensures base { BaseIsWhole }
    ensures cta { CtaIsWhole }
    ensures reader { ReaderHasRoom }
    ensures shorter { ShorterFit }
    ensures longer { LongerDoNot }
{}
