//! Laws of the counts.
ghost use Rattle.capture_signs.specs.Pieces.{LawfulFramesAreInOrder};

/// Where each piece is a frame in order, or the rest of one in which the capture begins, as many frames are in order as there are.
pub fn lawful_frames_are_in_order()
    ensures { LawfulFramesAreInOrder }
{}
