//! Laws of the frames of two captures beside each other.
ghost use Rattle.capture_difference.specs.Laws.{FirstIsTold, NoDifferenceIsEquality, SecondIsTold};

/// No difference is told exactly where both captures have the same frames with the same verdicts, in order.
pub fn no_difference_is_equality()
    ensures { NoDifferenceIsEquality }
{}

/// Each frame of either capture is told once, in order.
pub fn every_frame_is_told_once()
    ensures first { FirstIsTold }
    ensures second { SecondIsTold }
{}
