//! Laws of smoothing.
ghost use Rattle.capture_smooth.specs.Smooth.{SmoothingKeepsWhatIsLong};

/// Without a shortest width all edges stay, and so do edges that are as far apart as it; what is left is a capture whose
/// edges are that far apart, and the line has its level outside of the short pulses and gaps.
pub fn smoothing_keeps_what_is_long()
    ensures { SmoothingKeepsWhatIsLong }
{}
