//! Laws of scaling.
ghost use Rattle.capture_scale.specs.Scaled.{ScalingKeepsCaptures};

/// By a factor of 1 a capture is as it was. Scaled within the limit it is a capture, whose edges alternate, each later than the
/// one before it. By a factor of 1 or more each of its edges stays.
pub fn scaling_keeps_captures()
    ensures { ScalingKeepsCaptures }
{}
