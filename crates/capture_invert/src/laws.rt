//! Laws of a line that is read the other way round.
ghost use Rattle.capture_invert.specs.Inverted.{InvertingTurnsEachLevel};

/// Of a capture the turned edges are a capture with the same end, whose line is low at each instant at which the other is high,
/// and high where it is low. Turned twice it is as it was.
pub fn inverting_turns_each_level()
    ensures { InvertingTurnsEachLevel }
{}
