//! Laws of the verdict.
ghost use Rattle.capture_verdict.specs.Verdicts.{LawfulLinesAreFine, SilentLinesAreIdle};

/// A line is fine that is not stuck, all of whose pieces are frames in order or the rest of one in which it begins, of which one
/// has a whole block.
pub fn lawful_lines_are_fine()
    ensures { LawfulLinesAreFine }
{}

/// A line that does not fall is idle.
pub fn silent_lines_are_idle()
    ensures { SilentLinesAreIdle }
{}
