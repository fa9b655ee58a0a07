//! Laws of frames that are laid.
ghost use Rattle.message_lay.specs.Laws.{FaultlessAreSent, FramesAreSent, LaidArePulls, PullLines, PullsAreReadBack};

/// Without a fault a frame is laid as a sender of nominal times pulls it (CEC 5.2).
pub fn faultless_are_sent()
    ensures { FaultlessAreSent }
{}

/// So is each line of an instant and the text of a frame: no frame's text is taken for a fault.
pub fn frames_are_sent()
    ensures { FramesAreSent }
{}

/// The pulls of a text are pulls of a script: in order, none touching another, each 1 to 10,000,000 microseconds wide, none
/// later than 1,000,000,000,000.
pub fn laid_are_pulls()
    ensures { LaidArePulls }
{}

/// The line of a pull's record is `pull T WIDTH`, and it stands in the record's object.
pub fn pulls_are_lines()
    ensures lines { PullLines }
    ensures objects { PullsAreReadBack }
{}
