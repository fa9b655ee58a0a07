//! Laws of state lines.
ghost use Rattle.judge_laws.specs.Lines.{StateLinesAreSaid, StateWordsAreSaid};

/// Each word after the name in a device's state line is one that is not refused in an expectation of a state.
pub fn state_lines_are_said()
    ensures { StateLinesAreSaid }
{}

/// A word is taken in an expectation of a state exactly where it stands in the state line of some device.
pub fn state_words_are_said()
    ensures { StateWordsAreSaid }
{}
