//! Laws of drives.
ghost use Rattle.room_drives.specs.Drives.{DrivesAreRuled, DrivesAreTheLine, LinesAreDriven};

/// The line of a round is low exactly where a pulse or one of its seats pulls.
pub fn lines_are_driven()
    ensures { LinesAreDriven }
{}

/// The drive of each seat of a round is low exactly where that seat pulls by the rule of a round, and that of the pulses exactly
/// where one of them does.
pub fn drives_are_ruled()
    ensures { DrivesAreRuled }
{}

/// The line of a round is low exactly where one of its drives is.
pub fn drives_are_the_line()
    ensures { DrivesAreTheLine }
{}
