//! How long the line is free before a frame: the signal free time (CEC 9.1).
ghost use Rattle.std.specs.Prelude.{◌≡◌};
ghost use Rattle.line_frames.specs.FreeTime.{free_time_of};

/// Signal free time: how long the line has to have been free before a device sends (CEC 9.1).
#[derive(Clone, Copy, Debug, PartialEq, Eq)]
pub enum FreeTime {
    /// Three nominal bit periods, the shortest: it sends a frame again.
    Retry,
    /// Five: another device sent last.
    NewInitiator,
    /// Seven: it sent last itself.
    PresentInitiator,
}

impl FreeTime {
    /// The time in microseconds.
    pub fn micros(self) -> u64
        ensures { result ≡ free_time_of self }
    {
        match self {
            FreeTime::Retry => 7_200,
            FreeTime::NewInitiator => 12_000,
            FreeTime::PresentInitiator => 16_800,
        }
    }
}
