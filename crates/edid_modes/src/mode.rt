//! A picture, and how often a second a display shows it.
ghost use Rattle.std.specs.Prelude.{◌≡◌, ◌<◌, ◌≤◌, MatchOption, ⊤};
ghost use Rattle.edid_modes.specs.Modes.{IsMode, lines_with, mode_fault, time_left};

use thiserror::Error;

/// The pixels of a cell: CVT and GTF count a line in cells.
const CELL: u64 = 8;
/// The most pixels of a line, and the most lines, for which a detailed timing has room.
const MOST: u64 = 4095;
/// The most frames a second, in Hz.
const FASTEST: u64 = 500;
/// The microseconds of a second.
const SECOND: u64 = 1_000_000;

/// A picture of so many pixels and lines, shown `rate` times a second.
#[derive(Clone, Copy, Debug, PartialEq, Eq)]
pub struct Mode {
    pub width: u64,
    pub height: u64,
    pub rate: u64,
}

/// Which number of a mode is at fault.
#[derive(Clone, Copy, Debug, PartialEq, Eq, Error)]
pub enum ModeFault {
    /// The width is no multiple of 8 from 8 to 4,088.
    #[error("width")]
    Width,
    /// The height is not from 1 to 4,095.
    #[error("height")]
    Height,
    /// The rate is not from 1 to 500 Hz, or a detailed timing has no room for what the formula gives.
    #[error("rate")]
    Rate,
}

impl Mode {
    // The first of its numbers that is none of a mode.
    pub(crate) fn fault(self) -> Option<ModeFault>
        ensures value { result ≡ mode_fault self }
        ensures fits { MatchOption result (IsMode self) (λ _. ⊤) }
    {
        if self.width == 0 || self.width > MOST || self.width % CELL != 0 {
            Some(ModeFault::Width)
        } else if self.height == 0 || self.height > MOST {
            Some(ModeFault::Height)
        } else if self.rate == 0 || self.rate > FASTEST {
            Some(ModeFault::Rate)
        } else {
            None
        }
    }

    // The lines of a second, where each frame has some more than the picture's.
    pub(crate) fn lines_with(self, more: u64) -> u64
        requires is_mode { IsMode self }
        requires few { more < 4 }
        ensures value { result ≡ lines_with self more }
        ensures small { result < 4000000 }
    {
        self.rate * (self.height + more)
    }

    // The microseconds of a second that are left where each frame spends some on blanking.
    pub(crate) fn time_left(self, blanking: u64) -> u64
        requires is_mode { IsMode self }
        requires short { blanking ≤ 550 }
        ensures value { result ≡ time_left self blanking }
        ensures some { 0 < result }
        ensures small { result ≤ 1000000 }
    {
        SECOND - blanking * self.rate
    }
}
