//! A receiver that reads by windows of its own.
ghost use Rattle.std.specs.Prelude.{◌≡◌, ◌≤◌, ◌<◌, length, IfSome, option_map};
ghost use Rattle.line_wave.specs.Bounds.{latest_heard};
ghost use Rattle.line_frames.specs.Bits.{most_bits};
ghost use Rattle.line_reading.specs.Windows.{AreWindows};

use crate::receiver::{Receiver, Told};
use crate::times::Windows;
use line_frames::Reading;

/// A receiver that reads by windows of its own. It is used as a `Receiver` is: it is given each fall and each rise, and then
/// ticks at that instant; between edges it ticks when it wakes.
#[derive(Debug, Drop)]
pub struct WideReceiver {
    receiver: Receiver,
    windows: Windows,
    ghost are: { AreWindows windows },
}

impl WideReceiver {
    ghost use Rattle.std.specs.Prelude.{ℕ, Bool, true, false};
    ghost use Rattle.line_reading.specs.Hears.{heard_by, rest, hear_in_by, wake_of_by, reported_so};
    ghost use Rattle.line_reading.specs.Following.{StoodBeforeBy, StandsOnBy, FollowsBy, FollowsAgainBy, ReportsOnceBy, WakesFewerBy, WakesBy};
    ghost use Rattle.line_reading.specs.Reports.{listed_as, running_by};

    /// A receiver that has heard nothing of its line yet. It stands on the line that is never low, at each instant.
    pub fn new(windows: Windows) -> Self
        requires are { AreWindows windows }
        ensures windows { result.windows ≡ windows }
        ensures before { (low : ℕ → Bool) → StoodBeforeBy windows result.receiver low 0 }
        ensures rests { (heard_by result.receiver ≡ rest) × (result.receiver.was_low ≡ false) × (result.receiver.is_low ≡ false) }
    {
        WideReceiver {
            receiver: Receiver::new(),
            windows,
        }
    }

    /// The same receiver again.
    pub fn copy(&self) -> Self
        ensures { result ≡ self.now }
    {
        WideReceiver {
            receiver: self.receiver.copy(),
            windows: self.windows,
        }
    }

    /// The line falls at `t`.
    pub fn fall(&mut self, t: u64)
        ensures windows { self.new.windows ≡ self.old.windows }
        ensures keeps { heard_by self.new.receiver ≡ heard_by self.old.receiver }
        ensures notes { (self.new.receiver.was_low ≡ self.old.receiver.was_low) × (self.new.receiver.is_low ≡ true) }
    {
        self.receiver.fall(t);
    }

    /// The line rises at `t`.
    pub fn rise(&mut self, t: u64)
        ensures windows { self.new.windows ≡ self.old.windows }
        ensures keeps { heard_by self.new.receiver ≡ heard_by self.old.receiver }
        ensures notes { (self.new.receiver.was_low ≡ self.old.receiver.was_low) × (self.new.receiver.is_low ≡ false) }
    {
        self.receiver.rise(t);
    }

    /// Microsecond `t` has come, in which the line falls or rises, or at which the receiver wakes. Returns what that
    /// instant adds: a sample, an ending, or both. The receiver then stands on each line that goes on so.
    pub fn tick(&mut self, t: u64) -> Told
        requires early { t ≤ latest_heard }
        ensures windows { self.new.windows ≡ self.old.windows }
        ensures heard { reported_so (heard_by self.new.receiver) result ≡ hear_in_by self.old.windows t self.old.receiver.was_low self.old.receiver.is_low (heard_by self.old.receiver) }
        ensures level { (self.new.receiver.was_low ≡ self.old.receiver.is_low) × (self.new.receiver.is_low ≡ self.old.receiver.is_low) }
        ensures follows { FollowsBy self.old.windows self.old.receiver t result self.new.receiver }
        ensures again { FollowsAgainBy self.old.windows self.old.receiver t result self.new.receiver }
        ensures once { ReportsOnceBy self.old.windows self.old.receiver t }
        ensures fewer { WakesFewerBy self.old.windows self.old.receiver t self.new.receiver }
    {
        self.receiver.step(&self.windows, t)
    }

    /// The next instant that adds something, where no edge comes first.
    pub fn wakes_at(&self) -> Option<u64>
        ensures wakes { WakesBy self.now.windows self.now.receiver result }
        ensures exact { result ≡ wake_of_by self.now.windows (heard_by self.now.receiver) }
    {
        self.receiver.wake(&self.windows)
    }

    /// The reading that runs, if one does, as far as it was heard: it is open at `t`.
    pub fn running(&self, t: u64) -> Option<Reading>
        ensures kept { option_map listed_as result ≡ running_by (heard_by self.now.receiver) t }
        ensures room { IfSome result (λ reading. length reading.bits.items < most_bits) }
    {
        self.receiver.running(t)
    }
}
