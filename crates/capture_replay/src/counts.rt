//! How many low stretches are written, and how many are left out.
ghost use Rattle.std.specs.Prelude.{◌≡◌};
ghost use Rattle.capture_replay.specs.Counts.{tallied, with_left, with_pin};

/// How many low stretches of a capture are written as pins, and how many are left out, since the line does not tell who drove them. The
/// counts stay at their greatest value.
#[derive(Clone, Copy, Debug, PartialEq, Eq)]
pub struct ReplayCounts {
    pub pins: u64,
    pub left_out: u64,
}

impl ReplayCounts {
    // None so far.
    pub(crate) fn none() -> Self
        ensures { result ≡ tallied 0 0 }
    {
        ReplayCounts {
            pins: 0,
            left_out: 0,
        }
    }

    // One more is written.
    pub(crate) fn add_pin(&mut self)
        ensures { self.new ≡ with_pin self.old }
    {
        self.pins = self.pins.saturating_add(1);
    }

    // So many more are left out.
    pub(crate) fn leave_out(&mut self, count: u64)
        ensures { self.new ≡ with_left count self.old }
    {
        self.left_out = self.left_out.saturating_add(count);
    }
}
