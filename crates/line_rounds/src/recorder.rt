//! The wave of a line, recorded microsecond by microsecond.
ghost use Rattle.std.specs.Prelude.{◌≡◌, ◌<◌, length, None, is_some, []};
ghost use Rattle.line_wave.specs.Bounds.{most_stretches};

use line_wave::{MOST_STRETCHES, Stretch, Wave};

/// The stretches that are over, and since when the line is low now.
#[derive(Debug, Drop)]
pub struct Recorder {
    pub wave: Wave<MOST_STRETCHES>,
    pub low_since: Option<u64>,
}

impl Recorder {
    ghost use Rattle.line_rounds.specs.Machine.{wave_after, low_since, IsReady};

    /// Nothing was low so far.
    pub fn new() -> Self
        ensures wave { result.wave ≡ [] }
        ensures high { result.low_since ≡ None }
    {
        Recorder {
            wave: Wave::new(),
            low_since: None,
        }
    }

    /// Nothing was low so far, as when it was new.
    pub fn clear(&mut self)
        ensures wave { self.new.wave ≡ [] }
        ensures high { self.new.low_since ≡ None }
    {
        self.wave.clear();
        self.low_since = None;
    }

    /// The same record again.
    pub fn copy(&self) -> Self
        ensures { result ≡ self.now }
    {
        Recorder {
            wave: self.wave.copy(),
            low_since: self.low_since,
        }
    }

    /// Whether the line was low last.
    pub fn was_low(&self) -> bool
        ensures { result ≡ is_some self.now.low_since }
    {
        self.low_since.is_some()
    }

    /// The line is low, or high, in microsecond `t`, the next one.
    pub fn hear(&mut self, t: u64, is_low: bool)
        requires room { length self.old.wave < most_stretches }
        requires ready { IsReady self.old.wave self.old.low_since t }
        ensures wave { self.new.wave ≡ wave_after self.old.wave self.old.low_since t is_low }
        ensures since { self.new.low_since ≡ low_since self.old.low_since t is_low }
    {
        match (self.low_since, is_low) {
            (None, true) => self.low_since = Some(t),
            (Some(from), false) => {
                self.wave.push(Stretch { from, to: t });
                self.low_since = None;
            }
            _ => {}
        }
    }
}
