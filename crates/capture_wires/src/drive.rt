//! What pulls the line, by itself.
ghost use Rattle.std.specs.Prelude.{◌≡◌, ◌+◌, ◌<◌, ◌∷◌, ◌++◌, [], length};
ghost use Rattle.line_wave.specs.Bounds.{most_stretches};

use arrayvec::ArrayVec;
use line_wave::{MOST_STRETCHES, Stretch};
use std::marker::Model;

/// Where a device pulls the line low. As a value it is the list of its stretches.
#[derive(Debug, Drop)]
pub struct Drive {
    stretches: ArrayVec<Stretch, MOST_STRETCHES>,
}

impl Model for Drive {
    ghost use Rattle.std.specs.Prelude.{List};
    ghost use Rattle.line_wave.specs.declared.Stretch.{Stretch};

    ghost Value = { List Stretch };

    ghost view = { λ d. d.stretches.items };
}

impl Default for Drive {
    fn default() -> Self {
        Drive::new()
    }
}

impl Drive {
    /// One that never pulls.
    pub fn new() -> Self
        ensures { result ≡ [] }
    {
        Drive {
            stretches: ArrayVec::new(),
        }
    }

    /// Adds a stretch.
    pub fn push(&mut self, from: u64, to: u64)
        requires { length self.old < most_stretches }
        ensures { self.new ≡ self.old ++ record { from = from; to = to } ∷ [] }
    {
        self.stretches.push(Stretch { from, to });
    }

    /// The stretches, in the order in which they were added.
    pub fn as_slice(&self) -> &[Stretch]
        ensures { result.now ≡ self.now }
    {
        self.stretches.as_slice()
    }
}
