//! A wave: stretches in order that neither overlap nor touch.
ghost use Rattle.std.specs.Prelude.{◌≡◌, ◌+◌, ◌<◌, ◌≤◌, ◌∷◌, ◌++◌, [], length};
ghost use Rattle.line_wave.specs.Line.{IsWave};
ghost use Rattle.line_wave.specs.Sender.{sender_stretches};
ghost use Rattle.line_wave.specs.Bounds.{latest_instant, most_slots};

use crate::{FIRST_SLOT, LOW_OF_0, LOW_OF_1, MOST_SENT, SLOT, START_LOW, Stretch};
use arrayvec::ArrayVec;
use std::marker::Model;

/// At most `N` stretches in order that neither overlap nor touch: each is at least a microsecond wide, and
/// begins after the end of the one before. As a value it is the list of its stretches.
#[derive(Debug, Drop)]
pub struct Wave<const N: usize> {
    stretches: ArrayVec<Stretch, N>,
}

impl<const N: usize> Model for Wave<N> {
    ghost use Rattle.std.specs.Prelude.{List};
    ghost use Rattle.line_wave.specs.declared.Stretch.{Stretch};
    ghost use Rattle.line_wave.specs.Line.{IsWave};

    ghost Value = { List Stretch };

    ghost view = { λ w. w.stretches.items };

    ghost invariant = { λ w. IsWave w.stretches.items };
}

impl<const N: usize> Wave<N> {
    /// A line that is never low.
    pub fn new() -> Self
        ensures { result ≡ [] }
    {
        Wave {
            stretches: ArrayVec::new(),
        }
    }

    /// Adds a stretch that begins after the end of the last one.
    pub fn push(&mut self, stretch: Stretch)
        requires room { length self.old < N }
        requires order { IsWave (self.old ++ stretch ∷ []) }
        ensures { self.new ≡ self.old ++ stretch ∷ [] }
    {
        self.stretches.push(stretch);
    }

    /// Lets go of all stretches.
    pub fn clear(&mut self)
        ensures { self.new ≡ [] }
    {
        self.stretches.clear();
    }

    /// The same wave again.
    pub fn copy(&self) -> Self
        ensures { result ≡ self.now }
    {
        let mut copy = Wave::new();
        let _ = copy
            .stretches
            .try_extend_from_slice(self.stretches.as_slice());
        copy
    }

    /// The stretches, in order.
    pub fn as_slice(&self) -> &[Stretch]
        ensures stretches { result.now ≡ self.now }
        ensures wave { IsWave result.now }
    {
        self.stretches.as_slice()
    }
}

/// What a sender of these bits pulls low from `start` on, at the standard's nominal times (CEC 5.2): the start
/// bit, 3,700 low, then from 4,500 on a slot each 2,400, low for 600 for a 1 and 1,500 for a 0. A sender of at
/// most 160 bits, which begins at most at 2,000,000,000,000.
pub fn lay(bits: &[bool], start: u64) -> Wave<MOST_SENT>
    requires few { length bits.now ≤ most_slots }
    requires early { start ≤ latest_instant }
    ensures { result ≡ sender_stretches start bits.now }
{
    let mut stretches = ArrayVec::new();
    stretches.push(Stretch {
        from: start,
        to: start + START_LOW,
    });
    let mut fall = start + FIRST_SLOT;
    for bit in bits {
        let low = if *bit { LOW_OF_1 } else { LOW_OF_0 };
        stretches.push(Stretch {
            from: fall,
            to: fall + low,
        });
        fall += SLOT;
    }
    Wave { stretches }
}
