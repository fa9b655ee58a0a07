//! What a script says.
ghost use Rattle.std.specs.Prelude.{◌≡◌, true};
ghost use Rattle.line_wave.specs.Pulls.{are_timely};

use crate::script::TimedEvent;
use line_wave::{Pulls, Stretch};

/// What happens to a network: events in the order of their times, pulses and pulls in order, and the end of the run. Pulses
/// and pulls are one list, as long as the script has some: [`Script::to_pulls`] makes the [`Pulls`] of a run from it.
#[derive(Drop)]
pub struct Script {
    pub events: Vec<TimedEvent>,
    pub pulses: Vec<Stretch>,
    pub end: u64,
    ghost timely: { are_timely pulses.items ≡ true },
}

impl Script {
    /// What is pulled low from outside in a run of this script: the stretches of [`pulses`](Script::pulses), in order. There is
    /// room for 16,384 of them, 256 KB, however few there are.
    // They are large: the frame of the caller is kept free of what is made on the way.
    #[inline(never)]
    pub fn to_pulls(&self) -> Pulls
        ensures { result ≡ self.now.pulses.items }
    {
        match Pulls::new(&self.pulses) {
            Some(pulls) => pulls,
            None => unreachable!(),
        }
    }
}
