//! Pulses and pulls that a network is told of while it runs.
ghost use Rattle.std.specs.Prelude.{◌≡◌, ◌++◌, ◌∷◌, [], length, MatchResult, ◌||◌, max, nat_lt, ◌+◌};
ghost use Rattle.line_wave.specs.Bounds.{latest_instant};
ghost use Rattle.line_wave.specs.Pulls.{are_timely, are_timely_from};
ghost use Rattle.room_net.specs.Added.{is_late, pulse_fault, with_pulse};

use crate::net::Net;
use line_wave::{LATEST_HEARD, LATEST_INSTANT, MOST_PULLS, Stretch};

// The widest pulse, in microseconds: one that begins by 2,000,000,000,000 may end so much later.
const WIDEST_PULSE: u64 = 10_000;

/// Why a network can't be told of a pulse or a pull.
#[derive(Clone, Copy, Debug, PartialEq, Eq)]
pub enum PulseError {
    /// A round was begun to be taken edge by edge.
    RoundBegun,
    /// It begins before the last round's low stretches have ended.
    Past,
    /// It begins after 2,000,000,000,000, or ends after that and is wider than a pulse.
    Late,
    /// With it those that are left would be more than 16,384, or not in order.
    NotInOrder,
}

fn is_late(pull: Stretch) -> bool
    ensures { result ≡ is_late pull }
{
    pull.from > LATEST_INSTANT || pull.to > LATEST_INSTANT.max(pull.from + WIDEST_PULSE)
}

// Whether these pulls, and one more after them, are in order.
fn are_in_order(known: &[Stretch], pull: Stretch) -> bool
    ensures { result ≡ are_timely_from 0 (known.now ++ pull ∷ []) }
{
    let mut free = 0;
    for stretch in known {
        if stretch.from < free || stretch.to <= stretch.from || stretch.to >= LATEST_HEARD {
            return false;
        }
        free = stretch.to + 1;
    }
    free <= pull.from && pull.from < pull.to && pull.to < LATEST_HEARD
}

#[tactic(auto, using(crate::proofs::Told::too_many, crate::proofs::Told::not_many))]
fn follows(known: &[Stretch], pull: Stretch) -> bool
    ensures { result ≡ are_timely (known.now ++ pull ∷ []) }
{
    if known.len() >= MOST_PULLS {
        return false;
    }
    are_in_order(known, pull)
}

impl<W> Net<W> {
    /// How many of the pulses and pulls that it knows of no round has taken yet.
    pub fn waiting(&self) -> usize
        ensures { result ≡ length self.now.pulses }
    {
        self.pulses.as_slice().len()
    }

    /// Tells of one more pulse or pull, after those that are known.
    ///
    /// # Errors
    ///
    /// The first of `RoundBegun`, `Past`, `Late` and `NotInOrder` that applies; then nothing changes.
    pub fn add_pulse(&mut self, pulse: Stretch) -> Result<(), PulseError>
        ensures { MatchResult result
            (λ _. (pulse_fault self.old pulse ≡ None) × (self.new ≡ with_pulse self.old pulse))
            (λ error. (pulse_fault self.old pulse ≡ Some error) × (self.new ≡ self.old)) }
    {
        if self.begun.is_some() {
            return Err(PulseError::RoundBegun);
        }
        if pulse.from < self.rest {
            return Err(PulseError::Past);
        }
        if is_late(pulse) {
            return Err(PulseError::Late);
        }
        if follows(self.pulses.as_slice(), pulse) {
            self.pulses.push(pulse);
            Ok(())
        } else {
            Err(PulseError::NotInOrder)
        }
    }
}
