//! Pulls of a line: low stretches in order, whoever pulls.
ghost use Rattle.std.specs.Prelude.{◌≡◌, ◌+◌, ◌<◌, ◌≤◌, ◌++◌, ◌∷◌, [], length, MatchOption, drop, filter, nat_lt, true, false};
ghost use Rattle.line_wave.specs.Line.{IsWave};
ghost use Rattle.line_wave.specs.Pulls.{AreTimely, are_timely, are_timely_from};

use crate::{LATEST_HEARD, MOST_PULLS, Stretch};
use arrayvec::ArrayVec;
use std::marker::Model;

/// At most 16,384 pulls, each a microsecond wide at least and over before 3,000,000,000,000, each beginning after the end of the
/// one before. As a value it is the list of its stretches.
#[derive(Debug, Drop)]
pub struct Pulls {
    stretches: ArrayVec<Stretch, MOST_PULLS>,
    /// How many of the stretches were let go, counted from the first.
    gone: usize,
}

impl Model for Pulls {
    ghost use Rattle.std.specs.Prelude.{List, ◌≤◌, drop, length};
    ghost use Rattle.line_wave.specs.declared.Stretch.{Stretch};
    ghost use Rattle.line_wave.specs.Pulls.{AreTimely};
    ghost use Rattle.line_wave.specs.Bounds.{most_pulls};

    ghost Value = { List Stretch };

    ghost view = { λ p. drop p.gone p.stretches.items };

    ghost invariant = { λ p. (p.gone ≤ length p.stretches.items) × (length p.stretches.items ≤ most_pulls) × AreTimely (drop p.gone p.stretches.items) };
}

impl Pulls {
    /// No pulls.
    pub fn none() -> Self
        ensures { result ≡ [] }
    {
        Pulls {
            stretches: ArrayVec::new(),
            gone: 0,
        }
    }

    /// The pulls of these stretches, or none where there are too many, where one is empty, ends too late, or begins before the
    /// one before it has ended, or as it ends.
    pub fn new(stretches: &[Stretch]) -> Option<Self>
        ensures { MatchOption result (are_timely stretches.now ≡ false) (λ pulls. (pulls ≡ stretches.now) × (are_timely stretches.now ≡ true)) }
    {
        if !are_timely(stretches) {
            return None;
        }
        let mut pulls = Pulls::none();
        pulls.become_those(stretches);
        Some(pulls)
    }

    /// Becomes the pulls of these stretches, in its own place: pulls are large.
    pub fn become_those(&mut self, stretches: &[Stretch])
        requires { AreTimely stretches.now }
        ensures { self.new ≡ stretches.now }
    {
        self.gone = 0;
        self.stretches.clear();
        let _ = self.stretches.try_extend_from_slice(stretches);
    }

    /// Adds a pull after the last one, where it stands: pulls are large.
    pub fn push(&mut self, pull: Stretch)
        requires { AreTimely (self.old ++ pull ∷ []) }
        ensures { self.new ≡ self.old ++ pull ∷ [] }
    {
        if self.gone > 0 {
            let _ = self.stretches.drain(..self.gone);
            self.gone = 0;
        }
        self.stretches.push(pull);
    }

    /// The same pulls again.
    pub fn copy(&self) -> Self
        ensures { result ≡ self.now }
    {
        let mut copy = Pulls::none();
        copy.copy_from(self);
        copy
    }

    /// Becomes a copy of other pulls, in its own place: they are large.
    pub fn copy_from(&mut self, other: &Self)
        ensures { self.new ≡ other.now }
    {
        self.become_those(other.as_slice());
    }

    /// The stretches, in order.
    pub fn as_slice(&self) -> &[Stretch]
        ensures pulls { result.now ≡ self.now }
        ensures timely { AreTimely result.now }
    {
        &self.stretches[self.gone..]
    }

    /// Lets go of the pulls that begin at an instant or before it.
    pub fn drop_until(&mut self, instant: u64)
        ensures { self.new ≡ filter (λ p. nat_lt instant p.from) self.old }
    {
        self.gone += begun_by(self.as_slice(), instant);
    }
}

// How many of these pulls begin at an instant or before it: they come first.
pub(crate) fn begun_by(pulls: &[Stretch], instant: u64) -> usize
    requires { IsWave pulls.now }
    ensures few { result ≤ length pulls.now }
    ensures rest { drop result pulls.now ≡ filter (λ p. nat_lt instant p.from) pulls.now }
{
    let mut begun = 0;
    'begun: while begun < pulls.len() && pulls[begun].from <= instant {
        begun += 1;
    }
    begun
}

// From an instant on these are pulls.
fn are_timely_from(from: u64, stretches: &[Stretch]) -> bool
    ensures { result ≡ are_timely_from from stretches.now }
{
    let mut free = from;
    for stretch in stretches {
        if stretch.from < free || stretch.to <= stretch.from || stretch.to >= LATEST_HEARD {
            return false;
        }
        free = stretch.to + 1;
    }
    true
}

fn are_timely(stretches: &[Stretch]) -> bool
    ensures { result ≡ are_timely stretches.now }
{
    stretches.len() <= MOST_PULLS && are_timely_from(0, stretches)
}
