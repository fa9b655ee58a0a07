//! Pulses on the line from outside: few, narrow and far apart.
ghost use Rattle.std.specs.Prelude.{◌≡◌, ◌+◌, ◌<◌, ◌≤◌, [], length, Some, None, MatchResult, Option, drop, filter, nat_lt};
ghost use Rattle.line_wave.specs.Line.{IsWave};
ghost use Rattle.line_wave.specs.Pulses.{pulses_fault, stretch_fault, AreSparse};

use crate::pulls::begun_by;
use crate::{PulsesError, Stretch};
use arrayvec::ArrayVec;
use std::marker::Model;

/// The most pulses.
pub const MOST_PULSES: usize = 4096;

// The widest pulse, and the least time from the end of a pulse to the begin of the next one.
const WIDEST: u64 = 10_000;

const LEAST_GAP: u64 = 25_000;

/// At most 4,096 pulses, each 1 to 10,000 microseconds wide, each beginning at least 25,000 after the end of
/// the one before. As a value it is the list of its stretches.
#[derive(Debug, Drop)]
pub struct Pulses {
    stretches: ArrayVec<Stretch, MOST_PULSES>,
    /// How many of the stretches were let go, counted from the first.
    gone: usize,
}

impl Model for Pulses {
    ghost use Rattle.std.specs.Prelude.{List, ◌≤◌, drop, length};
    ghost use Rattle.line_wave.specs.declared.Stretch.{Stretch};
    ghost use Rattle.line_wave.specs.Pulses.{AreSparse};

    ghost Value = { List Stretch };

    ghost view = { λ p. drop p.gone p.stretches.items };

    ghost invariant = { λ p. (p.gone ≤ length p.stretches.items) × AreSparse p.stretches.items };
}

impl Pulses {
    /// The pulses, or the first fault of these stretches: `TooMany` before all others, then stretch by stretch
    /// `Width` (also where a stretch ends before it begins), `Order` and `Close`.
    pub fn new(stretches: &[Stretch]) -> Result<Self, PulsesError>
        ensures { MatchResult result
            (λ pulses. (pulses ≡ stretches.now) × (pulses_fault stretches.now ≡ None))
            (λ fault. pulses_fault stretches.now ≡ Some fault) }
    {
        if stretches.len() > MOST_PULSES {
            return Err(PulsesError::TooMany);
        }
        // They are large, and filled where they stand.
        let mut pulses = Pulses {
            stretches: ArrayVec::new(),
            gone: 0,
        };
        let mut before = None;
        for stretch in stretches {
            if let Some(fault) = stretch_fault(before, *stretch) {
                return Err(fault);
            }
            pulses.stretches.push(*stretch);
            before = Some(stretch.to);
        }
        Ok(pulses)
    }

    /// No pulses.
    pub fn none() -> Self
        ensures { result ≡ [] }
    {
        Pulses {
            stretches: ArrayVec::new(),
            gone: 0,
        }
    }

    /// Becomes the pulses of these stretches, in its own place: pulses are large.
    #[tactic(auto, using(crate::proofs::Sparse::faultless_are_sparse))]
    pub fn become_those(&mut self, stretches: &[Stretch])
        requires { pulses_fault stretches.now ≡ None }
        ensures { self.new ≡ stretches.now }
    {
        self.gone = 0;
        self.stretches.clear();
        let _ = self.stretches.try_extend_from_slice(stretches);
    }

    /// The same pulses again.
    pub fn copy(&self) -> Self
        ensures { result ≡ self.now }
    {
        match ArrayVec::try_from(self.as_slice()) {
            Ok(stretches) => Pulses { stretches, gone: 0 },
            Err(_) => unreachable!(),
        }
    }

    /// Becomes a copy of other pulses, in its own place: they are large.
    pub fn copy_from(&mut self, other: &Self)
        ensures { self.new ≡ other.now }
    {
        self.gone = 0;
        self.stretches.clear();
        let _ = self.stretches.try_extend_from_slice(other.as_slice());
    }

    /// The stretches, in order.
    pub fn as_slice(&self) -> &[Stretch]
        ensures pulses { result.now ≡ self.now }
        ensures sparse { AreSparse result.now }
        ensures wave { IsWave result.now }
    {
        &self.stretches[self.gone..]
    }

    /// Lets go of the pulses that begin at an instant or before it.
    pub fn drop_until(&mut self, instant: u64)
        ensures { self.new ≡ filter (λ p. nat_lt instant p.from) self.old }
    {
        self.gone += begun_by(self.as_slice(), instant);
    }
}

/// What is wrong with a stretch after one that ends at `before`, if anything is.
pub fn stretch_fault(before: Option<u64>, stretch: Stretch) -> Option<PulsesError>
    ensures { result ≡ stretch_fault before stretch }
{
    if stretch.to <= stretch.from || stretch.to - stretch.from > WIDEST {
        return Some(PulsesError::Width);
    }
    let end = before?;
    if stretch.from < end {
        Some(PulsesError::Order)
    } else if stretch.from - end < LEAST_GAP {
        Some(PulsesError::Close)
    } else {
        None
    }
}
