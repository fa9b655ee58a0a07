//! How far a sweep is.
ghost use Rattle.std.specs.Prelude.{◌%◌, ◌==◌};
ghost use Rattle.expect_sweep.specs.Progress.{IsTold, told_each};

/// After so many instants, and again after as many more, how far a sweep is is told.
const TOLD_EACH: u64 = 1000;

/// How far a sweep is.
#[derive(Clone, Copy, Debug, Drop, PartialEq, Eq)]
pub struct SweepProgress {
    /// How many instants are done, from the first one on.
    pub done: u64,
    /// How many instants the range has.
    pub count: u64,
    /// How many stretches make those that are done.
    pub stretches: u64,
}

/// Hears how far a sweep is.
pub trait ProgressHearer {
    ghost use Rattle.expect_sweep.specs.declared.progress.SweepProgress.{SweepProgress};

    /// To hear it leads it from one state to another.
    ghost hears: { Self → SweepProgress → Self → Type 0 };

    /// The sweep is so far.
    fn hear(&mut self, progress: SweepProgress)
        ensures { hears self.old progress self.new };
}

/// Hears nothing.
#[derive(Drop)]
pub struct SilentProgress;

impl ProgressHearer for SilentProgress {
    ghost hears = { λ r p s. Unit {0} };

    fn hear(&mut self, _progress: SweepProgress) {}
}

/// Tells how far a sweep is that has more instants.
pub(crate) fn tell<H: ProgressHearer>(hearer: &mut H, done: u64, count: u64, stretches: u64)
    ensures { IsTold H.hears (done % told_each == 0) hearer.old (record { done = done; count = count; stretches = stretches }) hearer.new }
{
    if done % TOLD_EACH == 0 {
        hearer.hear(SweepProgress {
            done,
            count,
            stretches,
        });
    }
}
