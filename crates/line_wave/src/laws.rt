//! Laws of lines, of pulses and of what a sender pulls.
ghost use Rattle.line_wave.specs.Line.{FallsOfWaves, LinesWereAsTheyAre, NoneBeginBeforeWaves, QuietBeforeWaves, RisesOfWaves, SomeAreWaves};
ghost use Rattle.line_wave.specs.Pulls.{EarlyPulsesArePulls, TimelyTested};
ghost use Rattle.line_wave.specs.Pulses.{FaultlessAreSparse, SparseAreWaves};
ghost use Rattle.line_wave.specs.Times.{TimesOfSenders};

/// No fault is found in a list of stretches exactly where they are sparse pulses.
pub fn faultless_are_sparse()
    ensures { FaultlessAreSparse }
{}

/// Sparse pulses are stretches in order, none of which overlaps or touches another.
pub fn sparse_are_waves()
    ensures { SparseAreWaves }
{}

/// The test of pulls finds them in order, and each over in time.
pub fn timely_tested()
    ensures { TimelyTested }
{}

/// A sender has a stretch for the start and one for each slot, each at its nominal time (CEC 5.2).
pub fn times_of_senders()
    ensures { TimesOfSenders }
{}

/// On a wave the falls of the line are where its stretches begin and the rises where they end; before the wave the line is
/// high, and no stretch begins.
pub fn waves_fall_and_rise()
    ensures falls { FallsOfWaves }
    ensures rises { RisesOfWaves }
    ensures quiet { QuietBeforeWaves }
    ensures none_begins { NoneBeginBeforeWaves }
{}

/// Just before the next microsecond a line is as it is in this one.
pub fn lines_were_as_they_are()
    ensures { LinesWereAsTheyAre }
{}

/// Those stretches of a wave that pass a test are a wave.
pub fn some_of_a_wave_are_one()
    ensures { SomeAreWaves }
{}

/// Sparse pulses that begin early enough are pulls: few, in order, and over in time.
pub fn early_pulses_are_pulls()
    ensures { EarlyPulsesArePulls }
{}
