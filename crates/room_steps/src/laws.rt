//! Laws of steps.
ghost use Rattle.room_steps.specs.Trace.{RoundsAreTheTrace};
ghost use Rattle.room_steps.specs.TraceSteps.{StepsAreTheTrace};

/// The rounds of a stepper are those of the run's trace: what it writes of them, one after another, is the front of the
/// trace, and after all of them the trace has the lines of the events after the last one and what the end reports.
pub fn rounds_are_the_trace()
    ensures { RoundsAreTheTrace }
{}

/// What [`step_run`](crate::step_run::step_run) writes of rounds stands in the trace of the same topology and script, in the same
/// order. Of steps `round` alone it is what the trace begins with, the texts of as many rounds or of all that the run has.
pub fn steps_are_the_trace()
    ensures { StepsAreTheTrace }
{}
