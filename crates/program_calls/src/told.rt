//! What there is to say of what was done.
use program_captures::Signs;
use room_run::Totals;

/// What there is to say of what was done.
#[derive(Clone, Copy, Debug)]
pub enum Recap {
    /// The counts of a run.
    Run(Totals),
    /// What a capture looks like.
    Capture(Signs),
    Nothing,
}
