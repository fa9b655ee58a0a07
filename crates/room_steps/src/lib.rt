//! A run of the network step by step: an edge, a round, or on to a round that is looked for.
#![tactic(auto)]

mod events_text;
mod laws;
mod position;
pub mod step_run;
mod stepper;
mod walk;

pub use laws::{rounds_are_the_trace, steps_are_the_trace};
pub use room_step_text::Break;
pub use stepper::{StepError, Stepper};
