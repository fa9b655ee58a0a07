//! Sweeps: what is found of a script's expectations at each instant of a series that stands for one of its times.
#![tactic(auto)]

mod order;
mod places;
mod progress;
mod script;
mod series;
mod stretches;
mod sweeping;

pub use progress::{ProgressHearer, SilentProgress, SweepProgress};
pub use script::has_range;
pub use sweeping::{SweepError, sweep};
