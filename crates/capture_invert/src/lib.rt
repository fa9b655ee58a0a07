//! A captured line, read the other way round.
#![tactic(auto)]

mod inverting;
mod laws;

pub use inverting::invert;
pub use laws::inverting_turns_each_level;
