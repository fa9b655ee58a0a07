//! The names of what one sees on the line: in each round what is read, and which bit of it is on the line.
#![tactic(auto)]

mod names;
mod notes;

pub use names::said_text;
pub use notes::{add_named_closing, add_named_opening, add_named_round};
