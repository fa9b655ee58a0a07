//! The texts of a run step by step: the steps that are asked for, the round that is looked for, and the line of an edge.
#![tactic(auto)]

mod break_at;
mod commands;
mod edge_text;

pub use break_at::{Break, stops};
pub use commands::{CommandsError, StepCommand, parse_commands};
pub use edge_text::{add_edge, write_edge};
