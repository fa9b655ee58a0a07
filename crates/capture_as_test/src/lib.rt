//! A capture as its own test: the lines that `check --capture` takes, of each frame with its verdict in order, within the time that it
//! took, and that the audit has no remark.
#![tactic(auto)]

mod lines;
mod pattern;
mod remarks;
mod timing;
mod write;

pub use write::{AsTestError, write_as_test};
