//! What may be asked for otherwise of a capture, so that more of it is read.
#![tactic(auto)]

mod complete;
mod lacks;
mod widening;

pub use complete::complete_by;
pub use widening::{Widening, widening_of};
