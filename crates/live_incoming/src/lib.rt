//! The lines that a reader gives, each as soon as its end was read.
#![tactic(auto)]

mod incoming;
mod laws;

pub use incoming::{IncomingFault, LONGEST_LINE, Lines};
pub use laws::texts_of_lines_have_those_lines;
