//! One verdict of a captured line: what it is, before anybody reads its frames one by one, and the flag with which more of it is read.
#![tactic(auto)]

mod counts;
mod laws;
mod lines;
mod readings;
mod texts;
mod verdict;

pub use laws::{lawful_lines_are_fine, silent_lines_are_idle};
pub use texts::add_verdict;
pub use verdict::{Verdict, verdict_of};
