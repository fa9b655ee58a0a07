//! What the program says of a fault beyond its one line: the line of the input, the word, and what would be right.
//!
//! All of it is text for people, so that tests speak of it and no contract does.
#![tactic(auto)]

mod edids;
mod explanation;
mod hints;
mod right;

pub use explanation::{counts, explain, explain_line};
