//! A line at fault with another text in the place of some of its words, read again: what is suggested is what is then read.
//!
//! All of it serves texts for people, so that tests speak of it and no contract does.
#![tactic(auto)]

mod captures;
mod changed;
mod expectations;
mod lines;
mod scripts;
mod spot;
mod taken;

pub use spot::Spot;
pub use taken::{is_taken, is_taken_as_range, is_whole_line_read};
