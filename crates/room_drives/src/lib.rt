//! Who drives the line of a round: the pull of each seat by itself, and of the pulses.
#![tactic(auto)]

mod drives;
mod laws;
mod seat;

pub use drives::{MOST_DRIVES, begun_within, put_drives};
pub use laws::{drives_are_ruled, drives_are_the_line, lines_are_driven};
