//! The difference of two captures of one dialogue: their frames beside each other, the first that one of them lacks or has with another
//! verdict, and when each begins in both.
#![tactic(auto)]

mod align;
mod laws;
mod lines;
mod nearest;
mod row;
mod write;

pub use laws::{every_frame_is_told_once, no_difference_is_equality};
pub use write::{DifferenceError, write_capture_difference};
