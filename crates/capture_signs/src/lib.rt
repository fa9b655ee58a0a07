//! What a captured line looks like: sums and counts over its low stretches, its runs of falls, its edges and its pieces.
#![tactic(auto)]

mod bounds;
mod laws;
mod lows;
mod pieces;
mod rate;
mod runs;
mod sums;

pub use bounds::{longest_short, shortest_period};
pub use laws::lawful_frames_are_in_order;
pub use pieces::{PieceCounts, counts_of};
pub use rate::coarse_rate;
pub use runs::{RunKind, run_count};
pub use sums::{Sign, signed};
