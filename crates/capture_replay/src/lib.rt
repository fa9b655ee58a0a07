//! What one device drove on a captured line, as lines of a script that pull the line low there again.
#![tactic(auto)]

mod counts;
mod drive;
mod lines;
mod piece;
mod sides;
mod whole;
mod write;

pub use counts::ReplayCounts;
pub use write::write_replay;
