//! How two EDIDs differ, as records: the lines of their texts that stand in one alone, and the values that differ in lines of one kind.
#![tactic(auto)]

mod aligning;
mod laws;
mod part;
mod records;
mod values;
mod writing;

pub use laws::{parts_stand_side_by_side, same_bytes_do_not_differ};
pub use writing::write_difference;
