//! An EDID without the formats that its link does not carry, and what a receiver answers with.
#![tactic(auto)]

mod answers;
mod blocks;
mod codes;
mod displayid;
mod edid;
mod laws;
mod tail;
mod timings;

pub use answers::merge_bytes;
pub use edid::fitted_edid;
pub use laws::nothing_is_beyond;
