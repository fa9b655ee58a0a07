//! How much room the blocks of an EDID have, as records: a line for each block, or its object of JSON.
#![tactic(auto)]

mod laws;
mod records;
mod room;

pub use laws::room_is_taken;
pub use records::write_room;
pub use room::{cta_left, cta_used, free_descriptors, free_established, free_standards};
