//! What an ELD says, in words: records of its fields, of its speakers and of its short audio descriptors, and its bytes in hex.
#![tactic(auto)]

mod records;
mod words;
mod writing;

pub use writing::{EldFault, write_eld, write_eld_fields, write_eld_hex};
