//! What a section of DisplayID in an EDID's extension means: its header, and its data blocks by tables, a table for each.
#![tactic(auto)]

mod forms;
mod kinds;
mod one;
mod sections;
mod timings;
mod two;

pub use sections::{append_displayid, append_timing_block};
