//! The fields of an EDID as objects of JSON, one a line: where each field stands, its name, its value, what it says, and what is found
//! of it.
#![tactic(auto)]

mod blocks;
mod laws;
mod objects;
mod whole;
mod writing;

pub use laws::{
    base_bits_stand_once, block_bits_stand_once, blocks_bits_stand_once, extension_bits_stand_once,
};
pub use writing::write_fields;
