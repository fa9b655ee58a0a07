//! The flags of `edid`, read exactly.
#![tactic(auto)]

mod flags;
mod rows;

pub use flags::{EdidFlags, EdidValue, edid_asked, edid_flags, with_edid_flag, with_edid_word};
