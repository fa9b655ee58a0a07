//! An EDID's text, and below each of its lines what that means, after two spaces.
#![tactic(auto)]

mod edid_meaning;
mod laws;
mod meanings;
mod plain;
mod writing;

pub use edid_meaning::edid_to_meaning;
pub use laws::meaning_keeps_the_text;
pub use plain::plain_text;
pub use writing::write_meaning;
