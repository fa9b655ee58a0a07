//! What the program does with an EDID, and what it says of it.
#![tactic(auto)]

pub mod edid;
mod edid_compared;
mod edid_described;
mod edid_explained;
mod edid_fault;
mod edid_framed;
mod edid_given;
mod edid_judged;
mod edid_read;
mod edid_told;

pub use edid_compared::diff;
pub use edid_described::write_read_eld;
pub use edid_explained::{explain_lack, explain_merge, explain_rules, explain_speakers, name_read};
pub use edid_fault::EdidFault;
pub use edid_framed::frame;
pub use edid_told::told;
