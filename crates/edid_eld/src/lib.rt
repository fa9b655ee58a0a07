//! EDID-like data (ELD): what an audio device is told of the display behind its port, made of an EDID, and read from bytes (High
//! Definition Audio 1.0a, section 7.3.3.34.1).
#![tactic(auto)]

mod codes;
mod display;
mod eld;
mod laws;
mod reading;
mod sound;
mod writing;

pub use codes::{Connection, EldVersion};
pub use display::{display_eld, eld_of};
pub use eld::Eld;
pub use laws::eld_reads_back;
pub use reading::{EldError, read_eld};
