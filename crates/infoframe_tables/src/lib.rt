//! InfoFrames: one as its bytes, read from hex; of which kind it is, the table of its fields, and its checksum. A field that is added
//! to a standard's InfoFrame is a row.
#![tactic(auto)]

mod avi;
mod frame;
mod hdr;
mod kinds;
mod laws;
mod rows;
mod sound;
mod vendors;

pub use frame::{InfoFrame, InfoFrameError};
pub use kinds::{
    FrameKind, beyond_of, checksum_due, frame_parts, is_summed, kind_of, kind_word, length_of,
    missing_of, own_bytes, packet_byte, version_of,
};
pub use laws::frames_are_tables;
