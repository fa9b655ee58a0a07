//! From the bytes of CEC frames, as tools print them, to the frames.
#![tactic(auto)]

mod bytes;
mod laws;
mod lines;
mod remarks;

pub use bytes::{DisCause, frame_in};
pub use laws::{assembled_frames_are_read, spellings_are_read};
pub use lines::{DisError, TextOfFrame, write_frames};
pub use remarks::remark;
