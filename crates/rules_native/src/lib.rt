//! What an EDID marks as native: detailed timings and video codes.
#![tactic(auto)]

mod natives;
mod picture;

pub use natives::{MAX_PICTURES, differs, has_mixed_natives, native_pictures};
pub use picture::Picture;
