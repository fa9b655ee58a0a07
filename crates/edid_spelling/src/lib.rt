//! EDIDs' texts with payloads in words, as `video 16* 4 3` for `video 900403`: what the words stand for, and the text with
//! them in hex.
#![tactic(auto)]

mod audio;
mod canonical;
mod hdmi;
mod rows;
mod speakers;
mod timing;
mod video;

pub use canonical::{canonical_text, in_words};
