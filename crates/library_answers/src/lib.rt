//! What calls for other languages answer: a number that says how it went, and bytes in the room that the caller lends.
#![tactic(auto)]

mod answer;
mod code;
mod faults;
mod room;

pub use answer::Answer;
pub use code::Code;
pub use faults::{edid_code, frame_code, text_code};
pub use room::{put, refused};
