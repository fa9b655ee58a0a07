//! Laws of verdicts: a line of frames that are sent with the nominal times is fine.
#![tactic(auto)]

mod laws;

pub use laws::{sent_frames_are_pieces, sent_lines_are_fine, sent_lines_are_frames};
