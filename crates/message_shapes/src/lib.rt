//! How the frames of each opcode look, for help.
#![tactic(auto)]

mod shape;

pub use shape::{frame_shape, set_label};
