//! The frames of a capture: its complete readings, in order, each with its times, its text and its verdict.
#![tactic(auto)]

mod frame;
mod hearing;

pub use frame::CapturedFrame;
pub use hearing::frames_heard;
