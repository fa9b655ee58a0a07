//! A captured line without its short pulses and gaps.
#![tactic(auto)]

mod laws;
mod smoothing;

pub use laws::smoothing_keeps_what_is_long;
pub use smoothing::smooth_edges;
