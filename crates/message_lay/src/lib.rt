//! Frames laid as pulls of a script: what a sender of nominal times pulls (HDMI 1.4 Supplement 1, CEC 5.2), with a fault or none.
#![tactic(auto)]

mod bits;
mod fault;
mod glitch;
mod laws;
mod lay;
mod line;
mod order;
mod pulls;
mod words;

pub use bits::{BitTimes, MOST_BLOCKS};
pub use fault::{LayCause, LayError};
pub use laws::{faultless_are_sent, frames_are_sent, laid_are_pulls, pulls_are_lines};
pub use lay::lay_lines;
