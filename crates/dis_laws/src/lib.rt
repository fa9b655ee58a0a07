//! A law of frames in hex and what they mean.
#![tactic(auto)]

mod laws;

pub use laws::meanings_keep_the_texts;
