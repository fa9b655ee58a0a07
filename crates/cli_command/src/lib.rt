//! The words of a command line, and the help that they may ask for.
#![tactic(auto)]

mod choice;
mod edid_help;
mod frames_help;
mod help;
mod rules;
mod values;

pub use choice::{Refused, choose};
