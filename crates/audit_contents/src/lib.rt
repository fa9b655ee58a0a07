//! What devices say on a captured line against the rules of the standard for contents: how often each device broke each rule, and where
//! first (HDMI 1.4 CEC 10, 12.3, 13, 17).
#![tactic(auto)]

mod contents;
mod finding;
mod rule;
mod rules;
mod said;
mod texts;

pub use contents::Contents;
pub use texts::add_contents;
