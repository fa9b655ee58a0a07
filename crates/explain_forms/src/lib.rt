//! What a line at fault may have been meant to be: the forms of lines, of keys and of fields, and known words that are near.
//!
//! All of it is text for people, so that tests speak of it and no contract does.
#![tactic(auto)]

mod captures;
mod expected;
mod fields;
mod forms;
mod frames;
mod hexes;
mod keys;
mod labels;
mod meant;
mod names;
mod order;
mod patterns;
mod ranges;
mod repairs;
mod room;
mod slipped;
mod topology;
mod wanted;

pub use forms::add_right_forms;
pub use meant::{add_meant, is_right_but_for_return};
pub use slipped::add_slip;
