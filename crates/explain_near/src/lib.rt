//! Known words that are near one, and words that stand for others elsewhere: numbers, and the words of frames.
//!
//! All of it is text for people, so that tests speak of it and no contract does.
#![tactic(auto)]

mod frames;
mod near;
mod numbers;
mod operands;
mod others;
mod respelled;

pub use frames::{
    add_address_meant, add_header_meant, add_nearest_opcode, add_opcode_alone, add_opcode_meant,
    add_parted, add_parts, add_text, add_unparted,
};
pub use near::{add_enclosed, add_exchanged, add_near, add_nearest, add_suggestion, is_near};
pub use numbers::{add_number, add_unit};
pub use operands::{
    add_code, add_count_meant, add_nearest_operand, add_operands_meant, add_pattern_operands_meant,
    add_pattern_words_meant, add_quotes, add_set_meant,
};
pub use others::add_other;
pub use respelled::{add_respelled, add_value, bare};
