//! The lists of words in help, from the tables: of frames, of keys with the kinds that have them, of codes, and of causes; and the
//! words of a line.
//!
//! All of it is text for people, so that tests speak of it and no contract does.
#![tactic(auto)]

mod draft;
mod frames;
mod list;
mod script_words;
mod words;

pub use draft::Draft;
pub use frames::{OPERAND_WORDS, add_name, add_shape, frame_forms};
pub use script_words::{add_key_lines, add_keys_of, add_set, run_words, taken_by};
pub use words::{Gaps, span_of, word_at, word_count};
