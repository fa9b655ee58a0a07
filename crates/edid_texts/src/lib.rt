//! The text of a whole EDID, written and read.
#![tactic(auto)]

mod base_steps;
mod draft;
mod fields;
mod laws;
mod line_to_block;
mod line_to_value;
mod parse;
mod place;
mod stage;
mod standing;
mod steps;
mod tail;
mod value_to_lines;
mod writing;

pub use edid_core::{Edid, EdidError, edid_from_bytes, edid_to_bytes};
pub use laws::{
    edids_have_few_lines, lines_are_of_one_edid, lines_end_with_feeds, lines_of_edids_are_lines,
};
pub use parse::{TextError, first_line, parse_text};
pub use value_to_lines::line_at;
pub use writing::{write_parts, write_text};
