//! The lines of an EDID's text: a first word and the fields after it, as a value and as text.
#![tactic(auto)]

mod laws;
mod line;
mod line_to_text;
mod text_to_line;

pub use laws::{one_text_of_words, words_end_at_the_first_space};
pub use line::{Fields, Keyword, Line, LineContent, WORD_TEXTS};
pub use text_to_line::{read_line, read_number, space_in, word_of};
