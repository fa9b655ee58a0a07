//! CEC frames as records, and in plain words: the text of each frame, and below it what its sender says.
#![tactic(auto)]

mod addresses;
mod frame;
mod laws;
mod lines;
mod meaning;
mod sentences;

pub use laws::{named_opcodes_have_sentences, objects_have_the_lines, records_have_the_lines};
pub use lines::dis_lines;
pub use sentences::{Sentence, sentence_of};
