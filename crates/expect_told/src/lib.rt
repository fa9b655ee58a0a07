//! What is told of a run, turn by turn, and of a reading: rounds and events, by which expectations are judged.
#![tactic(auto)]

mod laws;
mod said;
mod senders;
mod shown;

pub use laws::{marked_records_are_records, texts_end_so, texts_have_one_told};
pub use said::{is_complete, reading_kept, refusal_said, say_round};
pub use shown::{marked, push_marked, reading_shown, round_shown};
