//! A captured CEC line: its falls and rises up to an end, the track of a reader that is told levels and instants, the reader of
//! a text of any form, and decimals of seconds.
#![tactic(auto)]

mod capture;
mod fault;
mod laws;
mod reading;
mod seconds;
mod track;

pub use capture::Capture;
pub use fault::{CaptureError, Cause};
pub use laws::{
    decimals_are_read_again, digits_lack_other_bytes, edges_are_in_turn, high_lines_have_ended,
    levels_are_sampled, lines_end_at_line_feeds, numbers_are_read_again, read_texts_go_on,
    texts_are_read_in_order, texts_lack_bytes, tracks_record_what_is_told, tracks_tell_turns,
};
pub use reading::{TakesWords, no_gap, read_lines};
pub use seconds::{decimals_in, instant_of, nine_digits};
pub use track::{GoesBack, Track};
