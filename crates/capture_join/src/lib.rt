//! A capture that begins in the middle of a frame: where its line is first idle, and the one line that stands for what is read before
//! (HDMI 1.4 CEC, 9.1).
#![tactic(auto)]

mod hearing;
mod idle;
mod laws;

pub use hearing::{has_begun, has_joined, hear_joined, hear_known, hear_opened};
pub use idle::IdleSearch;
pub use laws::{
    a_line_is_idle_first_once, lines_of_readings_go_on,
    readings_before_the_line_is_idle_are_one_line, what_is_found_stays_first,
};
