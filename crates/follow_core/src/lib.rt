//! A capture that is read line by line, and whose readings are written as soon as they are over.
#![tactic(auto)]

mod edge_lines;
mod error;
mod follower;
mod following;
mod laws;
mod lines;
mod passing;
mod reception;
mod shown;
mod teller;
mod view;

pub use error::FollowError;
pub use follower::{EndedReadings, Follower, LastReadings};
pub use following::follow;
pub use laws::{
    edges_come_before_what_is_left, edges_of_a_line_are_told, lines_leave_a_capture_in_turn,
    long_lines_are_too_much, told_readings_come_first, what_is_made_was_read,
};
pub use lines::{CaptureLines, Last, LineForm};
pub use passing::{LastEdges, PassedEdges, PassingLines};
pub use reception::Reception;
pub use shown::{Shown, Starts};
pub use teller::{PassedReadings, Teller};
pub use view::ReadingView;
