//! A run whose script comes line by line: after each line, what of the trace is certain by then, and one line of answer.
#![tactic(auto)]

mod answer;
mod command;
mod edges;
mod foreseen;
mod laws;
mod live;
mod note;
mod session_text;
mod start;
mod turns;

pub use answer::{Refusal, RefusalCause};
pub use laws::{
    edges_are_certain, edges_stay, pinned_edges_stay, sessions_report_fronts,
    sessions_report_traces, sessions_report_traces_of, steps_have_one_text,
};
pub use live::{Answered, Live, LiveError, Step};
