//! Laws: what is read of a trace is its run, what its rounds say is what patterns can meet, its capture is judged alike, and what
//! the state line of a device says is what an expectation of a state may ask for.
#![tactic(auto)]

mod laws;
mod state_line_laws;

pub use laws::{
    captures_are_seen_alike, cut_traces_agree, files_are_judged_alike, lines_report_rounds,
    names_are_declared, readings_are_said, refused_are_never_seen, rounds_are_said,
    states_are_of_runs, traces_are_told,
};
pub use state_line_laws::{state_lines_are_said, state_words_are_said};
