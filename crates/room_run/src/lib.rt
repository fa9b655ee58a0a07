//! The run of a network, from the texts of its topology and its script: its trace, the objects of its trace, or its line in a format.
#![tactic(auto)]

pub mod edges;
pub mod emulate;
mod heap;
mod laws;
pub mod line;
mod line_text;
pub mod objects;
mod objects_text;
mod reporter;
mod run;
mod source;
mod trace_text;
mod turn;
mod turn_by_turn;

pub use heap::edid_on_heap;
pub use laws::{
    accepted_texts_fit_runs, all_before_is_one, calls_are_turns, edges_are_the_line,
    lines_are_of_the_rounds, objects_are_of_the_trace, one_run, one_run_text, one_trace,
    reported_is_front, rounds_stay, runs_are_causal, runs_are_read, runs_are_short,
    runs_close_soon, runs_have_texts, texts_have_objects, texts_have_one_line, texts_have_one_run,
    texts_have_one_text_of_objects, texts_have_one_trace, texts_have_traces, totals_count_turns,
    traces_are_causal, traces_have_parts, turns_are_added, turns_are_certain, turns_are_one,
    turns_bring_on, turns_stay_certain, turns_tell_the_text,
};
pub use reporter::{AppliedEvent, Reporter};
pub use run::{Totals, Turn, first_time, next_turn, told};
pub use source::{ScriptSource, ScriptText};
pub use trace_text::{Passed, TraceText};
pub use turn::{take_event, take_round};
pub use turn_by_turn::run_turns;
