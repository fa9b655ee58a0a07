//! Where a fault stands in an input: its line, and the words of that line that are at fault.
//!
//! All of it serves texts for people, so that tests speak of it and no contract does.
#![tactic(auto)]

mod edges;
mod expectations;
mod fault;
mod form;
mod grammar;
mod marks;
mod place;
mod slips;

pub use expectations::{
    as_form, forms_of, label_words, labelled_by, plain, window_start, without_label,
};
pub use fault::{Input, InputFault, Parting, WholeFault};
pub use form::{Expected, Form, Lines, fitting, forms_in, is_value, missing, most_fitting};
pub use grammar::{
    EXPECTATIONS, LAID, NETWORK, REFUSALS, REMARKS, SCRIPT, SESSION, SESSION_ALONE, STEPS, TEST,
    TOPOLOGY, is_event_word, is_script_verb,
};
pub use marks::{Mark, frame_start, gaps_of, is_number, is_word, marked};
pub use place::{
    FaultyLine, InputLine, before_script, declared_by, is_line_end, kind_of, length_of_lines,
    place_in_session, place_of, ports_of,
};
pub use slips::{WordSlip, slip_of};
