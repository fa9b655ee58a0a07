//! What is expected of a run: labels and expectations in a script, patterns, and the script without them.
#![tactic(auto)]

mod bits;
mod fault;
mod faults;
mod form;
mod hole;
mod labels;
mod laws;
mod line;
mod named;
mod names;
mod part;
mod pattern;
mod range;
mod remarks;
mod said;
mod state_words;

pub use fault::after_label;
pub use faults::{fault_among, first_fault, readings_fault};
pub use form::{
    Bound, ExpectCause, ExpectLine, ExpectWindow, Quantity, exact_number, form_in, is_pattern,
};
pub use labels::Labels;
pub use laws::{
    counts_are_of_bounds, hex_is_written_in_its_class, names_are_met, patterns_are_met,
    state_words_are_met,
};
pub use line::{Labelled, cut_script, has_verb, onset_in, plain_part, plain_script, unlabelled};
pub use named::NamedPattern;
pub use names::{has_names, is_meetable, meets, named_in};
pub use part::Judged;
pub use pattern::fits;
pub use range::RangeCause;
pub use remarks::is_remark_called;
pub use said::is_said;
pub use state_words::{StateField, is_state_word};
