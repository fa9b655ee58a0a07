//! A report of a captured line by logical addresses: what its audit tells of each, counted, what it says against the rules, and what
//! nobody can be charged with (HDMI 1.4 CEC 5.2, 7.1, 9.1, 9.2).
#![tactic(auto)]

mod charges;
mod kinds;
mod laws;
mod parties;
mod report;
mod row;
mod tally;
mod texts;
mod walk;
mod widths;

pub use laws::{answers_are_told, remarks_are_told, rows_are_told};
pub use report::report_capture;
