//! What is wrong with an EDID, as records: a line for each finding, or its object of JSON.
#![tactic(auto)]

mod laws;
mod records;

pub use laws::{finding_objects_are_read_back, finding_records_are_lines};
pub use records::write_findings;
