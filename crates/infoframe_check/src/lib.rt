//! An InfoFrame against an EDID, as records: a line or an object of JSON for the InfoFrame, one for each of its fields, and one for
//! each thing that it says and the display does not offer.
#![tactic(auto)]

mod fields;
mod header;
mod unoffered;
mod writing;

pub use writing::write_infoframe;
