//! What is said of the pieces of a captured line, as lines and as objects: what each is called, which section of the standard it goes by
//! (HDMI 1.4 CEC), and who is at fault.
#![tactic(auto)]

mod cells;
mod kinds;
mod records;

pub use kinds::{cause_name, cause_section, ending_name, ending_section};
pub use records::{add_cause, add_ending, add_goes_on, add_width};
