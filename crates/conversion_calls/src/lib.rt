//! EDIDs over a sink: from bytes to text and from text to bytes, what is wrong with them, what is passed on of them, and
//! the address in them.
#![tactic(auto)]

mod edid_findings;
mod edid_text;
mod form;
mod laws;
mod passed_on;
mod passing;
mod programs;

pub use edid_findings::edid_to_findings;
pub use edid_text::{EdidToTextError, TextToHexError, edid_to_text, text_to_edid, text_to_hex};
pub use form::EdidForm;
pub use laws::{ports_are_those_of_the_tree, televisions_pass_on_as_the_tree};
pub use passed_on::{check_passed_on, write_address, write_passed_on};
pub use passing::{Destination, PassOnError, Passing};
pub use programs::{write_c, write_xml};
