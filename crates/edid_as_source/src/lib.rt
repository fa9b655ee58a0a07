//! EDIDs as sources read them: the HDMI Forum's override of the count of extensions, and what a source mends or passes over in
//! an EDID that the strict reader refuses.
#![tactic(auto)]

mod count;
mod extensions;
mod front;
mod laws;
mod mend;
mod notes;
mod source;

pub use count::{counted, extension_count, first_count, with_count};
pub use laws::{mended_bytes_are_taken, mended_bytes_stay, mended_sums_are_right};
pub use mend::{mended, write_mend_notes};
pub use notes::write_notes;
pub use source::as_source;
