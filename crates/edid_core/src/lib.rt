//! Whole EDIDs: a base block and up to three extensions, bytes to values and back, the physical address in them, and
//! what of them a port passes on.
#![tactic(auto)]

mod address;
mod bytes;
mod edid;
mod laws;
mod passing;
mod root;

pub use address::first_address;
pub use bytes::{EdidError, edid_from_bytes, edid_to_bytes, read_parts};
pub use edid::Edid;
pub use laws::{lengths_are_of_whole_blocks, one_spelling_of_edids, spelled_edids_are_accepted};
pub use passing::{AudioFrom, append_extensions, pass_on_extensions, write_passed_parts};
pub use root::{EdidCause, RootError, root_of, root_on_heap};
