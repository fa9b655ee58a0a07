//! The EDID that a repeater answers with: of a display's and of the receiver's own, by a table of one row for each kind of block.
#![tactic(auto)]

mod base;
mod blocks;
mod extension;
mod labels;
mod mixing;
mod notes;
mod repeater;
mod speakers;
mod subject;
mod table;

pub use mixing::Way;
pub use notes::write_merge_notes;
pub use repeater::{MergeError, TooLong, Unfit, merge, one_edid};
pub use speakers::{SpeakersError, with_speakers};
pub use subject::{Subject, subject_of};
pub use table::{Bits, Formats, Numbers, Table, Whose};
