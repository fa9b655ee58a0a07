//! The lines of an audit, and of readings, as values and as records: what each is called, which section of the standard it goes by,
//! whether it says that the standard has something otherwise (HDMI 1.4 CEC), its text, its object, and what hears it.
#![tactic(auto)]

mod folding;
mod hearing;
mod kind;
mod laws;
mod note;
mod reading;
mod records;
mod strict;
mod writing;

pub use folding::{Folding, HeldRun};
pub use hearing::LineHearer;
pub use kind::NoteKind;
pub use laws::folding_loses_no_line;
pub use note::{AuditNote, SpreadKind, WidthSummary};
pub use reading::{BadStartRun, ReadingGroup};
pub use strict::Strict;
pub use writing::LineWriter;
