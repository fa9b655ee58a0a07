//! The remarks of an audit that expectations speak of: which meet a pattern, and how they stand below a test that failed.
#![tactic(auto)]

mod appended;
mod kept;
mod laws;
mod met;

pub use appended::append_record;
pub use kept::audit_remarks;
pub use laws::what_is_shown_was_met;
pub use met::{append_remarks, is_any_met, remarks_met, text_left};
