//! The audit of a captured line: below each reading what a person who knows the standard would remark (HDMI 1.4 CEC).
#![tactic(auto)]

mod audit;
mod auditor;
mod heard;
mod laws;
mod lines;
mod measured;
mod notes;
mod readings;
mod whole;

pub use audit::{AuditOptions, audit_capture, audit_capture_by, hear_audit};
pub use auditor::Auditor;
pub use laws::{
    audits_are_lines, audits_keep_readings, endings_are_said, frames_and_readings_are_one_line,
    remarks_are_left_out, texts_without_a_line_feed, words_without_a_line_feed,
};
pub use readings::{hear_from_idle, hear_readings, watch_capture, watch_from_idle};
