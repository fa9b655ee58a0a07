//! Whether a capture is as its expectations have it.
#![tactic(auto)]

mod checking;
mod faults;
mod laws;
mod marks;
mod readings;
mod remarks;
mod wanted;

pub use checking::{CaptureCheckError, check_capture};
pub use laws::no_remark_is_judged_alike;
