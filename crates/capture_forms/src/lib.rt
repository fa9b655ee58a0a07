//! The line of the bus as a file, in any of the forms that are read and written: edge files, Value Change Dumps, files of pin
//! events, comma-separated values.
#![tactic(auto)]

mod causes;
mod form;
mod reading;
mod writing;

pub use capture_core::{CaptureError, Cause};
pub use form::CaptureForm;
pub use reading::read_capture;
pub use writing::{add_end, add_round, add_start};
