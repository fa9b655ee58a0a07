//! What the program does with a capture, and what it says of it.
#![tactic(auto)]

mod capture;
mod compared;
mod edges;
mod fault;
mod following;
mod front;
mod signs;
mod summary;

pub use capture::{form_of, name_lost, show, without_short};
pub use compared::write_diff;
pub use edges::write_edges;
pub use fault::MonitorFault;
pub use following::follow_capture;
pub use signs::{Signs, name_wires};
pub use summary::{ReadAs, name_verdict, write_summary};
