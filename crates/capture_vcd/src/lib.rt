//! Value Change Dumps (IEEE 1364-2005, 18) of the CEC line, as PulseView, GTKWave and simulators read and write them: from
//! the stretches of a line to a dump, and from a dump to the edges of the line.
#![tactic(auto)]

mod laws;
mod reader;
mod reading;
mod scale;
mod words;
mod writing;

pub use laws::{dumps_are_read_back, dumps_are_sampled, times_are_lines};
pub use reading::read_vcd;
pub use writing::{add_changes, add_head, add_last};
