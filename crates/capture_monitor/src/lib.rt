//! A monitor of the line: from its falls and rises, as a logic analyser captures them, to what was read on it.
#![tactic(auto)]

mod edge_file;
mod edge_text;
mod laws;
mod monitor;
mod reading;
mod watching;

pub use edge_file::{EdgeLine, edge_line_in, is_in_turn, word_out_of_turn, word_past};
pub use edge_text::{add_edges, add_last};
pub use laws::{edge_lines_go_on, ended_readings_come_first, standard_windows_read_the_line};
pub use monitor::{Monitor, ended_of};
pub use reading::{EdgeError, read_edges};
pub use watching::{WatchError, watch};
