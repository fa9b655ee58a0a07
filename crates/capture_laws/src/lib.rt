//! Laws of lines and their captures: a monitor reads the line of a run, in each format, as the run's line; a dump of several wires
//! reports each of its wires, and one of who drives the line reports a line that is low exactly where somebody pulls it; the next
//! edge of a round's line where a wire is told of the next pulse alone.
#![tactic(auto)]

mod drive_laws;
mod dump_laws;
mod laws;
mod next_edge_laws;

pub use drive_laws::{
    dumps_are_read_as_lines, dumps_report_drives, names_are_the_topologys, names_stay,
    rounds_are_ruled, rounds_are_the_traces, texts_have_drives,
};
pub use dump_laws::{dumps_are_read_as_the_line, dumps_report_their_wires};
pub use laws::{
    edge_files_are_read_back, files_of_runs_have_their_readings, lines_are_read_back,
    lines_of_runs_have_their_readings, monitors_report_traces, monitors_report_traces_in_all,
    scripts_are_over, waves_are_captures,
};
pub use next_edge_laws::{edges_come_soon, edges_stay};
