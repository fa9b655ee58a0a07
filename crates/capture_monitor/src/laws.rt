//! Laws of readings by windows, and of the lines of edge files.
ghost use Rattle.capture_monitor.specs.EdgeFile.{EdgeLinesGoOn};
ghost use Rattle.capture_monitor.specs.ReadBy.{EndedComeFirst, StandardReadsLines};

/// By the standard's windows the readings are those of the line.
pub fn standard_windows_read_the_line()
    ensures { StandardReadsLines }
{}

/// The readings of a line begin with those that have ended before an instant.
pub fn ended_readings_come_first()
    ensures { EndedComeFirst }
{}

/// The lines that are left of an edge file which is read have edges that alternate, at the instant up to which it was read or
/// later, and an end that is not before them and within the limit.
pub fn edge_lines_go_on()
    ensures { EdgeLinesGoOn }
{}
