//! Laws of the lines of a trace.
ghost use Rattle.room_trace.specs.PortText.{PortLinesAreRecords};
ghost use Rattle.room_trace.specs.Records.{LinesAreRecords};

/// The lines of rounds, events and states, and the last line, are those of their records.
pub fn lines_are_records()
    ensures { LinesAreRecords }
{}

/// The line of a port is that of its record.
pub fn port_lines_are_records()
    ensures { PortLinesAreRecords }
{}
