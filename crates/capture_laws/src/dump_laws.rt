//! Laws of dumps of several wires.
ghost use Rattle.capture_laws.specs.WireDumps.{DumpsAreReadAsTheLine, DumpsReportTheirWires};

/// A dump of several wires, one span of time after another, declares each of them, and reports its level at every
/// microsecond.
pub fn dumps_report_their_wires()
    ensures { DumpsReportTheirWires }
{}

/// What is read of such a dump, asked for the first wire or for the line by its name, is the line, up to the dump's end.
pub fn dumps_are_read_as_the_line()
    ensures { DumpsAreReadAsTheLine }
{}
