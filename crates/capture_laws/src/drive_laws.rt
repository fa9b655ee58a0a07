//! Laws of the dumps that report who drives the line of a run.
ghost use Rattle.capture_laws.specs.Rounds.{RoundsAreRuled, RoundsAreTheTraces};
ghost use Rattle.capture_laws.specs.Dumps.{DumpsAreReadAsLines, DumpsReportDrives, TextsHaveDrives};
ghost use Rattle.capture_laws.specs.Names.{MovesKeepNames, NamesAreWords, NamesStart, QueueingKeepsNames, ReportsKeepNames};

/// Each round of a run is one of which [`drives_are_the_line`](room_drives::drives_are_the_line) speaks.
pub fn rounds_are_ruled()
    ensures { RoundsAreRuled }
{}

/// The rounds whose drives are told are those that the trace of the same texts reports, in order.
pub fn rounds_are_the_traces()
    ensures { RoundsAreTheTraces }
{}

/// A topology and a script that are accepted have a dump of their run and of who drives its line.
pub fn texts_have_drives()
    ensures { TextsHaveDrives }
{}

/// The dump of a run and of who drives its line reports at every microsecond a line that is low exactly where one of the wires
/// below it is low.
pub fn dumps_report_drives()
    ensures { DumpsReportDrives }
{}

/// Read as its first wire or by the line's name, that dump is the same capture as the dump of the line alone.
pub fn dumps_are_read_as_lines()
    ensures { DumpsAreReadAsLines }
{}

/// The names of a run's devices are those of its topology, and each is one word.
pub fn names_are_the_topologys()
    ensures start { NamesStart }
    ensures words { NamesAreWords }
{}

/// A device keeps its name, whatever it queues and reports, and as it comes onto the wire and leaves it.
pub fn names_stay()
    ensures queued { QueueingKeepsNames }
    ensures reported { ReportsKeepNames }
    ensures moved { MovesKeepNames }
{}
