//! Laws of the files of a run's line.
ghost use Rattle.capture_laws.specs.Capture.{EdgeFilesAreReadBack, FilesOfRunsHaveTheirReadings, MonitorsReportTraces};
ghost use Rattle.capture_laws.specs.Formats.{LinesAreReadBack, LinesOfRunsHaveTheirReadings, MonitorsReportTracesInAll};
ghost use Rattle.capture_laws.specs.Waves.{EdgesTellWaves, ScriptsAreOver, WavesAreCaptures};

/// The edges of a line that is high from the end on, written as a run writes them, are read as they were, and say that
/// line.
pub fn edge_files_are_read_back()
    ensures { EdgeFilesAreReadBack }
{}

/// The edge file of a run is read as a file whose readings are those of the run's rounds, in order, each once.
pub fn files_of_runs_have_their_readings()
    ensures { FilesOfRunsHaveTheirReadings }
{}

/// What a monitor writes of the edge file of a topology and a script are the readings of the rounds that their trace
/// reports, in order, each once.
pub fn monitors_report_traces()
    ensures { MonitorsReportTraces }
{}

/// A line that rounds make and that is high from the end on, written in any format, is read as its edges.
pub fn lines_are_read_back()
    ensures { LinesAreReadBack }
{}

/// The line of a run, written in any format, is read as a capture whose readings are those of the run's rounds, in order,
/// each once.
pub fn lines_of_runs_have_their_readings()
    ensures { LinesOfRunsHaveTheirReadings }
{}

/// What a monitor writes of the line of a topology and a script, written in any format, are the readings of the rounds that
/// their trace reports, in order, each once.
pub fn monitors_report_traces_in_all()
    ensures { MonitorsReportTracesInAll }
{}

/// The edges of a wave tell its line, and are a capture where it is high from the end on.
pub fn waves_are_captures()
    ensures line { EdgesTellWaves }
    ensures capture { WavesAreCaptures }
{}

/// The pulses and pulls of a script are over by the latest instant.
pub fn scripts_are_over()
    ensures { ScriptsAreOver }
{}
