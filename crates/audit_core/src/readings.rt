//! From a capture to its readings, as lines that are heard, or written.
ghost use Rattle.std.specs.Prelude.{◌≡◌, ◌||◌, false, map, option_map, ℕ};
ghost use Rattle.std.specs.Option.{option_to_list};
ghost use Rattle.line_reading.specs.Reports.{listed_as};
ghost use Rattle.capture_core.specs.Edges.{line_of_edges};
ghost use Rattle.line_reading.specs.Windows.{AreWindows, standard};
ghost use Rattle.capture_monitor.specs.Watch.{as_file, captured_by, file_readings, readings_text};
ghost use Rattle.record_core.specs.declared.cell.Form.TheVariants.{Text};
ghost use Rattle.text_core.specs.Cut.{WritesText};
ghost use Rattle.audit_notes.specs.Lines.{AuditLine, lines_text};
ghost use Rattle.capture_join.specs.Joined.{IsJoined, joined_lines};

use audit_notes::LineHearer;
use capture_core::Capture;
use capture_join::{IdleSearch, has_joined, hear_joined};
use capture_monitor::Monitor;
use line_reading::{STANDARD, Windows};
use text_core::{Counted, Sink, WriteFault};

// The first instant at which the line is idle, or the end.
fn joined_at(capture: &Capture) -> u64
    ensures { IsJoined (line_of_edges capture.now.edges) capture.now.end result }
{
    let edges = capture.edges();
    let mut search = IdleSearch::new();
    for edge in edges {
        search.edge(*edge);
    }
    search.end(capture.end())
}

// Hears the readings of a capture by windows, joined up to an instant.
fn hear_from<H: LineHearer>(capture: &Capture, windows: Windows, joined_at: u64, out: &mut H)
    requires { AreWindows windows }
    ensures { H.hears out.old (joined_lines joined_at false (captured_by windows capture.now)) out.new }
{
    let edges = capture.edges();
    let mut monitor = Monitor::with_windows(windows);
    let mut is_reported = false;
    for edge in edges {
        let reading = monitor.edge(*edge);
        hear_joined(out, &reading, joined_at, is_reported);
        is_reported = has_joined(&reading, joined_at, is_reported);
    }
    let reading = monitor.finish(capture.end());
    hear_joined(out, &reading, joined_at, is_reported);
}

/// Has the readings of a capture heard, as a monitor reads them by these windows.
pub fn hear_readings<H: LineHearer>(capture: &Capture, windows: Windows, out: &mut H)
    requires { AreWindows windows }
    ensures { H.hears out.old (map AuditLine.Reading (captured_by windows capture.now)) out.new }
{
    hear_from(capture, windows, 0, out);
}

/// The same of a capture that may begin in the middle of a frame: one line stands for those that begin before the first instant
/// before which the line was high for 7,200 microseconds of the capture, or its end where there is none.
pub fn hear_from_idle<H: LineHearer>(capture: &Capture, windows: Windows, out: &mut H)
    requires { AreWindows windows }
    ensures { (t : ℕ) × IsJoined (line_of_edges capture.now.edges) capture.now.end t × H.hears out.old (joined_lines t false (captured_by windows capture.now)) out.new }
{
    hear_from(capture, windows, joined_at(capture), out);
}

// Writes the lines of the readings of a capture, joined up to an instant.
#[tactic(auto, using(line_reading::proofs::Standard::standard_are))]
fn write_from<S: Sink>(capture: &Capture, joined_at: u64, out: &mut S) -> Result<(), WriteFault>
    ensures { WritesText (S.contents out.old) (S.contents out.new) (S.is_stuck out.old) (S.is_stuck out.new) (lines_text Text (joined_lines joined_at false (captured_by standard capture.now))) result }
{
    let mut readings = Counted::new(out);
    hear_from(capture, STANDARD, joined_at, &mut readings);
    let written = readings.written();
    // No effect at run time. The proof reads what `out` holds from the sink that comes back.
    let _below = readings.into_sink();
    match written {
        Ok(_) => Ok(()),
        Err(fault) => Err(fault),
    }
}

/// Writes the readings of a capture, a line each, as `watch` writes those of an edge file.
///
/// # Errors
///
/// The sink takes no more: then the front of the readings was written, as long as it reports.
pub fn watch_capture<S: Sink>(capture: &Capture, out: &mut S) -> Result<(), WriteFault>
    ensures { WritesText (S.contents out.old) (S.contents out.new) (S.is_stuck out.old) (S.is_stuck out.new) (readings_text (file_readings (as_file capture.now))) result }
{
    write_from(capture, 0, out)
}

/// Writes the readings of a capture that may begin in the middle of a frame. One line, `0 T joined -`, stands for those that
/// begin before T, the instant of `hear_from_idle`. Without such readings there is no such line.
///
/// # Errors
///
/// The sink takes no more: then the front of the lines was written, as long as it reports.
pub fn watch_from_idle<S: Sink>(capture: &Capture, out: &mut S) -> Result<(), WriteFault>
    ensures { (t : ℕ) × IsJoined (line_of_edges capture.now.edges) capture.now.end t × WritesText (S.contents out.old) (S.contents out.new) (S.is_stuck out.old) (S.is_stuck out.new) (lines_text Text (joined_lines t false (captured_by standard capture.now))) result }
{
    write_from(capture, joined_at(capture), out)
}
