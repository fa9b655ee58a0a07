//! The audit of a capture.
ghost use Rattle.line_reading.specs.Windows.{AreWindows};
ghost use Rattle.capture_monitor.specs.Watch.{captured_by};
ghost use Rattle.audit_core.specs.Audit.{audit_lines, audit_text, audit_text_of};
ghost use Rattle.text_core.specs.Cut.{WritesText};

use crate::whole::WholeAudit;
use audit_notes::LineHearer;
use capture_core::Capture;
use capture_monitor::Monitor;
use line_reading::{STANDARD, Windows};
use text_core::{Counted, Sink, WriteFault};

/// What an audit writes.
#[derive(Clone, Copy, Debug, Default, PartialEq, Eq)]
pub struct AuditOptions {
    /// The widths of each reading too.
    pub timing: bool,
}

/// Has the readings of a capture heard, as a monitor reads them by these windows, and after each what a person who knows the
/// standard would remark: what `audit_capture` writes.
pub fn hear_audit<H: LineHearer>(
    capture: &Capture,
    windows: Windows,
    options: AuditOptions,
    out: &mut H,
)
    requires { AreWindows windows }
    ensures { H.hears out.old (audit_lines options.timing capture.now (captured_by windows capture.now)) out.new }
{
    let edges = capture.edges();
    let mut monitor = Monitor::with_windows(windows);
    let mut auditor = WholeAudit::new(edges);
    for edge in edges {
        let reading = monitor.edge(*edge);
        auditor.hear(out, &reading, options.timing);
    }
    let reading = monitor.finish(capture.end());
    auditor.hear(out, &reading, options.timing);
    auditor.summarize(out, capture.end());
}

/// Writes the readings of a capture, a line each, and below each what a person who knows the standard would remark, in
/// lines that begin with two spaces: bad starts in a row, requests that nobody answered within a second (CEC 9.2), a frame
/// that came before its signal free time (CEC 9.1), widths out of their windows (CEC 5.2.1, 5.2.2), low drives (CEC 7.4),
/// blocks that were not acknowledged or were refused, with the number of the attempt (CEC 6.1.2, 7.1), a second physical
/// address of a device, an active source that nobody reported. Last come the frames of each initiator and the least,
/// greatest and mean widths of all readings. It takes no memory.
///
/// # Errors
///
/// The sink takes no more: then the front of that text was written, as long as the fault reports.
#[tactic(auto, using(line_reading::proofs::Standard::standard_are))]
pub fn audit_capture<S: Sink>(
    capture: &Capture,
    options: AuditOptions,
    out: &mut S,
) -> Result<(), WriteFault>
    ensures { WritesText (S.contents out.old) (S.contents out.new) (S.is_stuck out.old) (S.is_stuck out.new) (audit_text options.timing capture.now) result }
{
    audit_capture_by(capture, STANDARD, options, out)
}

/// The same of what a monitor reads by these windows. The remarks go by the standard's: with wider windows they name each width
/// that is out of the standard's.
///
/// # Errors
///
/// The sink takes no more: then the front of that text was written, as long as the fault reports.
pub fn audit_capture_by<S: Sink>(
    capture: &Capture,
    windows: Windows,
    options: AuditOptions,
    out: &mut S,
) -> Result<(), WriteFault>
    requires { AreWindows windows }
    ensures { WritesText (S.contents out.old) (S.contents out.new) (S.is_stuck out.old) (S.is_stuck out.new) (audit_text_of options.timing capture.now (captured_by windows capture.now)) result }
{
    let mut audit = Counted::new(out);
    hear_audit(capture, windows, options, &mut audit);
    let written = audit.written();
    // No effect at run time. The proof reads what `out` holds from the sink that comes back.
    let _below = audit.into_sink();
    match written {
        Ok(_) => Ok(()),
        Err(fault) => Err(fault),
    }
}
