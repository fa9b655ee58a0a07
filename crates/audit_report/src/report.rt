//! The text of a report.
ghost use Rattle.line_reading.specs.Windows.{AreWindows};
ghost use Rattle.capture_monitor.specs.Watch.{captured_by};
ghost use Rattle.std.specs.Prelude.{◌≡◌, ◌||◌};
ghost use Rattle.audit_contents.specs.Contents.{has_fault};
ghost use Rattle.audit_report.specs.Report.{WritesReport, has_remarks, report_text};

use crate::texts::add_rows;
use crate::walk::{Tallied, count_capture};
use capture_core::Capture;
use line_reading::Windows;
use record_core::Form;
use text_core::{Counted, Sink, WriteFault};

fn has_remarks(counted: &Tallied) -> bool
    ensures { result ≡ (counted.now.remarked || has_fault counted.now.contents) }
{
    counted.remarked || counted.contents.has_fault()
}

/// Writes a report of a capture by logical addresses, as a monitor reads it by these windows: its lines, or their objects. Under each
/// address of which the audit tells something stand its frames, the widths that it drove, the free times before its frames, its answers,
/// how often it had each kind of remark, and each rule that it broke by what it says; what nobody can be charged with stands last. Returns
/// whether the audit has a remark, or a device says what the standard has otherwise. It takes no memory.
///
/// # Errors
///
/// The sink takes no more: then the front of that text was written, as long as the fault reports.
pub fn report_capture<S: Sink>(
    capture: &Capture,
    windows: Windows,
    form: Form,
    out: &mut S,
) -> Result<bool, WriteFault>
    requires { AreWindows windows }
    ensures { WritesReport (S.contents out.old) (S.contents out.new) (S.is_stuck out.old) (S.is_stuck out.new) (report_text form capture.now (captured_by windows capture.now)) (has_remarks capture.now (captured_by windows capture.now)) result }
{
    let counted = count_capture(capture, windows);
    let remarked = has_remarks(&counted);
    let mut text = Counted::new(out);
    add_rows(&mut text, form, &counted.contents, 0, &counted.rows);
    let written = text.written();
    // No effect at run time. The proof reads what `out` holds from the sink that comes back.
    let _below = text.into_sink();
    match written {
        Ok(_) => Ok(remarked),
        Err(fault) => Err(fault),
    }
}
