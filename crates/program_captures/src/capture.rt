//! What is reported of a capture.
ghost use Rattle.std.specs.Prelude.{◌≡◌, ◌≤◌, ◌&&◌, min, IfOk, List, OnOk, false, true};
ghost use Rattle.line_reading.specs.Windows.{AreWindows, most_margin};
ghost use Rattle.capture_monitor.specs.Watch.{captured_by};
ghost use Rattle.audit_notes.specs.Lines.{AuditLine};
ghost use Rattle.program_captures.specs.Captures.{AreLinesOf, Reports, Shown, edges_kept, edges_scaled, edges_turned, end_scaled, form_of, is_strict, report_of};

use crate::fault::MonitorFault;
use crate::signs::{Signs, has_several, signs_of};
use arrayvec::ArrayString;
use audit_core::{AuditOptions, hear_audit, hear_from_idle, hear_readings};
use audit_notes::{Folding, LineHearer, LineWriter, Strict};
use capture_core::Capture;
use capture_forms::{CaptureForm, read_capture};
use capture_invert::invert;
use capture_pin::lost_lines;
use capture_scale::{AS_IT_IS, ScaleError, scale};
use capture_smooth::smooth_edges;
use cli_choice::CaptureReport;
use line_reading::{MOST_MARGIN, Windows};
use record_core::Form;
use std::alloc::{AllocError, Global};
use std::fmt::Write;
use text_core::{Counted, Sink, WriteFault, put_all};

// How a capture is heard, and what is written of it.
#[derive(Clone, Copy)]
struct Hearing<'a> {
    signal: &'a [u8],
    inverted: bool,
    scale: u64,
    glitch: u64,
    margin: u64,
    written: Form,
    folds: bool,
}

/// The form of a capture: what is asked for, or else what its first line reports.
pub fn form_of(form: Option<CaptureForm>, input: &[u8]) -> CaptureForm
    ensures { result ≡ form_of form input.now }
{
    match form {
        None => CaptureForm::of(input),
        Some(form) => form,
    }
}

// What is written of a capture: what is asked for, or else what its form has.
fn report_of(report: Option<CaptureReport>, form: CaptureForm) -> CaptureReport
    ensures { result ≡ report_of report form }
{
    match report {
        Some(report) => report,
        None => match form {
            CaptureForm::Edges => CaptureReport::Readings,
            CaptureForm::Vcd | CaptureForm::Pin | CaptureForm::Csv => CaptureReport::FromIdle,
        },
    }
}

/// A capture without pulses and gaps that are too short.
pub fn without_short(alloc: Global, glitch: u64, whole: Capture) -> Result<Capture, AllocError>
    ensures edges { IfOk result (λ c. c.edges ≡ edges_kept glitch whole.edges) }
    ensures end { IfOk result (λ c. c.end ≡ whole.end) }
{
    if glitch == 0 {
        Ok(whole)
    } else {
        smooth_edges(alloc, &whole, glitch)
    }
}

// A capture with its times as they stand, or multiplied.
fn scaled_by(alloc: Global, factor: u64, whole: Capture) -> Result<Capture, ScaleError>
    ensures edges { IfOk result (λ c. c.edges ≡ edges_scaled factor whole.edges) }
    ensures end { IfOk result (λ c. c.end ≡ end_scaled factor whole.end) }
{
    if factor == AS_IT_IS {
        Ok(whole)
    } else {
        scale(alloc, &whole, factor)
    }
}

// The same without pulses and gaps that are too short by the scaled times.
fn scaled_without_short(
    alloc: Global,
    factor: u64,
    glitch: u64,
    whole: Capture,
) -> Result<Capture, MonitorFault>
    ensures edges { IfOk result (λ c. c.edges ≡ edges_kept glitch (edges_scaled factor whole.edges)) }
    ensures end { IfOk result (λ c. c.end ≡ end_scaled factor whole.end) }
{
    let scaled = scaled_by(alloc, factor, whole)?;
    let kept = without_short(alloc, glitch, scaled)?;
    Ok(kept)
}

// A capture as it is read: as it stands or of a probe that turns the level of the line, with its times multiplied, and then without
// pulses and gaps that are too short.
pub(crate) fn as_read(
    alloc: Global,
    inverted: bool,
    factor: u64,
    glitch: u64,
    whole: Capture,
) -> Result<Capture, MonitorFault>
    ensures edges { IfOk result (λ c. c.edges ≡ edges_kept glitch (edges_scaled factor (edges_turned inverted whole.edges))) }
    ensures end { IfOk result (λ c. c.end ≡ end_scaled factor whole.end) }
{
    if inverted {
        let turned = invert(alloc, &whole)?;
        scaled_without_short(alloc, factor, glitch, turned)
    } else {
        scaled_without_short(alloc, factor, glitch, whole)
    }
}

// Has the lines of a report of a capture heard, as these windows read it.
fn hear_report<H: LineHearer>(
    capture: &Capture,
    windows: Windows,
    report: CaptureReport,
    hearer: &mut H,
)
    requires { AreWindows windows }
    ensures { (lines : List AuditLine) × AreLinesOf report capture.now (captured_by windows capture.now) lines × H.hears hearer.old lines hearer.new }
{
    match report {
        CaptureReport::Readings => hear_readings(capture, windows, hearer),
        CaptureReport::FromIdle => hear_from_idle(capture, windows, hearer),
        CaptureReport::Audit { timing, .. } => {
            hear_audit(capture, windows, AuditOptions { timing }, hearer);
        }
    }
}

// Writes the lines of a report in a form. Returns whether one of them is a remark.
fn write_lines<W: Sink>(
    capture: &Capture,
    windows: Windows,
    report: CaptureReport,
    written: Form,
    out: &mut W,
) -> Result<bool, WriteFault>
    requires { AreWindows windows }
    ensures { IfOk result (Reports written false report capture.now (captured_by windows capture.now) (W.contents out.old) (W.contents out.new)) }
{
    let mut lines = Strict {
        hearer: LineWriter {
            form: written,
            out: Counted::new(out),
        },
        remarked: false,
    };
    hear_report(capture, windows, report, &mut lines);
    let remarked = lines.remarked;
    let text = lines.hearer.out;
    let done = text.written();
    // No effect at run time. The proof reads what `out` holds from the sink that comes back.
    let _below = text.into_sink();
    match done {
        Ok(_) => Ok(remarked),
        Err(fault) => Err(fault),
    }
}

// The same with bad starts one after another as one line.
fn write_folded<W: Sink>(
    capture: &Capture,
    windows: Windows,
    report: CaptureReport,
    written: Form,
    out: &mut W,
) -> Result<bool, WriteFault>
    requires { AreWindows windows }
    ensures { IfOk result (Reports written true report capture.now (captured_by windows capture.now) (W.contents out.old) (W.contents out.new)) }
{
    let text = Counted::new(out);
    let folding = Folding::new(LineWriter {
        form: written,
        out: text,
    });
    let mut lines = Strict {
        hearer: folding,
        remarked: false,
    };
    hear_report(capture, windows, report, &mut lines);
    let remarked = lines.remarked;
    let writer = lines.hearer.finish();
    let text = writer.out;
    let done = text.written();
    // No effect at run time. The proof reads what `out` holds from the sink that comes back.
    let _below = text.into_sink();
    match done {
        Ok(_) => Ok(remarked),
        Err(fault) => Err(fault),
    }
}

// Writes them as they stand, or folded.
fn write_either<W: Sink>(
    capture: &Capture,
    windows: Windows,
    report: CaptureReport,
    written: Form,
    folds: bool,
    out: &mut W,
) -> Result<bool, WriteFault>
    requires { AreWindows windows }
    ensures { IfOk result (Reports written folds report capture.now (captured_by windows capture.now) (W.contents out.old) (W.contents out.new)) }
{
    if folds {
        write_folded(capture, windows, report, written, out)
    } else {
        write_lines(capture, windows, report, written, out)
    }
}

// Whether a remark makes a report a fault.
fn is_strict(report: CaptureReport) -> bool
    ensures { result ≡ is_strict report }
{
    match report {
        CaptureReport::Readings | CaptureReport::FromIdle => false,
        CaptureReport::Audit { strict, .. } => strict,
    }
}

pub(crate) fn fails(report: CaptureReport, remarked: bool) -> bool
    ensures { result ≡ (is_strict report && remarked) }
{
    is_strict(report) && remarked
}

/// Fails where a remark makes a report a fault. All of it is written then.
pub(crate) fn without_remark(report: CaptureReport, remarked: bool) -> Result<(), MonitorFault>
    ensures { OnOk result (is_strict report ≡ true → remarked ≡ false) }
{
    if fails(report, remarked) {
        return Err(MonitorFault::Remarked);
    }
    Ok(())
}

pub(crate) fn within_most(margin: u64) -> u64
    ensures same { result ≡ min margin most_margin }
    ensures most { result ≤ most_margin }
{
    if margin > MOST_MARGIN {
        MOST_MARGIN
    } else {
        margin
    }
}

// Writes this report of a capture in this form, as it is heard.
#[inline(never)]
fn listen<W: Sink>(
    alloc: Global,
    form: CaptureForm,
    report: CaptureReport,
    hearing: Hearing<'_>,
    input: &[u8],
    out: &mut W,
) -> Result<Signs, MonitorFault>
    ensures { OnOk result (Shown hearing.entry.written hearing.entry.folds form hearing.entry.signal.now hearing.entry.inverted hearing.entry.scale hearing.entry.glitch hearing.entry.margin report input.now (W.contents out.old) (W.contents out.new)) }
{
    let whole = read_capture(alloc, form, hearing.signal, input)?;
    let kept = as_read(
        alloc,
        hearing.inverted,
        hearing.scale,
        hearing.glitch,
        whole,
    )?;
    let windows = Windows::wider(within_most(hearing.margin));
    let remarked = write_either(&kept, windows, report, hearing.written, hearing.folds, out)?;
    without_remark(report, remarked)?;
    let is_first = hearing.signal.is_empty() && has_several(alloc, form, input);
    Ok(signs_of(&kept, is_first))
}

/// Writes what is asked for of a capture, its lines or their objects: in a form, or in the one that its first line reports, of the
/// wire of a name, or the first where that is empty, with its levels turned or not, its times multiplied by so many ten-thousandths, as
/// windows read it that are `margin` wider at either side; as it stands or with bad starts one after another as one line. Returns what
/// the capture looks like.
pub fn show<W: Sink>(
    alloc: Global,
    written: Form,
    folds: bool,
    form: Option<CaptureForm>,
    signal: &[u8],
    inverted: bool,
    scale: u64,
    glitch: u64,
    margin: u64,
    report: Option<CaptureReport>,
    input: &[u8],
    out: &mut W,
) -> Result<Signs, MonitorFault>
    ensures { OnOk result (Shown written folds (form_of form input.now) signal.now inverted scale glitch margin (report_of report (form_of form input.now)) input.now (W.contents out.old) (W.contents out.new)) }
{
    let hearing = Hearing {
        signal,
        inverted,
        scale,
        glitch,
        margin,
        written,
        folds,
    };
    let form = form_of(form, input);
    let report = report_of(report, form);
    listen(alloc, form, report, hearing, input, out)
}

// The line that names an event before which others were lost.
fn write_lost<E: Sink>(line: u64, err: &mut E) {
    let mut text = ArrayString::<64>::new();
    let _ = writeln!(text, "hdminet: events were lost before line {line}");
    let _ = put_all(err, text.as_bytes());
}

/// Names the lines of pin events before which others were lost: what is read across them is not to be trusted. Where memory
/// runs out none is named.
pub fn name_lost<E: Sink>(alloc: Global, form: Option<CaptureForm>, input: &[u8], err: &mut E) {
    if form_of(form, input) != CaptureForm::Pin {
        return;
    }
    if let Ok(lines) = lost_lines(alloc, input) {
        for line in &lines {
            write_lost(*line, err);
        }
    }
}
