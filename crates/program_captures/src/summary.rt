//! What is said of a whole capture, in place of its readings.
ghost use Rattle.std.specs.Prelude.{◌≡◌, min, OnOk};
ghost use Rattle.std.specs.Io.KnownBytes.{Appends};
ghost use Rattle.capture_as_test.specs.Written.{test_text};
ghost use Rattle.capture_replay.specs.Replay.{replay_text};
ghost use Rattle.capture_verdict.specs.Texts.{verdict_text};
ghost use Rattle.program_captures.specs.Captures.{form_of};
ghost use Rattle.program_captures.specs.Summaries.{Summarizes, WritesDevices, WritesSummary, WritesVerdict};

use crate::capture::{as_read, form_of, within_most, without_remark};
use crate::fault::MonitorFault;
use crate::front::front_of;
use crate::signs::{Signs, has_several, signs_of};
use arrayvec::ArrayString;
use audit_report::report_capture;
use capture_as_test::write_as_test;
use capture_core::Capture;
use capture_forms::{CaptureForm, read_capture};
use capture_replay::{ReplayCounts, write_replay};
use capture_verdict::{Verdict, add_verdict, verdict_of};
use cli_choice::{CaptureReport, CaptureSummary, SummaryChoice};
use line_frames::Addr;
use line_reading::Windows;
use record_core::Form;
use std::alloc::Global;
use std::fmt::Write;
use text_core::{Counted, Sink, WriteFault, put_all};

// Writes the devices on the line of a capture. With a strict one a remark of its audit is a fault, and so is a rule that a device breaks
// by what it says, once all of it is written.
fn write_devices<W: Sink>(
    margin: u64,
    strict: bool,
    written: Form,
    capture: &Capture,
    out: &mut W,
) -> Result<(), MonitorFault>
    ensures { OnOk result (WritesDevices margin strict written capture.now (W.contents out.old) (W.contents out.new)) }
{
    let windows = Windows::wider(within_most(margin));
    let remarked = report_capture(capture, windows, written, out)?;
    let report = CaptureReport::Audit {
        timing: false,
        strict,
    };
    without_remark(report, remarked)
}

// Writes the line of a verdict, or its object.
fn put_verdict<W: Sink>(written: Form, verdict: Verdict, out: &mut W) -> Result<(), WriteFault>
    ensures { OnOk result (Appends (W.contents out.old) (W.contents out.new) (verdict_text written verdict)) }
{
    let mut text = Counted::new(out);
    add_verdict(&mut text, written, verdict);
    let done = text.written();
    // No effect at run time. The proof reads what `out` holds from the sink that comes back.
    let _below = text.into_sink();
    match done {
        Ok(_) => Ok(()),
        Err(fault) => Err(fault),
    }
}

// Writes what the line of a capture looks like.
fn write_verdict<W: Sink>(
    alloc: Global,
    written: Form,
    capture: &Capture,
    out: &mut W,
) -> Result<(), MonitorFault>
    ensures { OnOk result (WritesVerdict written capture.now (W.contents out.old) (W.contents out.new)) }
{
    let verdict = verdict_of(alloc, capture)?;
    put_verdict(written, verdict, out)?;
    Ok(())
}

// Writes expectations that a capture meets.
fn write_test<W: Sink>(alloc: Global, capture: &Capture, out: &mut W) -> Result<(), MonitorFault>
    ensures { OnOk result (Appends (W.contents out.old) (W.contents out.new) (test_text capture.now)) }
{
    write_as_test(alloc, capture, out)?;
    Ok(())
}

// A logical address of this value, or the greatest.
fn address_of(value: u8) -> Addr
    ensures { result ≡ min value 15 }
{
    if value > Addr::BROADCAST {
        Addr::new(Addr::BROADCAST)
    } else {
        Addr::new(value)
    }
}

// Writes what one device drove.
fn replay<W: Sink>(address: u8, capture: &Capture, out: &mut W) -> Result<ReplayCounts, WriteFault>
    ensures { OnOk result (Appends (W.contents out.old) (W.contents out.new) (replay_text (min address 15) capture.now)) }
{
    write_replay(capture, address_of(address), out)
}

// The same, where the counts are of no use.
fn put_replay<W: Sink>(address: u8, capture: &Capture, out: &mut W) -> Result<(), MonitorFault>
    ensures { OnOk result (Appends (W.contents out.old) (W.contents out.new) (replay_text (min address 15) capture.now)) }
{
    replay(address, capture, out)?;
    Ok(())
}

// Writes what is said of a capture.
fn summarize<W: Sink>(
    alloc: Global,
    choice: SummaryChoice,
    capture: &Capture,
    out: &mut W,
) -> Result<(), MonitorFault>
    ensures { OnOk result (Summarizes choice.summary choice.margin choice.strict choice.written capture.now (W.contents out.old) (W.contents out.new)) }
{
    match choice.summary {
        CaptureSummary::Devices => {
            write_devices(choice.margin, choice.strict, choice.written, capture, out)
        }
        CaptureSummary::Verdict => write_verdict(alloc, choice.written, capture, out),
        CaptureSummary::Test => write_test(alloc, capture, out),
        CaptureSummary::Replay(address) => put_replay(address, capture, out),
    }
}

/// Writes what is said of a whole capture: in a form, or in the one that its first line reports, of the wire of a name, or the first
/// where that is empty, with its levels turned or not, its times multiplied, and without pulses and gaps that are too short. Returns
/// what it looks like.
#[inline(never)]
pub fn write_summary<W: Sink>(
    alloc: Global,
    choice: SummaryChoice,
    signal: &[u8],
    input: &[u8],
    out: &mut W,
) -> Result<Signs, MonitorFault>
    ensures { OnOk result (WritesSummary choice signal.now input.now (W.contents out.old) (W.contents out.new)) }
{
    let form = form_of(choice.form, input);
    let whole = read_capture(alloc, form, signal, input)?;
    let kept = as_read(alloc, choice.inverted, choice.scale, choice.glitch, whole)?;
    summarize(alloc, choice, &kept, out)?;
    let is_first = signal.is_empty() && has_several(alloc, form, input);
    Ok(signs_of(&kept, is_first))
}

/// How a capture is read of which the verdict is told: in a form, or in the one that its first line reports, with its levels turned or
/// not, its times multiplied by so many ten-thousandths, without pulses and gaps that are shorter than `glitch`, by windows that are
/// `margin` wider. Times are in microseconds.
#[derive(Clone, Copy, Debug)]
pub struct ReadAs {
    pub form: Option<CaptureForm>,
    pub inverted: bool,
    pub scale: u64,
    pub glitch: u64,
    pub margin: u64,
}

/// So many edges of a capture are read for the verdict that standard error names, at most.
const FRONT: usize = 20_000;

/// The verdict of the front of a capture.
struct FrontVerdict {
    verdict: Verdict,
    /// Whether the capture has more edges.
    is_cut: bool,
}

// The verdict of the front of the capture of an input, as it is read.
fn verdict_in(
    alloc: Global,
    read: ReadAs,
    signal: &[u8],
    input: &[u8],
) -> Result<FrontVerdict, MonitorFault> {
    let whole = read_capture(alloc, form_of(read.form, input), signal, input)?;
    let kept = as_read(alloc, read.inverted, read.scale, read.glitch, whole)?;
    let is_cut = kept.edges().len() > FRONT;
    let front = front_of(alloc, FRONT, kept)?;
    let verdict = verdict_of(alloc, &front)?;
    Ok(FrontVerdict { verdict, is_cut })
}

// Whether a verdict tells what is not known already: of a line that is fine it tells nothing, nor which margin reads more where one is
// given.
fn tells(verdict: Verdict, read: ReadAs) -> bool {
    match verdict {
        Verdict::Fine { .. } | Verdict::MidFrame { .. } => false,
        Verdict::Nearly { .. } => read.margin == 0,
        _ => true,
    }
}

// Whether levels were turned that would be better as they were.
fn is_turned_twice(verdict: Verdict, read: ReadAs) -> bool {
    read.inverted && matches!(verdict, Verdict::Inverted { .. })
}

// The words for the front of a capture.
fn write_front<E: Sink>(err: &mut E) {
    let mut text = ArrayString::<40>::new();
    let _ = write!(text, "of the first {FRONT} edges: ");
    let _ = put_all(err, text.as_bytes());
}

/// Says on standard error what the line of a capture looks like: of each line, or of one alone that is not fine. Of a long capture the first
/// edges are read. Where memory runs out nothing is said.
pub fn name_verdict<E: Sink>(
    alloc: Global,
    read: ReadAs,
    signal: &[u8],
    of_each: bool,
    input: &[u8],
    err: &mut E,
) {
    let Ok(FrontVerdict { verdict, is_cut }) = verdict_in(alloc, read, signal, input) else {
        return;
    };
    if !of_each && !tells(verdict, read) {
        return;
    }
    let _ = put_all(err, b"hdminet: ");
    if is_cut {
        write_front(err);
    }
    if is_turned_twice(verdict, read) {
        let _ = put_all(err, b"with --invert the line is low most of the time\n");
    } else {
        let _ = put_verdict(Form::Text, verdict, err);
    }
}
