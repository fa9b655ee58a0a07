//! What is reported of a test of a capture: whether it is as its expectations have it.
ghost use Rattle.std.specs.Prelude.{OnOk};
ghost use Rattle.program_calls.specs.CaptureTests.{WritesCaptureTest, WritesPassedBy};

use crate::expectations::passed;
use crate::fault::ProgramFault;
use crate::told::Recap;
use audit_expect::check_capture;
use capture_core::Capture;
use capture_forms::{CaptureForm, read_capture};
use program_captures::{form_of, without_short};
use program_input::capture_parts;
use record_core::Form;
use std::alloc::Global;
use text_core::Sink;

// Writes the report of a capture without pulses and gaps that are too short.
fn write_report<W: Sink>(
    alloc: Global,
    written: Form,
    expectations: &[u8],
    glitch: u64,
    whole: Capture,
    out: &mut W,
) -> Result<(), ProgramFault>
    ensures { OnOk result (WritesPassedBy written expectations.now glitch whole (W.contents out.old) (W.contents out.new)) }
{
    let kept = without_short(alloc, glitch, whole)?;
    let tally = check_capture(alloc, written, expectations, &kept, out)?;
    passed(tally)
}

/// Writes the report of whether a capture is as its expectations have it, or its objects: in a form, or in the one that its first line reports, of
/// the wire of a name, or the first where that is empty. A report with a test that failed is written, and then a fault.
#[inline(never)]
pub fn test_capture<W: Sink>(
    alloc: Global,
    written: Form,
    form: Option<CaptureForm>,
    signal: &[u8],
    glitch: u64,
    input: &[u8],
    out: &mut W,
) -> Result<Recap, ProgramFault>
    ensures { OnOk result (WritesCaptureTest written form signal.now glitch input.now (W.contents out.old) (W.contents out.new)) }
{
    let (expectations, taken) = capture_parts(input)?;
    let whole = read_capture(alloc, form_of(form, taken), signal, taken)?;
    write_report(alloc, written, expectations, glitch, whole, out)?;
    Ok(Recap::Nothing)
}
