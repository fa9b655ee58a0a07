//! Objects of JSON: of a run, and of a test.
ghost use Rattle.std.specs.Prelude.{◌≡◌, OnOk};
ghost use Rattle.program_calls.specs.Done.{Writes, report_view};

use crate::capture_test::test_capture;
use crate::check::test;
use crate::fault::ProgramFault;
use crate::run::{run_to_objects, run_to_room};
use crate::told::Recap;
use cli_choice::{CommandChoice, Objects, TestView};
use expect_sweep::SilentProgress;
use record_core::Form;
use std::alloc::Global;
use text_core::Sink;

// A report, with its trace or without.
fn report_view(traced: bool) -> TestView
    ensures { result ≡ report_view traced }
{
    if traced {
        TestView::Traced
    } else {
        TestView::Report
    }
}

/// Writes the objects of lines: of a run while it runs, and of a test once they are all there.
pub fn write_json<W: Sink>(
    alloc: Global,
    objects: Objects,
    signal: &[u8],
    input: &[u8],
    out: &mut W,
) -> Result<Recap, ProgramFault>
    ensures { OnOk result (Writes (CommandChoice.Json objects) signal.now input.now (W.contents out.old) (W.contents out.new)) }
{
    match objects {
        Objects::Trace { strict } => run_to_objects(alloc, strict, input, out),
        Objects::Room { strict } => run_to_room(alloc, strict, input, out),
        Objects::Test { traced } => {
            let view = report_view(traced);
            test(alloc, Form::Json, view, input, out, &mut SilentProgress)
        }
        Objects::CaptureTest { form, glitch } => {
            test_capture(alloc, Form::Json, form, signal, glitch, input, out)
        }
    }
}
