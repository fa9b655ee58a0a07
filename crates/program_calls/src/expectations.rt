//! What is reported of a test: whether a run is as the expectations of its script have it.
ghost use Rattle.std.specs.Prelude.{◌≡◌, ◌++◌, true, codes, OnOk, IfOk};
ghost use Rattle.record_core.specs.Records.{record_text};
ghost use Rattle.record_core.specs.declared.cell.Form.TheVariants.{Text, Json};
ghost use Rattle.program_calls.specs.Tests.{AreRemarksOf, WritesPassed, WritesTest, head_cells, trace_remark, trace_remarks};

use crate::fault::ProgramFault;
use cli_choice::TestView;
use expect_remarks::append_record;
use expect_run::{CheckError, Tally, check};
use expect_sweep::{ProgressHearer, SilentProgress, SweepError, sweep};
use expect_text::{first_fault, plain_script};
use expect_told::push_marked;
use record_core::{Form, Value, cells};
use room_run::emulate::{EmulateError, emulate};
use room_run::objects::emulate_objects;
use std::alloc::{AllocError, Global};
use text_core::{Held, Piece, Sink, first_line, put_all, write_pieces};

/// Nothing, unless a test of a report failed.
pub fn passed(tally: Tally) -> Result<(), ProgramFault>
    ensures { OnOk result (tally.failed ≡ 0) }
{
    if tally.failed > 0 {
        return Err(ProgramFault::TestsFailed(tally));
    }
    Ok(())
}

// Nothing, unless a test failed at an instant of a range.
fn held_throughout(holds: bool) -> Result<(), ProgramFault>
    ensures { OnOk result (holds ≡ true) }
{
    if holds {
        Ok(())
    } else {
        Err(ProgramFault::SweepFailed)
    }
}

// Writes the report of one run.
#[inline(never)]
fn write_report<W: Sink>(
    alloc: Global,
    form: Form,
    topology: &[u8],
    script: &[u8],
    out: &mut W,
) -> Result<(), ProgramFault>
    ensures { OnOk result (WritesPassed form topology.now script.now (W.contents out.old) (W.contents out.new)) }
{
    let tally = check(alloc, form, topology, script, out)?;
    passed(tally)
}

// Writes the stretches of the script's range, or the report where it has none.
#[inline(never)]
fn write_tests<W: Sink, H: ProgressHearer>(
    alloc: Global,
    form: Form,
    topology: &[u8],
    script: &[u8],
    out: &mut W,
    hearer: &mut H,
) -> Result<(), ProgramFault>
    ensures { OnOk result (WritesTest form TestView.Report topology.now script.now (W.contents out.old) (W.contents out.new)) }
{
    match sweep(alloc, form, topology, script, out, hearer) {
        Ok(holds) => held_throughout(holds),
        Err(error) => match error {
            SweepError::NoRange => write_report(alloc, form, topology, script, out),
            error => Err(ProgramFault::from(error)),
        },
    }
}

// The line before a trace, or its object.
fn head_of(alloc: Global, form: Form) -> Result<Vec<u8>, AllocError>
    ensures { IfOk result (λ text. text.items ≡ record_text form (codes "trace") head_cells) }
{
    let mut held = Held::new(alloc);
    append_record(
        &mut held,
        form,
        "trace",
        &cells![line("# trace", Value::Nothing)],
    )?;
    let mut text = Vec::new(alloc);
    text.extend_from_slice(held.bytes())?;
    Ok(text)
}

// Appends a line of a trace as a remark, or its object.
fn push_remark(text: &mut Vec<u8>, form: Form, line: &[u8]) -> Result<(), AllocError>
    ensures { OnOk result (text.new.items ≡ text.old.items ++ trace_remark form line.now) }
{
    push_marked(text, form, line)?;
    text.push(b'\n')?;
    Ok(())
}

// A trace as remarks, or the objects of these.
fn trace_remarks(alloc: Global, form: Form, trace: &[u8]) -> Result<Vec<u8>, AllocError>
    ensures { IfOk result (λ text. text.items ≡ trace_remarks form trace.now) }
{
    let mut text = head_of(alloc, form)?;
    let mut rest = trace;
    'lines: while let Some((line, after)) = first_line(rest) {
        push_remark(&mut text, form, line)?;
        rest = after;
    }
    Ok(text)
}

// Runs the script without labels and expectations on the topology, and returns its trace as remarks.
#[inline(never)]
fn line_remarks_of(alloc: Global, topology: &[u8], script: &[u8]) -> Result<Vec<u8>, ProgramFault>
    ensures { IfOk result (λ text. AreRemarksOf Text topology.now script.now text.items) }
{
    let plain = plain_script(alloc, script)?;
    let mut trace = Held::new(alloc);
    match emulate(alloc, topology, &plain, &mut trace) {
        Ok(_) => {}
        Err(EmulateError::Write(_)) => return Err(ProgramFault::Memory(AllocError)),
        Err(error) => return Err(ProgramFault::Emulate(error)),
    }
    Ok(trace_remarks(alloc, Form::Text, trace.bytes())?)
}

// The same, and returns the objects of these remarks.
#[inline(never)]
fn object_remarks_of(alloc: Global, topology: &[u8], script: &[u8]) -> Result<Vec<u8>, ProgramFault>
    ensures { IfOk result (λ text. AreRemarksOf Json topology.now script.now text.items) }
{
    let plain = plain_script(alloc, script)?;
    let mut objects = Held::new(alloc);
    match emulate_objects(alloc, topology, &plain, false, &mut objects) {
        Ok(_) => {}
        Err(EmulateError::Write(_)) => return Err(ProgramFault::Memory(AllocError)),
        Err(error) => return Err(ProgramFault::Emulate(error)),
    }
    Ok(trace_remarks(alloc, Form::Json, objects.bytes())?)
}

// The trace of the run as remarks, or the objects of these.
fn remarks_of(
    alloc: Global,
    form: Form,
    topology: &[u8],
    script: &[u8],
) -> Result<Vec<u8>, ProgramFault>
    ensures { IfOk result (λ text. AreRemarksOf form topology.now script.now text.items) }
{
    match form {
        Form::Text => line_remarks_of(alloc, topology, script),
        Form::Json => object_remarks_of(alloc, topology, script),
    }
}

// Writes the report, and after it the trace.
#[inline(never)]
fn write_traced<W: Sink>(
    alloc: Global,
    form: Form,
    topology: &[u8],
    script: &[u8],
    out: &mut W,
) -> Result<(), ProgramFault>
    ensures { OnOk result (WritesTest form TestView.Traced topology.now script.now (W.contents out.old) (W.contents out.new)) }
{
    let remarks = remarks_of(alloc, form, topology, script)?;
    let tally = check(alloc, form, topology, script, out)?;
    put_all(out, &remarks)?;
    passed(tally)
}

// Writes the input of the run, in which the line of an expectation is empty.
#[inline(never)]
fn write_plain<W: Sink>(
    alloc: Global,
    topology: &[u8],
    script: &[u8],
    out: &mut W,
) -> Result<(), ProgramFault>
    ensures { OnOk result (WritesTest Text TestView.Plain topology.now script.now (W.contents out.old) (W.contents out.new)) }
{
    let fault = first_fault(alloc, topology, script)?;
    match fault {
        Some(fault) => return Err(ProgramFault::from(CheckError::Expect(fault))),
        None => {}
    }
    let plain = plain_script(alloc, script)?;
    write_pieces(
        out,
        &[
            Piece::Bytes(topology),
            Piece::Text("script\n"),
            Piece::Bytes(&plain),
        ],
    )?;
    Ok(())
}

/// Writes what is asked for of a test. A report with a test that failed is written, and then a fault. Where it is asked for, the
/// hearer hears how far a sweep is.
pub fn write_test<W: Sink, H: ProgressHearer>(
    alloc: Global,
    form: Form,
    view: TestView,
    topology: &[u8],
    script: &[u8],
    out: &mut W,
    hearer: &mut H,
) -> Result<(), ProgramFault>
    ensures { OnOk result (WritesTest form view topology.now script.now (W.contents out.old) (W.contents out.new)) }
{
    match view {
        TestView::Report => write_tests(alloc, form, topology, script, out, &mut SilentProgress),
        TestView::Progress => write_tests(alloc, form, topology, script, out, hearer),
        TestView::Traced => write_traced(alloc, form, topology, script, out),
        TestView::Plain => write_plain(alloc, topology, script, out),
    }
}
