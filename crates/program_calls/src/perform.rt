//! What the program does for a choice.
ghost use Rattle.std.specs.Prelude.{◌≡◌, true, false, [], OnOk};
ghost use Rattle.program_calls.specs.Done.{Writes, is_line_by_line};
ghost use Rattle.program_captures.specs.Compared.{WritesAlike};

use crate::capture_test::test_capture;
use crate::check::test;
use crate::fault::ProgramFault;
use crate::objects::write_json;
use crate::run::{run, run_to_drives, run_to_line};
use crate::told::Recap;
use capture_forms::CaptureForm;
use cli_choice::{
    CapturePair, CommandChoice, EdidReading, Listing, MonChoice, Recipient, Source, SummaryChoice,
};
use expect_sweep::ProgressHearer;
use message_lay::lay_lines;
use message_meaning::dis_lines;
use message_text::asm_lines;
use program_captures::{show, write_diff, write_edges, write_summary};
use program_edids::edid::edid;
use program_edids::{diff, frame, write_read_eld};
use program_input::{capture_parts, run_parts, steps_parts};
use record_core::Form;
use room_driven::Wires;
use room_steps::step_run::step_run;
use std::alloc::Global;
use text_core::Sink;

#[inline(never)]
fn step<W: Sink>(
    alloc: Global,
    form: Form,
    input: &[u8],
    out: &mut W,
) -> Result<Recap, ProgramFault>
    ensures { OnOk result (Writes (CommandChoice.Step form) [] input.now (W.contents out.old) (W.contents out.new)) }
{
    let (topology, rest) = run_parts(input)?;
    let (script, steps) = steps_parts(rest)?;
    step_run(alloc, form, topology, script, steps, out)?;
    Ok(Recap::Nothing)
}

#[inline(never)]
fn disassemble<W: Sink>(
    meaning: bool,
    form: Form,
    input: &[u8],
    out: &mut W,
) -> Result<Recap, ProgramFault>
    ensures { OnOk result (Writes (CommandChoice.Dis meaning form) [] input.now (W.contents out.old) (W.contents out.new)) }
{
    dis_lines(input, form, meaning, out)?;
    Ok(Recap::Nothing)
}

#[inline(never)]
fn assemble<W: Sink>(input: &[u8], out: &mut W) -> Result<Recap, ProgramFault>
    ensures { OnOk result (Writes CommandChoice.Asm [] input.now (W.contents out.old) (W.contents out.new)) }
{
    asm_lines(input, out)?;
    Ok(Recap::Nothing)
}

#[inline(never)]
fn lay<W: Sink>(form: Form, input: &[u8], out: &mut W) -> Result<Recap, ProgramFault>
    ensures { OnOk result (Writes (CommandChoice.Lay form) [] input.now (W.contents out.old) (W.contents out.new)) }
{
    lay_lines(input, form, out)?;
    Ok(Recap::Nothing)
}

#[inline(never)]
fn show_capture<W: Sink>(
    alloc: Global,
    mon: MonChoice,
    signal: &[u8],
    input: &[u8],
    out: &mut W,
) -> Result<Recap, ProgramFault>
    ensures { OnOk result (Writes (CommandChoice.Mon mon) signal.now input.now (W.contents out.old) (W.contents out.new)) }
{
    let signs = show(
        alloc,
        mon.written,
        mon.folded,
        mon.form,
        signal,
        mon.inverted,
        mon.scale,
        mon.glitch,
        mon.margin,
        mon.report,
        input,
        out,
    )?;
    Ok(Recap::Capture(signs))
}

#[inline(never)]
fn write_line<W: Sink>(
    alloc: Global,
    form: Option<CaptureForm>,
    signal: &[u8],
    inverted: bool,
    scale: u64,
    glitch: u64,
    input: &[u8],
    out: &mut W,
) -> Result<Recap, ProgramFault>
    ensures { OnOk result (Writes (CommandChoice.CapturedLine form inverted scale glitch) signal.now input.now (W.contents out.old) (W.contents out.new)) }
{
    write_edges(alloc, form, signal, inverted, scale, glitch, input, out)?;
    Ok(Recap::Nothing)
}

#[inline(never)]
fn sum_up<W: Sink>(
    alloc: Global,
    choice: SummaryChoice,
    signal: &[u8],
    input: &[u8],
    out: &mut W,
) -> Result<Recap, ProgramFault>
    ensures { OnOk result (Writes (CommandChoice.Summary choice) signal.now input.now (W.contents out.old) (W.contents out.new)) }
{
    let signs = write_summary(alloc, choice, signal, input, out)?;
    Ok(Recap::Capture(signs))
}

/// Writes where two captures differ.
pub(crate) fn compare<W: Sink>(
    alloc: Global,
    pair: CapturePair,
    signal: &[u8],
    first: &[u8],
    second: &[u8],
    out: &mut W,
) -> Result<Recap, ProgramFault>
    ensures { OnOk result (WritesAlike pair signal.now first.now second.now (W.contents out.old) (W.contents out.new)) }
{
    write_diff(alloc, pair, signal, first, second, out)?;
    Ok(Recap::Nothing)
}

// The same of two captures of one input, with the line `capture` between them.
#[tactic(auto, using(crate::proofs::ServedLemmas::compared_in))]
fn compare_parts<W: Sink>(
    alloc: Global,
    pair: CapturePair,
    signal: &[u8],
    input: &[u8],
    out: &mut W,
) -> Result<Recap, ProgramFault>
    ensures { OnOk result (Writes (CommandChoice.CaptureDiff pair) signal.now input.now (W.contents out.old) (W.contents out.new)) }
{
    let (first, second) = capture_parts(input)?;
    compare(alloc, pair, signal, first, second, out)?;
    Ok(Recap::Nothing)
}

#[inline(never)]
fn compare_edids<W: Sink>(
    dumps: bool,
    form: Form,
    input: &[u8],
    out: &mut W,
) -> Result<Recap, ProgramFault>
    ensures { OnOk result (Writes (CommandChoice.EdidDiff dumps form) [] input.now (W.contents out.old) (W.contents out.new)) }
{
    diff(dumps, form, input, out)?;
    Ok(Recap::Nothing)
}

#[inline(never)]
fn hold_against<W: Sink>(
    alloc: Global,
    source: Option<Source>,
    reading: EdidReading,
    place: Recipient,
    form: Form,
    hex: &[u8],
    input: &[u8],
    out: &mut W,
) -> Result<Recap, ProgramFault>
    ensures { OnOk result (Writes (CommandChoice.InfoFrame source reading place form) hex.now input.now (W.contents out.old) (W.contents out.new)) }
{
    frame(alloc, source, reading, place, form, hex, input, out)?;
    Ok(Recap::Nothing)
}

#[inline(never)]
fn read_eld<W: Sink>(form: Form, input: &[u8], out: &mut W) -> Result<Recap, ProgramFault>
    ensures { OnOk result (Writes (CommandChoice.Eld form) [] input.now (W.contents out.old) (W.contents out.new)) }
{
    write_read_eld(form, input, out)?;
    Ok(Recap::Nothing)
}

/// Does what is asked for. Of a run the result has the counts. Of a sweep the hearer hears how far it is, where that is asked for.
pub fn perform<W: Sink, H: ProgressHearer>(
    alloc: Global,
    choice: CommandChoice,
    signal: &[u8],
    input: &[u8],
    out: &mut W,
    hearer: &mut H,
) -> Result<Recap, ProgramFault>
    requires { is_line_by_line choice ≡ false }
    ensures { OnOk result (Writes choice signal.now input.now (W.contents out.old) (W.contents out.new)) }
{
    match choice {
        CommandChoice::Run { listing, strict } => match listing {
            Listing::Trace => run(alloc, strict, input, out),
            Listing::Line(form) => run_to_line(alloc, form, strict, input, out),
            Listing::Drives => run_to_drives(alloc, Wires::Plain, strict, input, out),
            Listing::Named => run_to_drives(alloc, Wires::Named, strict, input, out),
        },
        CommandChoice::Check(view) => test(alloc, Form::Text, view, input, out, hearer),
        CommandChoice::CheckCapture { form, glitch } => {
            test_capture(alloc, Form::Text, form, signal, glitch, input, out)
        }
        CommandChoice::Step { form } => step(alloc, form, input, out),
        CommandChoice::Live { .. } | CommandChoice::Follow(_) => unreachable!(),
        CommandChoice::Asm => assemble(input, out),
        CommandChoice::Dis { meaning, form } => disassemble(meaning, form, input, out),
        CommandChoice::Lay { form } => lay(form, input, out),
        CommandChoice::Mon(mon) => show_capture(alloc, mon, signal, input, out),
        CommandChoice::Summary(choice) => sum_up(alloc, choice, signal, input, out),
        CommandChoice::CaptureDiff(pair) => compare_parts(alloc, pair, signal, input, out),
        CommandChoice::CapturedLine {
            form,
            inverted,
            scale,
            glitch,
        } => write_line(alloc, form, signal, inverted, scale, glitch, input, out),
        CommandChoice::Json(objects) => write_json(alloc, objects, signal, input, out),
        CommandChoice::EdidDiff { dumps, form } => compare_edids(dumps, form, input, out),
        CommandChoice::InfoFrame {
            source,
            reading,
            place,
            form,
        } => hold_against(alloc, source, reading, place, form, signal, input, out),
        CommandChoice::Eld { form } => read_eld(form, input, out),
        CommandChoice::Edid {
            source,
            reading,
            view,
        } => {
            edid(alloc, source, reading, view, input, out)?;
            Ok(Recap::Nothing)
        }
    }
}
