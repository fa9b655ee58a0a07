//! The steps of a text, taken on the run of a topology and a script.
ghost use Rattle.std.specs.Prelude.{◌≡◌, ◌||◌, ◌↔◌, ℕ, List, All, IfOk, IfErr, OnOk, OnErr, IsTrue, true, false};
ghost use Rattle.text_core.specs.Adds.{Adds};
ghost use Rattle.std.specs.Io.KnownBytes.{Appends};
ghost use Rattle.text_core.specs.Cut.{WrittenText};
ghost use Rattle.room_steps.specs.Steps.{IsTaken, device_count, is_write as step_fails};
ghost use Rattle.room_steps.specs.StepRun.{AreCut, AreDue, AreRefused, AreStepsOf, IsCommandTaken, IsCutBy, IsNoStep, IsStep, NamesDevice, ended_text, is_write};

use crate::stepper::{StepError, Stepper};
use edid_core::root_on_heap;
use record_core::{Form, Value, add_record, cells};
use room_run::emulate::EmulateError;
use room_script::{parse_script, parse_topology};
use room_step_text::{CommandsError, StepCommand, parse_commands};
use std::alloc::Global;
use text_core::{Counted, Piece, Sink, WriteFault, counted, cut_at};
use thiserror::Error;

/// Why steps were not taken, or not all of them.
#[derive(Debug, Drop, Error)]
pub enum StepRunError {
    /// As the run is refused.
    #[error(transparent)]
    Run(#[from] EmulateError),
    /// The first line of the steps at fault, counted from 1, and the word at fault, counted from 0; where a word is missing,
    /// the number that it would have.
    #[error("steps line {line}")]
    Steps { line: u64, word: usize },
}

// Adds that the run has no such step any more.
fn add_ended<S: Sink>(out: &mut Counted<'_, S>, form: Form)
    ensures { Adds out.old out.new (ended_text form) }
{
    let cells = cells![line("", Value::One(Piece::Text("ended")))];
    add_record(out, form, "ended", &cells);
}

// Writes it.
fn write_ended<S: Sink>(out: &mut S, form: Form) -> Result<u128, WriteFault>
    ensures { WrittenText (S.contents out.old) (S.contents out.new) (S.is_stuck out.old) (S.is_stuck out.new) (ended_text form) result }
{
    let mut text = Counted::new(out);
    add_ended(&mut text, form);
    let written = text.written();
    // No effect at run time. The proof reads what `out` holds from the sink that comes back.
    let _below = text.into_sink();
    written
}

// Takes the step that a command asks for.
fn take_step<S: Sink>(
    stepper: &mut Stepper,
    command: StepCommand,
    out: &mut S,
) -> Result<u128, StepError>
    requires { NamesDevice (device_count stepper.old) command }
    ensures step { IsTaken (IsStep command stepper.old) (IsNoStep command stepper.old) stepper.old stepper.new (S.contents out.old) (S.contents out.new) result }
    ensures flag { S.is_stuck out.new ≡ (step_fails result || S.is_stuck out.old) }
{
    match command {
        StepCommand::Edge => stepper.edge(out),
        StepCommand::Round => stepper.round(out),
        StepCommand::Until(at) => stepper.until(at, out),
        StepCommand::Show(device) => stepper.show(device, out),
    }
}

// Takes a command. Where the run has no such step any more, that is written.
fn take_command<S: Sink>(
    stepper: &mut Stepper,
    command: StepCommand,
    out: &mut S,
) -> Result<u128, WriteFault>
    requires { NamesDevice (device_count stepper.old) command }
    ensures { IsCommandTaken command stepper.old stepper.new (S.contents out.old) (S.contents out.new) (S.is_stuck out.old) (S.is_stuck out.new) result }
{
    let form = stepper.form();
    match take_step(stepper, command, out) {
        Ok(count) => Ok(count),
        Err(error) => match error {
            StepError::Write(count) => Err(WriteFault { count }),
            StepError::Ended => write_ended(out, form),
        },
    }
}

// Takes commands one after another.
fn take_commands<S: Sink>(
    stepper: &mut Stepper,
    commands: &[StepCommand],
    out: &mut S,
) -> Result<u128, WriteFault>
    requires { All (NamesDevice (device_count stepper.old)) commands.now }
    ensures ok { IfOk result (λ _. (text : List ℕ) × AreDue commands.now stepper.old text stepper.new × Appends (S.contents out.old) (S.contents out.new) text) }
    ensures cut { IfErr result (AreCut commands.now stepper.old (S.contents out.old) (S.contents out.new)) }
    ensures same { OnOk result (S.is_stuck out.new ≡ S.is_stuck out.old) }
    ensures stuck { OnErr result (S.is_stuck out.new ≡ true) }
{
    let mut written = 0;
    for command in commands {
        match take_command(stepper, *command, out) {
            Ok(count) => written = counted(written, count),
            Err(fault) => return Err(cut_at(written, fault)),
        }
    }
    Ok(written)
}

/// Takes the steps of a text on the run of a topology and a script, and writes what each gives in a form, or `ended` where the
/// run has no such step any more.
///
/// # Errors
///
/// What is refused of the topology, the script and the topology's EDID, as by `emulate`; then the first line of the
/// steps at fault, and its word; want of memory: then nothing was written. A failed write: then the front of the text was written,
/// as long as it reports.
pub fn step_run<S: Sink>(
    alloc: Global,
    form: Form,
    topology: &[u8],
    script: &[u8],
    steps: &[u8],
    out: &mut S,
) -> Result<(), StepRunError>
    ensures ok { OnOk result ((text : List ℕ) × AreStepsOf form topology.now script.now steps.now text × Appends (S.contents out.old) (S.contents out.new) text) }
    ensures reported { IfErr result (AreRefused topology.now script.now steps.now) }
    ensures write { S.is_stuck out.old ≡ false → (IsTrue (is_write result) ↔ IsTrue (S.is_stuck out.new)) }
    ensures cut { IfErr result (IsCutBy form topology.now script.now steps.now (S.contents out.old) (S.contents out.new)) }
{
    let topology = match parse_topology(alloc, topology) {
        Ok(topology) => topology,
        Err(fault) => return Err(StepRunError::Run(fault.into())),
    };
    let script = match parse_script(alloc, &topology, script) {
        Ok(script) => script,
        Err(fault) => return Err(StepRunError::Run(fault.into())),
    };
    let _edid = match root_on_heap(alloc, &topology.edid) {
        Ok(edid) => edid,
        Err(error) => return Err(StepRunError::Run(error.into())),
    };
    let commands = match parse_commands(alloc, &topology.tree, steps) {
        Ok(commands) => commands,
        Err(CommandsError::At { line, word }) => return Err(StepRunError::Steps { line, word }),
        Err(CommandsError::Memory) => return Err(StepRunError::Run(EmulateError::Memory)),
    };
    let Ok(mut stepper) = Stepper::in_form(alloc, form, topology, script) else {
        return Err(StepRunError::Run(EmulateError::Memory));
    };
    match take_commands(&mut stepper, &commands, out) {
        Ok(_) => Ok(()),
        Err(fault) => Err(StepRunError::Run(EmulateError::Write(fault.count))),
    }
}
