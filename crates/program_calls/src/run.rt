//! What is written of a run.
ghost use Rattle.std.specs.Prelude.{◌≡◌, true, [], OnOk};
ghost use Rattle.program_calls.specs.Done.{Writes, WritesDrives, WritesLine};

use crate::fault::ProgramFault;
use crate::told::Recap;
use capture_forms::CaptureForm;
use cli_choice::{CommandChoice, Listing, Objects};
use program_input::run_parts;
use room_driven::{Wires, emulate_drives};
use room_run::Totals;
use room_run::emulate::emulate;
use room_run::line::emulate_line;
use room_run::objects::emulate_objects;
use std::alloc::Global;
use text_core::Sink;

// The counts of a run, unless it is strict and an event was refused.
fn accepted(totals: Totals, strict: bool) -> Result<Recap, ProgramFault>
    ensures { OnOk result (strict ≡ true → totals.refused ≡ 0) }
{
    if strict && totals.refused > 0 {
        return Err(ProgramFault::EventsRefused(totals));
    }
    Ok(Recap::Run(totals))
}

/// Each of these takes its memory on the stack where it is asked for, and not in every start. The result has what there is to
/// say of it.
#[inline(never)]
pub fn run<W: Sink>(
    alloc: Global,
    strict: bool,
    input: &[u8],
    out: &mut W,
) -> Result<Recap, ProgramFault>
    ensures { OnOk result (Writes (CommandChoice.Run Listing.Trace strict) [] input.now (W.contents out.old) (W.contents out.new)) }
{
    let (topology, script) = run_parts(input)?;
    let totals = emulate(alloc, topology, script, out)?;
    accepted(totals, strict)
}

/// Writes the line of a run in a format.
#[inline(never)]
pub fn run_to_line<W: Sink>(
    alloc: Global,
    format: CaptureForm,
    strict: bool,
    input: &[u8],
    out: &mut W,
) -> Result<Recap, ProgramFault>
    ensures { OnOk result (WritesLine format strict input.now (W.contents out.old) (W.contents out.new)) }
{
    let (topology, script) = run_parts(input)?;
    let totals = emulate_line(alloc, topology, script, format, out)?;
    accepted(totals, strict)
}

/// Writes the line of a run and who drives it, with its frames and bits as strings or without.
#[inline(never)]
pub fn run_to_drives<W: Sink>(
    alloc: Global,
    wires: Wires,
    strict: bool,
    input: &[u8],
    out: &mut W,
) -> Result<Recap, ProgramFault>
    ensures { OnOk result (WritesDrives wires strict input.now (W.contents out.old) (W.contents out.new)) }
{
    let (topology, script) = run_parts(input)?;
    let totals = emulate_drives(alloc, topology, script, wires, out)?;
    accepted(totals, strict)
}

/// Writes the objects of the lines of a run's trace while it runs.
#[inline(never)]
#[tactic(auto, using(crate::proofs::ObjectLemmas::trace_ended))]
pub fn run_to_objects<W: Sink>(
    alloc: Global,
    strict: bool,
    input: &[u8],
    out: &mut W,
) -> Result<Recap, ProgramFault>
    ensures { OnOk result (Writes (CommandChoice.Json (Objects.Trace strict)) [] input.now (W.contents out.old) (W.contents out.new)) }
{
    let (topology, script) = run_parts(input)?;
    let totals = emulate_objects(alloc, topology, script, false, out)?;
    accepted(totals, strict)
}

/// The same with those of its room.
#[inline(never)]
#[tactic(auto, using(crate::proofs::ObjectLemmas::room_ended))]
pub fn run_to_room<W: Sink>(
    alloc: Global,
    strict: bool,
    input: &[u8],
    out: &mut W,
) -> Result<Recap, ProgramFault>
    ensures { OnOk result (Writes (CommandChoice.Json (Objects.Room strict)) [] input.now (W.contents out.old) (W.contents out.new)) }
{
    let (topology, script) = run_parts(input)?;
    let totals = emulate_objects(alloc, topology, script, true, out)?;
    accepted(totals, strict)
}
