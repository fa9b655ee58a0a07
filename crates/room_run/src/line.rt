//! From the texts of a topology and a script to the line of their run, in a format.
ghost use Rattle.std.specs.Prelude.{◌≡◌, ℕ, List, ◌↔◌, false, IfOk, IfErr, IsTrue};
ghost use Rattle.std.specs.Io.KnownBytes.{Appends};
ghost use Rattle.room_run.specs.declared.run.Reporting.TheVariants.{Line};
ghost use Rattle.room_run.specs.Emulate.{IsLineOf, IsReported, IsLineCut, is_write};

use crate::emulate::EmulateError;
use crate::run::{Reporting, Totals, run, started_net};
use capture_forms::CaptureForm;
use edid_core::root_on_heap;
use room_script::{parse_script, parse_topology};
use std::alloc::{AllocError, Global};
use text_core::Sink;

// That the line is written in a format, on the heap: it takes as much room as an EDID.
#[inline(never)]
fn line_in<'a>(alloc: Global, format: CaptureForm) -> Result<Box<Reporting<'a>>, AllocError>
    ensures { IfOk result (λ reporting. reporting.value ≡ Line format) }
{
    let reporting = Box::new(alloc, Reporting::Line(format))?;
    Ok(reporting)
}

/// Runs a script on a topology, and writes the line of the whole run while it runs, in this format: the falls and rises of
/// each round, up to the later of the script's end and the close of the last round.
///
/// # Errors
///
/// Those of [`emulate`](crate::emulate::emulate), in the same order. A failed write: then the front of that text was written,
/// as long as it reports. Else nothing was written.
// The network is large: where this stood inside its caller, the caller's frame would hold one for each kind of run.
#[inline(never)]
pub fn emulate_line<S: Sink>(
    alloc: Global,
    topology: &[u8],
    script: &[u8],
    format: CaptureForm,
    out: &mut S,
) -> Result<Totals, EmulateError>
    ensures ok { IfOk result (λ totals. (text : List ℕ) × IsLineOf format topology.now script.now text totals × Appends (S.contents out.old) (S.contents out.new) text) }
    ensures reported { IfErr result (IsReported topology.now script.now) }
    ensures write { S.is_stuck out.old ≡ false → (IsTrue (is_write result) ↔ IsTrue (S.is_stuck out.new)) }
    ensures cut { IfErr result (IsLineCut format topology.now script.now (S.contents out.old) (S.contents out.new)) }
{
    let topology = parse_topology(alloc, topology)?;
    let script = parse_script(alloc, &topology, script)?;
    let _edid = root_on_heap(alloc, &topology.edid)?;
    let Ok(reporting) = line_in(alloc, format) else {
        return Err(EmulateError::Memory);
    };
    let Ok(mut net) = started_net(alloc, topology.tree, &script) else {
        return Err(EmulateError::Memory);
    };
    match run(out, &mut net, &reporting, &script.events, script.end) {
        Ok(totals) => Ok(totals),
        Err(fault) => Err(EmulateError::Write(fault.count)),
    }
}
