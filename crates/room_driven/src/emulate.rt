//! From the texts of a topology and a script to the line of their run, and who drives it.
ghost use Rattle.std.specs.Prelude.{◌≡◌, ℕ, List, ◌↔◌, false, IfOk, IfErr, IsTrue};
ghost use Rattle.std.specs.Io.KnownBytes.{Appends};
ghost use Rattle.room_run.specs.Emulate.{IsReported, is_write};
ghost use Rattle.room_driven.specs.Emulate.{IsDumpCut, IsDumpOf};

use crate::run::run;
use crate::wires::Wires;
use edid_core::root_on_heap;
use room_net::Net;
use room_run::Totals;
use room_run::emulate::EmulateError;
use room_script::{parse_script, parse_topology};
use std::alloc::Global;
use text_core::Sink;

/// Runs a script on a topology, and writes a Value Change Dump (IEEE 1364-2005, 18) while it runs: a wire for the line of the
/// whole run, and below it one for each device and one for the pulses, low where that device, as a sender, an acknowledger or
/// by a low drive, or a pulse pulls. With names there are two wires of text more, GTKWave's type `string`: `frame` has what is
/// read from a round's begin to its close, and `bit` which bit of it is on the line from a fall to the next. Instants are in
/// microseconds; the last one is the later of the script's end and the close of the last round.
///
/// # Errors
///
/// Those of [`emulate`](room_run::emulate::emulate), in the same order. A failed write: then the front of that text was
/// written, as long as it reports. Else nothing was written.
// The network is large: where this stood inside its caller, the caller's frame would hold one for each kind of run.
#[inline(never)]
pub fn emulate_drives<S: Sink>(
    alloc: Global,
    topology: &[u8],
    script: &[u8],
    wires: Wires,
    out: &mut S,
) -> Result<Totals, EmulateError>
    ensures ok { IfOk result (λ totals. (text : List ℕ) × IsDumpOf wires topology.now script.now text totals × Appends (S.contents out.old) (S.contents out.new) text) }
    ensures reported { IfErr result (IsReported topology.now script.now) }
    ensures write { S.is_stuck out.old ≡ false → (IsTrue (is_write result) ↔ IsTrue (S.is_stuck out.new)) }
    ensures cut { IfErr result (IsDumpCut wires topology.now script.now (S.contents out.old) (S.contents out.new)) }
{
    let topology = parse_topology(alloc, topology)?;
    let script = parse_script(alloc, &topology, script)?;
    let _edid = root_on_heap(alloc, &topology.edid)?;
    let _count = topology.tree.count();
    let Ok(mut net) = Net::on_heap(alloc, topology.tree, &script.pulses) else {
        return Err(EmulateError::Memory);
    };
    match run(out, wires, &mut net, &script.events, script.end) {
        Ok(totals) => Ok(totals),
        Err(fault) => Err(EmulateError::Write(fault.count)),
    }
}
