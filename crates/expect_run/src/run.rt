//! A run, as a reporter hears of it.
ghost use Rattle.std.specs.Prelude.{IfErr, IfOk, OnOk};
ghost use Rattle.room_run.specs.Emulate.{IsReported};
ghost use Rattle.expect_run.specs.States.{IsTraced};
ghost use Rattle.expect_told.specs.Turns.{IsHeardOf};

use edid_core::root_on_heap;
use line_wire::EdgeWire;
use room_net::Net;
use room_run::emulate::EmulateError;
use room_run::{Reporter, ScriptSource, run_turns, texts_have_traces};
use room_script::parse_topology;
use std::alloc::Global;

/// Runs the script that a source has on a topology, turn by turn, as long as the reporter wants to hear more. Returns the network
/// as it is then.
///
/// # Errors
///
/// Those of [`emulate`](room_run::emulate::emulate), but a failed write.
// The network is large: where this stood inside its caller, the caller's frame would hold one for each kind of run.
#[inline(never)]
pub(crate) fn run_told<T: ScriptSource, R: Reporter>(
    alloc: Global,
    topology: &[u8],
    script: &T,
    reporter: &mut R,
) -> Result<Box<Net<EdgeWire>>, EmulateError>
    ensures ok { IfOk result (λ net. IsHeardOf R.hears topology.now (T.text script.now) reporter.old reporter.new net.value (R.goes_on reporter.new)) }
    ensures traced { OnOk result (IsTraced topology.now (T.text script.now)) }
    ensures reported { IfErr result (IsReported topology.now (T.text script.now)) }
{
    // No effect at run time. The proof reads from it that the script has a trace.
    texts_have_traces();
    let topology = parse_topology(alloc, topology)?;
    let script = script.parse(alloc, &topology)?;
    let _edid = root_on_heap(alloc, &topology.edid)?;
    let Ok(mut net) = Net::on_heap(alloc, topology.tree, &script.pulses) else {
        return Err(EmulateError::Memory);
    };
    let _totals = run_turns(&mut net, &script.events, script.end, reporter);
    Ok(net)
}
