//! From the texts of a topology and a script to the edges of their run.
ghost use Rattle.std.specs.Prelude.{◌≡◌, ℕ, List, ◌↔◌, false, IfOk, IfErr, IsTrue};
ghost use Rattle.std.specs.Io.KnownBytes.{Appends};
ghost use Rattle.room_run.specs.Emulate.{IsEdgeTraceOf, IsReported, IsEdgeCut, is_write};

use crate::emulate::EmulateError;
use crate::line::emulate_line;
use crate::run::Totals;
use capture_forms::CaptureForm;
use std::alloc::Global;
use text_core::Sink;

/// Runs a script on a topology, and writes the edge file of the run: the falls and rises of the whole run's line,
/// and then the later of the script's end and the close of the last round.
///
/// # Errors
///
/// Those of [`emulate`](crate::emulate::emulate), in the same order. A failed write: then the front of the edge file
/// was written, as long as it reports. Else nothing was written.
pub fn emulate_edges<S: Sink>(
    alloc: Global,
    topology: &[u8],
    script: &[u8],
    out: &mut S,
) -> Result<Totals, EmulateError>
    ensures ok { IfOk result (λ totals. (text : List ℕ) × IsEdgeTraceOf topology.now script.now text totals × Appends (S.contents out.old) (S.contents out.new) text) }
    ensures reported { IfErr result (IsReported topology.now script.now) }
    ensures write { S.is_stuck out.old ≡ false → (IsTrue (is_write result) ↔ IsTrue (S.is_stuck out.new)) }
    ensures cut { IfErr result (IsEdgeCut topology.now script.now (S.contents out.old) (S.contents out.new)) }
{
    emulate_line(alloc, topology, script, CaptureForm::Edges, out)
}
