//! From the texts of a topology and a script to the trace of their run.
ghost use Rattle.std.specs.Prelude.{◌≡◌, ℕ, List, ◌↔◌, false, IfOk, IfErr, IsTrue, option_map};
ghost use Rattle.std.specs.Io.KnownBytes.{Appends};
ghost use Rattle.room_run.specs.declared.run.Reporting.TheVariants.{Trace};
ghost use Rattle.room_run.specs.Emulate.{IsTraceOf, IsReported, IsCut, is_write};

use crate::run::{Reporting, Totals, run, started_net};
use crate::source::{ScriptSource, ScriptText};
use edid_core::{Edid, EdidCause, RootError, root_on_heap};
use room_script::{ScriptCause, ScriptError, TopologyCause, TopologyError, parse_topology};
use std::alloc::{AllocError, Global};
use text_core::Sink;
use thiserror::Error;

/// Why there is no trace, or not all of it.
#[derive(Debug, Drop, Error)]
pub enum EmulateError {
    /// The first line of the topology at fault, counted from 1, its cause, and the word at fault, counted from 0; where a
    /// word is missing, the number that it would have.
    #[error("topology line {line}: {cause}")]
    Topology {
        line: u64,
        cause: TopologyCause,
        word: usize,
    },
    /// The same of the script.
    #[error("script line {line}: {cause}")]
    Script {
        line: u64,
        cause: ScriptCause,
        word: usize,
    },
    /// The topology's bytes of an EDID are refused.
    #[error("edid: {0}")]
    Edid(EdidCause),
    /// A `put` took none. So many bytes of the trace were written.
    #[error("write fault after {0} bytes")]
    Write(u128),
    #[error("no memory")]
    Memory,
}

impl From<TopologyError> for EmulateError {
    ghost use Rattle.std.specs.Prelude.{◌≡◌};
    ghost use Rattle.room_run.specs.Emulate.{topology_reported};

    ghost from_gives = { λ t e. e ≡ topology_reported t };

    fn from(error: TopologyError) -> EmulateError {
        match error {
            TopologyError::At(fault) => EmulateError::Topology {
                line: fault.line,
                cause: fault.cause,
                word: fault.word,
            },
            TopologyError::Memory => EmulateError::Memory,
        }
    }
}

impl From<ScriptError> for EmulateError {
    ghost use Rattle.std.specs.Prelude.{◌≡◌};
    ghost use Rattle.room_run.specs.Emulate.{script_reported};

    ghost from_gives = { λ t e. e ≡ script_reported t };

    fn from(error: ScriptError) -> EmulateError {
        match error {
            ScriptError::At(fault) => EmulateError::Script {
                line: fault.line,
                cause: fault.cause,
                word: fault.word,
            },
            ScriptError::Memory => EmulateError::Memory,
        }
    }
}

impl From<EdidCause> for EmulateError {
    ghost use Rattle.std.specs.Prelude.{◌≡◌};
    ghost use Rattle.room_run.specs.declared.emulate.EmulateError.TheVariants.{Edid};

    ghost from_gives = { λ cause e. e ≡ Edid cause };

    fn from(cause: EdidCause) -> EmulateError {
        EmulateError::Edid(cause)
    }
}

impl From<RootError> for EmulateError {
    ghost use Rattle.std.specs.Prelude.{◌≡◌};
    ghost use Rattle.room_run.specs.Emulate.{root_reported};

    ghost from_gives = { λ r e. e ≡ root_reported r };

    fn from(error: RootError) -> EmulateError {
        match error {
            RootError::Cause(cause) => EmulateError::Edid(cause),
            RootError::Memory => EmulateError::Memory,
        }
    }
}

// That a trace is written with this EDID, on the heap: it is large.
#[inline(never)]
fn trace_with<'a>(alloc: Global, edid: Option<Box<Edid>>) -> Result<Box<Reporting<'a>>, AllocError>
    ensures { IfOk result (λ reporting. reporting.value ≡ Trace (option_map (λ b. b.value) edid)) }
{
    let reporting = match edid {
        None => Box::new(alloc, Reporting::Trace(None))?,
        Some(edid) => Box::new(alloc, Reporting::Trace(Some(Box::into_inner(edid))))?,
    };
    Ok(reporting)
}

/// Runs a script on a topology, and writes the trace of the run: the bytes of that trace and nothing else.
///
/// # Errors
///
/// The first line of the topology, and then of the script, that is at fault, and its cause; then the cause for
/// which the topology's EDID is refused; want of memory: then nothing was written. A failed write: then the front
/// of the trace was written, as long as it reports.
pub fn emulate<S: Sink>(
    alloc: Global,
    topology: &[u8],
    script: &[u8],
    out: &mut S,
) -> Result<Totals, EmulateError>
    ensures ok { IfOk result (λ totals. (text : List ℕ) × IsTraceOf topology.now script.now text totals × Appends (S.contents out.old) (S.contents out.new) text) }
    ensures reported { IfErr result (IsReported topology.now script.now) }
    ensures write { S.is_stuck out.old ≡ false → (IsTrue (is_write result) ↔ IsTrue (S.is_stuck out.new)) }
    ensures cut { IfErr result (IsCut topology.now script.now (S.contents out.old) (S.contents out.new)) }
{
    emulate_from(alloc, topology, &ScriptText { text: script }, out)
}

/// [`emulate`] of the text that a source has.
///
/// # Errors
///
/// Those of [`emulate`].
// The network is large: where this stood inside its caller, the caller's frame would hold one for each kind of run.
#[inline(never)]
pub fn emulate_from<T: ScriptSource, S: Sink>(
    alloc: Global,
    topology: &[u8],
    script: &T,
    out: &mut S,
) -> Result<Totals, EmulateError>
    ensures ok { IfOk result (λ totals. (text : List ℕ) × IsTraceOf topology.now (T.text script.now) text totals × Appends (S.contents out.old) (S.contents out.new) text) }
    ensures reported { IfErr result (IsReported topology.now (T.text script.now)) }
    ensures write { S.is_stuck out.old ≡ false → (IsTrue (is_write result) ↔ IsTrue (S.is_stuck out.new)) }
    ensures cut { IfErr result (IsCut topology.now (T.text script.now) (S.contents out.old) (S.contents out.new)) }
{
    let topology = parse_topology(alloc, topology)?;
    let script = script.parse(alloc, &topology)?;
    let edid = root_on_heap(alloc, &topology.edid)?;
    let Ok(reporting) = trace_with(alloc, edid) else {
        return Err(EmulateError::Memory);
    };
    let Ok(mut net) = started_net(alloc, topology.tree, &script) else {
        return Err(EmulateError::Memory);
    };
    match run(out, &mut net, &reporting, &script.events, script.end) {
        Ok(totals) => Ok(totals),
        Err(fault) => Err(EmulateError::Write(fault.count)),
    }
}
