//! The emulator.
ghost use Rattle.std.specs.Prelude.{◌≡◌, ◌≤◌, ◌<◌};
ghost use Rattle.library_run.specs.Run.{IsEdgesPut, IsRunRefused, IsTracePut, root_code, run_answer, script_code, topology_code};

use edid_core::EdidCause;
use library_answers::{Answer, Code, edid_code, put, refused, text_code};
use room_run::edges::emulate_edges;
use room_run::emulate::{EmulateError, emulate};
use room_script::{ScriptCause, TopologyCause};
use std::alloc::Global;
use text_core::Held;

fn topology_code(cause: TopologyCause) -> Code
    ensures { result ≡ topology_code cause }
{
    match cause {
        TopologyCause::Word => Code::TopologyWord,
        TopologyCause::Number => Code::TopologyNumber,
        TopologyCause::Name => Code::TopologyName,
        TopologyCause::Full => Code::TopologyFull,
        TopologyCause::SecondRoot => Code::TopologySecondRoot,
        TopologyCause::NoRoot => Code::TopologyNoRoot,
        TopologyCause::PortRange => Code::TopologyPortRange,
        TopologyCause::PortTaken => Code::TopologyPortTaken,
        TopologyCause::NotLoose => Code::TopologyNotLoose,
        TopologyCause::Loop => Code::TopologyLoop,
        TopologyCause::Hex => Code::TopologyHex,
    }
}

fn script_code(cause: ScriptCause) -> Code
    ensures { result ≡ script_code cause }
{
    match cause {
        ScriptCause::Word => Code::ScriptWord,
        ScriptCause::Number => Code::ScriptNumber,
        ScriptCause::Name => Code::ScriptName,
        ScriptCause::Frame(cause) => text_code(cause),
        ScriptCause::Hex => Code::ScriptHex,
        ScriptCause::Width => Code::ScriptWidth,
        ScriptCause::Order => Code::ScriptOrder,
        ScriptCause::Close => Code::ScriptClose,
        ScriptCause::TooMany => Code::ScriptTooMany,
        ScriptCause::End => Code::ScriptEnd,
    }
}

fn root_code(cause: EdidCause) -> Code
    ensures { result ≡ root_code cause }
{
    match cause {
        EdidCause::Edid(cause) => edid_code(cause),
        EdidCause::NoHdmiBlock => Code::EdidNoHdmiBlock,
    }
}

/// The answer where there is no run, for this cause. What is written stands in memory, so that only want of it ends a write.
pub fn run_refused(error: &EmulateError) -> Answer
    ensures { result ≡ run_answer error.now }
{
    match error {
        EmulateError::Topology { line, cause, .. } => refused(topology_code(*cause), *line),
        EmulateError::Script { line, cause, .. } => refused(script_code(*cause), *line),
        EmulateError::Edid(cause) => refused(root_code(*cause), 0),
        EmulateError::Write(_) | EmulateError::Memory => refused(Code::Memory, 0),
    }
}

/// Runs a script on a topology, and puts the trace of the run into the room.
///
/// Refused with the first line of the topology, and then of the script, that is at fault; then where the topology's EDID is
/// none or has no HDMI block; or where memory ran out.
pub fn put_trace(alloc: Global, topology: &[u8], script: &[u8], room: &mut [u8]) -> Answer
    ensures done { result.code ≤ 1 → IsTracePut topology.now script.now room.old room.new result }
    ensures refused { 1 < result.code → IsRunRefused topology.now script.now room.old room.new result }
{
    let mut trace = Held::new(alloc);
    match emulate(alloc, topology, script, &mut trace) {
        Ok(_) => put(trace.bytes(), room),
        Err(error) => run_refused(&error),
    }
}

/// Runs a script on a topology, and puts the edge file of the run into the room: the falls and rises of the whole run's
/// line, and its end.
///
/// Refused as `put_trace`.
pub fn put_edges(alloc: Global, topology: &[u8], script: &[u8], room: &mut [u8]) -> Answer
    ensures done { result.code ≤ 1 → IsEdgesPut topology.now script.now room.old room.new result }
    ensures refused { 1 < result.code → IsRunRefused topology.now script.now room.old room.new result }
{
    let mut edges = Held::new(alloc);
    match emulate_edges(alloc, topology, script, &mut edges) {
        Ok(_) => put(edges.bytes(), room),
        Err(error) => run_refused(&error),
    }
}
