//! The emulator.
ghost use Rattle.std.specs.Prelude.{◌≤◌, ◌<◌};
ghost use Rattle.library_run.specs.Run.{IsEdgesPut, IsRunRefused, IsTracePut};

use library_answers::Answer;
use library_run::{put_edges, put_trace};
use std::alloc::Global;

/// Runs a script on a topology, and puts the trace of the run into the room.
///
/// Refused with the first line of the topology, and then of the script, that is at fault; then where the topology's EDID is
/// none or has no HDMI block; or where memory ran out.
#[unsafe(no_mangle)]
pub extern "C" fn hdminet_emulate(
    alloc: Global,
    topology: &[u8],
    script: &[u8],
    room: &mut [u8],
) -> Answer
    ensures done { result.code ≤ 1 → IsTracePut topology.now script.now room.old room.new result }
    ensures refused { 1 < result.code → IsRunRefused topology.now script.now room.old room.new result }
{
    put_trace(alloc, topology, script, room)
}

/// Runs a script on a topology, and puts the edge file of the run into the room: the falls and rises of the whole run's
/// line, and its end.
///
/// Refused as `hdminet_emulate`.
#[unsafe(no_mangle)]
pub extern "C" fn hdminet_emulate_edges(
    alloc: Global,
    topology: &[u8],
    script: &[u8],
    room: &mut [u8],
) -> Answer
    ensures done { result.code ≤ 1 → IsEdgesPut topology.now script.now room.old room.new result }
    ensures refused { 1 < result.code → IsRunRefused topology.now script.now room.old room.new result }
{
    put_edges(alloc, topology, script, room)
}
