//! What was read on a line.
ghost use Rattle.std.specs.Prelude.{◌≤◌, ◌<◌};
ghost use Rattle.library_run.specs.Watching.{AreReadingsPut, IsWatchRefused};

use library_answers::Answer;
use library_run::put_readings;
use std::alloc::Global;

/// Puts the lines of the readings of an edge file into the room.
///
/// Refused with the first line of it that is at fault, or where memory ran out.
#[unsafe(no_mangle)]
pub extern "C" fn hdminet_watch(alloc: Global, edges: &[u8], room: &mut [u8]) -> Answer
    ensures done { result.code ≤ 1 → AreReadingsPut edges.now room.old room.new result }
    ensures refused { 1 < result.code → IsWatchRefused edges.now room.old room.new result }
{
    put_readings(alloc, edges, room)
}
