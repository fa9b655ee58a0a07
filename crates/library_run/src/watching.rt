//! What was read on a line.
ghost use Rattle.std.specs.Prelude.{◌≡◌, ◌≤◌, ◌<◌, Err};
ghost use Rattle.library_run.specs.Watching.{AreReadingsPut, IsWatchRefused, watch_answer};

use capture_monitor::{WatchError, watch};
use library_answers::{Answer, Code, put, refused};
use std::alloc::Global;
use text_core::Held;

/// The answer where nothing is read, for this cause. What is written stands in memory, so that only want of it ends a write.
pub fn watch_refused(error: &WatchError) -> Answer
    ensures { result ≡ watch_answer error.now }
{
    match error {
        WatchError::Line { line, .. } => refused(Code::EdgesLine, *line),
        WatchError::Order { line, .. } => refused(Code::EdgesOrder, *line),
        WatchError::Write(_) | WatchError::Memory => refused(Code::Memory, 0),
    }
}

/// Puts the lines of the readings of an edge file into the room.
///
/// Refused with the first line of it that is at fault, or where memory ran out.
pub fn put_readings(alloc: Global, edges: &[u8], room: &mut [u8]) -> Answer
    ensures done { result.code ≤ 1 → AreReadingsPut edges.now room.old room.new result }
    ensures refused { 1 < result.code → IsWatchRefused edges.now room.old room.new result }
{
    let mut readings = Held::new(alloc);
    match watch(alloc, edges, &mut readings) {
        Ok(()) => put(readings.bytes(), room),
        Err(error) => watch_refused(&error),
    }
}
