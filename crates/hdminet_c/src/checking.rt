//! Whether a run is as the expectations of its script have it.
ghost use Rattle.library_run.specs.Checking.{AnswersCheck};

use library_answers::Answer;
use library_run::{TestCounts, put_report};
use std::alloc::Global;

/// Runs a script without its labels and expectations on a topology, and puts the report into the room whether the run is as
/// they have it. Its tests are counted also where the room is too small.
///
/// Refused as `hdminet_emulate` refuses the script without them; then with the first line whose label or expectation is at
/// fault; or where memory ran out.
#[unsafe(no_mangle)]
pub extern "C" fn hdminet_check(
    alloc: Global,
    topology: &[u8],
    script: &[u8],
    room: &mut [u8],
    counts: &mut TestCounts,
) -> Answer
    ensures { AnswersCheck topology.now script.now room.old room.new counts.old counts.new result }
{
    put_report(alloc, topology, script, room, counts)
}
