//! Sessions.
ghost use Rattle.std.specs.Prelude.{◌≡◌, None};
ghost use Rattle.library_live.specs.Live.{AnswersAgain, AnswersLine, AnswersOpen, edge_line, pin_line};

use library_answers::Answer;
use library_live::LiveRoom;
use std::alloc::Global;

/// Opens a session of a topology, in the place of the one that is open, and puts into the room what stands before its first answer.
///
/// Refused as `hdminet_emulate` refuses the topology, or where memory ran out: then nothing has changed.
#[unsafe(no_mangle)]
pub extern "C" fn hdminet_live_open(
    alloc: Global,
    live: &mut LiveRoom,
    topology: &[u8],
    room: &mut [u8],
) -> Answer
    ensures { AnswersOpen topology.now live.old.kept.value live.new.kept.value room.old room.new result }
{
    live.open(alloc, topology, room)
}

/// Answers a line, and puts into the room what a session writes up to its answer, and that.
///
/// Refused where no session is open, or its script has ended; where the line has an end in it or more than 4,096 bytes: then
/// nothing has changed; or where memory ran out: then it is closed.
#[unsafe(no_mangle)]
pub extern "C" fn hdminet_live_line(
    alloc: Global,
    live: &mut LiveRoom,
    line: &[u8],
    room: &mut [u8],
) -> Answer
    ensures { AnswersLine line.now live.old.kept.value live.new.kept.value room.old room.new result }
{
    live.line(alloc, line, room)
}

/// The same of a line `pin T 0` or `pin T 1`: from an instant on the pin pulls the line low, or lets it go.
///
/// Refused as `hdminet_live_line`.
#[unsafe(no_mangle)]
pub extern "C" fn hdminet_live_pin(
    alloc: Global,
    live: &mut LiveRoom,
    t: u64,
    is_low: bool,
    room: &mut [u8],
) -> Answer
    ensures { AnswersLine (pin_line t is_low) live.old.kept.value live.new.kept.value room.old room.new result }
{
    live.pin(alloc, t, is_low, room)
}

/// The same of a line `edge T`: up to the next edge of the line, at most to an instant.
///
/// Refused as `hdminet_live_line`.
#[unsafe(no_mangle)]
pub extern "C" fn hdminet_live_edge(
    alloc: Global,
    live: &mut LiveRoom,
    t: u64,
    room: &mut [u8],
) -> Answer
    ensures { AnswersLine (edge_line t) live.old.kept.value live.new.kept.value room.old room.new result }
{
    live.edge(alloc, t, room)
}

/// Puts once more into the room what the last call put, or would have put.
///
/// Refused where no session is open.
#[unsafe(no_mangle)]
pub extern "C" fn hdminet_live_again(alloc: Global, live: &mut LiveRoom, room: &mut [u8]) -> Answer
    ensures again { AnswersAgain live.old.kept.value room.old room.new result }
    ensures same { live.new.kept.value ≡ live.old.kept.value }
{
    live.again(alloc, room)
}

/// Closes the session that is open, and gives its memory back.
#[unsafe(no_mangle)]
pub extern "C" fn hdminet_live_close(alloc: Global, live: &mut LiveRoom)
    ensures { live.new.kept.value ≡ None }
{
    live.close(alloc);
}
