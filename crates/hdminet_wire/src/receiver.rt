//! A receiver of the CEC line. The caller keeps what it keeps.
ghost use Rattle.library_wire.specs.Receiver.{AnswersInstant, AnswersRunning, AnswersWake, IsStart};

use library_wire::{
    Instant, InstantHeard, ReadingParts, receiver_hear, receiver_new, receiver_running,
    receiver_wakes_at,
};
use line_reading::ReceiverParts;

/// A receiver of a line of which nothing is reported yet: it is high, and no reading runs.
#[unsafe(no_mangle)]
pub extern "C" fn hdminet_receiver_new() -> ReceiverParts
    ensures { IsStart result }
{
    receiver_new()
}

/// Instant `t` has come, from which on the line is low or not: an edge, or a wake with the level as it was. Answers what
/// that instant reports. Where it ends a reading, this one is put in `reading`. Instants rise, and none is after the wake.
///
/// Refused where the state is no receiver's, and then where `t` is after 3,000,000,000,000 microseconds: both stay as they
/// were.
#[unsafe(no_mangle)]
pub extern "C" fn hdminet_receiver_hear(
    receiver: &mut ReceiverParts,
    t: u64,
    is_low: bool,
    reading: &mut ReadingParts,
) -> InstantHeard
    ensures { AnswersInstant t is_low result receiver.old receiver.new reading.old reading.new }
{
    receiver_hear(receiver, t, is_low, reading)
}

/// The instant at which the receiver is to hear the line again, where no edge comes first, in microseconds.
///
/// Refused where the state is no receiver's, and absent where no reading runs.
#[unsafe(no_mangle)]
pub extern "C" fn hdminet_receiver_wakes_at(receiver: &ReceiverParts) -> Instant
    ensures { AnswersWake receiver.now result }
{
    receiver_wakes_at(receiver)
}

/// Puts the reading that runs in `reading`, as far as it was heard: it is open at `t`. Answers the number of a `Code`.
///
/// Refused where the state is no receiver's, and absent where no reading runs: `reading` stays as it was.
#[unsafe(no_mangle)]
pub extern "C" fn hdminet_receiver_running(
    receiver: &ReceiverParts,
    t: u64,
    reading: &mut ReadingParts,
) -> u32
    ensures { AnswersRunning receiver.now t result reading.old reading.new }
{
    receiver_running(receiver, t, reading)
}
