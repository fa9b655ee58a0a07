//! A receiver of the CEC line. The caller keeps what it keeps.
ghost use Rattle.std.specs.Prelude.{◌≡◌, option_map};
ghost use Rattle.line_reading.specs.Hears.{heard_by};
ghost use Rattle.line_reading.specs.Reports.{listed_as};
ghost use Rattle.library_wire.specs.Receiver.{AnswersInstant, AnswersRunning, AnswersWake, IsRunning, IsStart};

use crate::heard::{Instant, InstantHeard, heard_of, heard_refused, instant_of, instant_refused};
use crate::readings::{ReadingParts, put_reading};
use capture_monitor::ended_of;
use library_answers::Code;
use line_frames::Reading;
use line_reading::{Receiver, ReceiverParts};
use line_wave::LATEST_HEARD;

/// A receiver of a line of which nothing is reported yet: it is high, and no reading runs.
pub fn receiver_new() -> ReceiverParts
    ensures { IsStart result }
{
    Receiver::new().parts()
}

// The receiver with the level of the line noted.
fn noted(receiver: Receiver, t: u64, is_low: bool) -> Receiver
    ensures keeps { heard_by result ≡ heard_by receiver }
    ensures stood { result.was_low ≡ receiver.was_low }
    ensures level { result.is_low ≡ is_low }
{
    let mut receiver = receiver;
    if is_low {
        receiver.fall(t);
    } else {
        receiver.rise(t);
    }
    receiver
}

/// Instant `t` has come, from which on the line is low or not: an edge, or a wake with the level as it was. Answers what
/// that instant reports. Where it ends a reading, this one is put in `place`. Instants rise, and none is after the wake.
///
/// Refused where the state is no receiver's, and then where `t` is after 3,000,000,000,000 microseconds: both stay as they
/// were.
pub fn receiver_hear(
    receiver: &mut ReceiverParts,
    t: u64,
    is_low: bool,
    place: &mut ReadingParts,
) -> InstantHeard
    ensures { AnswersInstant t is_low result receiver.old receiver.new place.old place.new }
{
    let Some(was) = Receiver::of_parts(receiver) else {
        return heard_refused(Code::State);
    };
    if t > LATEST_HEARD {
        return heard_refused(Code::Late);
    }
    let mut next = noted(was, t, is_low);
    let running = next.running(t);
    let reported = next.tick(t);
    put_reading(ended_of(reported, t, running), place);
    *receiver = next.parts();
    heard_of(reported)
}

/// The instant at which the receiver is to hear the line again, where no edge comes first, in microseconds.
///
/// Refused where the state is no receiver's, and absent where no reading runs.
pub fn receiver_wakes_at(receiver: &ReceiverParts) -> Instant
    ensures { AnswersWake receiver.now result }
{
    match Receiver::of_parts(receiver) {
        Some(receiver) => instant_of(receiver.wakes_at()),
        None => instant_refused(Code::State),
    }
}

// Puts the reading that runs, if one does.
fn put_running(running: Option<Reading>, place: &mut ReadingParts) -> u32
    ensures { IsRunning (option_map listed_as running) result place.old place.new }
{
    let code = match running {
        Some(_) => Code::Done,
        None => Code::Absent,
    };
    put_reading(running, place);
    code.number()
}

/// Puts the reading that runs in `place`, as far as it was heard: it is open at `t`. Answers the number of a `Code`.
///
/// Refused where the state is no receiver's, and absent where no reading runs: `place` stays as it was.
pub fn receiver_running(receiver: &ReceiverParts, t: u64, place: &mut ReadingParts) -> u32
    ensures { AnswersRunning receiver.now t result place.old place.new }
{
    match Receiver::of_parts(receiver) {
        Some(receiver) => put_running(receiver.running(t), place),
        None => Code::State.number(),
    }
}
