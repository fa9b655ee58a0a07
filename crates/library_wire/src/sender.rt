//! A sender of a frame on the CEC line. The caller keeps what it keeps.
ghost use Rattle.std.specs.Prelude.{◌≡◌};
ghost use Rattle.library_wire.specs.Sender.{AnswersBegin, AnswersChange, AnswersHeard, AnswersPull, pull_code};

use crate::heard::{Instant, InstantHeard, instant_of, instant_refused, reported_in};
use library_answers::{Code, frame_code};
use line_frames::Frame;
use line_reading::{Sender, SenderParts};
use line_wave::LATEST_HEARD;

/// Whether a sender pulls the line low.
#[repr(C)]
#[derive(Clone, Copy, Debug, PartialEq, Eq)]
pub struct PullAnswer {
    /// The number of a `Code`: 0 where it is known.
    pub code: u32,
    /// Whether it pulls.
    pub is_low: bool,
}

/// Begins to send a frame at `t`, in microseconds: the line falls then. Answers the number of a `Code`.
///
/// Refused where there is no byte, or more than 16, and then where `t` is after 3,000,000,000,000: the sender stays as it
/// was.
pub fn sender_begin(sender: &mut SenderParts, bytes: &[u8], t: u64) -> u32
    ensures { AnswersBegin bytes.now t result sender.old sender.new }
{
    let frame = match Frame::new(bytes) {
        Ok(frame) => frame,
        Err(error) => return frame_code(error).number(),
    };
    if t > LATEST_HEARD {
        return Code::Late.number();
    }
    *sender = Sender::begin(frame, t).parts();
    Code::Done.number()
}

/// What a receiver told at `t` of the reading that this sender began. Answers the number of a `Code`.
///
/// Refused where the state is no sender's, then where no receiver reports this, and then where `t` is after
/// 3,000,000,000,000 microseconds: the sender stays as it was.
pub fn sender_heard(sender: &mut SenderParts, heard: &InstantHeard, t: u64) -> u32
    ensures { AnswersHeard heard.now t result sender.old sender.new }
{
    let Some(was) = Sender::of_parts(sender) else {
        return Code::State.number();
    };
    let Some(reported) = reported_in(*heard) else {
        return Code::Heard.number();
    };
    if t > LATEST_HEARD {
        return Code::Late.number();
    }
    let mut next = was;
    next.heard(reported, t);
    *sender = next.parts();
    Code::Done.number()
}

fn pull_refused(code: Code) -> PullAnswer
    ensures { result ≡ pull_code code }
{
    PullAnswer {
        code: code.number(),
        is_low: false,
    }
}

/// Whether the sender pulls the line low in microsecond `t`.
///
/// Refused where the state is no sender's, and then where `t` is after 3,000,000,000,000.
pub fn sender_pulls(sender: &SenderParts, t: u64) -> PullAnswer
    ensures { AnswersPull sender.now t result }
{
    let Some(sender) = Sender::of_parts(sender) else {
        return pull_refused(Code::State);
    };
    if t > LATEST_HEARD {
        return pull_refused(Code::Late);
    }
    PullAnswer {
        code: Code::Done.number(),
        is_low: sender.pulls(t),
    }
}

/// The first instant after `t` at which the pull changes, where the sender is told nothing more, in microseconds.
///
/// Refused where the state is no sender's, then where `t` is after 3,000,000,000,000, and absent where it changes no more.
pub fn sender_next_change(sender: &SenderParts, t: u64) -> Instant
    ensures { AnswersChange sender.now t result }
{
    let Some(sender) = Sender::of_parts(sender) else {
        return instant_refused(Code::State);
    };
    if t > LATEST_HEARD {
        return instant_refused(Code::Late);
    }
    instant_of(sender.next_change(t))
}
