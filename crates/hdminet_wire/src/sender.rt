//! A sender of a frame on the CEC line. The caller keeps what it keeps.
ghost use Rattle.library_wire.specs.Sender.{AnswersBegin, AnswersChange, AnswersHeard, AnswersPull};

use library_wire::{
    Instant, InstantHeard, PullAnswer, sender_begin, sender_heard, sender_next_change, sender_pulls,
};
use line_reading::SenderParts;

/// Begins to send a frame at `t`, in microseconds: the line falls then. Answers the number of a `Code`.
///
/// Refused where there is no byte, or more than 16, and then where `t` is after 3,000,000,000,000: the sender stays as it
/// was.
#[unsafe(no_mangle)]
pub extern "C" fn hdminet_sender_begin(sender: &mut SenderParts, bytes: &[u8], t: u64) -> u32
    ensures { AnswersBegin bytes.now t result sender.old sender.new }
{
    sender_begin(sender, bytes, t)
}

/// What a receiver told at `t` of the reading that this sender began. Answers the number of a `Code`.
///
/// Refused where the state is no sender's, then where no receiver reports this, and then where `t` is after
/// 3,000,000,000,000 microseconds: the sender stays as it was.
#[unsafe(no_mangle)]
pub extern "C" fn hdminet_sender_heard(
    sender: &mut SenderParts,
    heard: &InstantHeard,
    t: u64,
) -> u32
    ensures { AnswersHeard heard.now t result sender.old sender.new }
{
    sender_heard(sender, heard, t)
}

/// Whether the sender pulls the line low in microsecond `t`.
///
/// Refused where the state is no sender's, and then where `t` is after 3,000,000,000,000.
#[unsafe(no_mangle)]
pub extern "C" fn hdminet_sender_pulls(sender: &SenderParts, t: u64) -> PullAnswer
    ensures { AnswersPull sender.now t result }
{
    sender_pulls(sender, t)
}

/// The first instant after `t` at which the pull changes, where the sender is told nothing more, in microseconds.
///
/// Refused where the state is no sender's, then where `t` is after 3,000,000,000,000, and absent where it changes no more.
#[unsafe(no_mangle)]
pub extern "C" fn hdminet_sender_next_change(sender: &SenderParts, t: u64) -> Instant
    ensures { AnswersChange sender.now t result }
{
    sender_next_change(sender, t)
}
