//! Requests that wait for an answer.
ghost use Rattle.std.specs.Prelude.{◌≡◌, ◌+◌, ◌≤◌, ◌<◌, ◌++◌, length};
ghost use Rattle.audit_remarks.specs.Frames.{opcode_of, receiver, sender};
ghost use Rattle.audit_remarks.specs.Requests.{after_frame, answer_to, asks_again, has_fault, is_answer, is_given_up, is_late, is_later, is_opcode, is_over, is_past, is_to_refuse, left_waiting, reaches, refuses, request_of, unless_over, waited, with_request};

use crate::frames::{opcode_of, receiver, sender};
use crate::messages::{missed_receivers, missing_operands};
use arrayvec::ArrayVec;
use line_frames::Addr;
use message_table::name;
use text_core::byte_at;

/// The longest time in which an answer comes (CEC 9.2), in microseconds.
const ANSWER: u64 = 1_000_000;

/// How long an answer that is late is looked for, in microseconds.
const PATIENCE: u64 = 5_000_000;

/// The opcode of Feature Abort (CEC 12.3).
const FEATURE_ABORT: u8 = 0x00;

/// The opcode of Abort (CEC 12.3), which a device refuses.
const ABORT: u8 = 0xff;

/// The most requests that wait at once.
pub const WAITING: usize = 16;

/// A request, and what answers it.
#[derive(Clone, Copy, Debug, Default, PartialEq, Eq)]
pub struct Request {
    pub initiator: u8,
    pub destination: u8,
    pub opcode: u8,
    /// The opcode of its answer. Without one it is to be refused.
    pub answer: Option<u8>,
    /// Where its reading ended.
    pub since: u64,
}

/// The requests that wait for an answer.
pub type Waiting = ArrayVec<Request, WAITING>;

fn answer_to(opcode: u8) -> Option<u8>
    ensures { result ≡ answer_to opcode }
{
    match opcode {
        0x46 => Some(0x47),
        0x70 => Some(0x72),
        0x71 => Some(0x7a),
        0x7d => Some(0x7e),
        0x83 => Some(0x84),
        0x8c => Some(0x87),
        0x8d => Some(0x8e),
        0x8f => Some(0x90),
        0x91 => Some(0x32),
        0x9f => Some(0x9e),
        _ => None,
    }
}

// Whether only a later version of the standard has an opcode.
fn is_later(opcode: u8) -> bool
    ensures { result ≡ is_later opcode }
{
    opcode == 0x73 || (opcode >= 0xa5 && opcode <= 0xa8) || opcode == 0xf8
}

// Whether an opcode is Abort, or one that no version of the standard has.
fn is_to_refuse(opcode: u8) -> bool
    ensures { result ≡ is_to_refuse opcode }
{
    match name(opcode) {
        None => opcode == ABORT || !is_later(opcode),
        Some(_) => opcode == ABORT,
    }
}

// Whether it comes to others than it is for, or lacks operands.
fn has_fault(frame: &[u8]) -> bool
    ensures { result ≡ has_fault frame.now }
{
    missed_receivers(frame).is_some() || missing_operands(frame).is_some()
}

// The request that a frame is, whose reading ended then.
fn request_of(frame: &[u8], since: u64) -> Option<Request>
    ensures { result ≡ request_of frame.now since }
{
    let initiator = sender(frame);
    let destination = receiver(frame);
    if (frame.len() < 2 || destination == Addr::BROADCAST || initiator == Addr::BROADCAST)
        || has_fault(frame)
    {
        return None;
    }
    let opcode = opcode_of(frame);
    let answer = answer_to(opcode);
    if answer.is_none() && !is_to_refuse(opcode) {
        return None;
    }
    Some(Request {
        initiator,
        destination,
        opcode,
        answer,
        since,
    })
}

fn is_opcode(opcode: u8, answer: Option<u8>) -> bool
    ensures { result ≡ is_opcode opcode answer }
{
    match answer {
        None => false,
        Some(answer) => opcode == answer,
    }
}

impl Request {
    fn reaches(self, frame: &[u8]) -> bool
        ensures { result ≡ reaches frame.now self }
    {
        let destination = receiver(frame);
        destination == self.initiator || destination == Addr::BROADCAST
    }

    fn refuses(self, frame: &[u8]) -> bool
        ensures { result ≡ refuses frame.now self }
    {
        opcode_of(frame) == FEATURE_ABORT
            && receiver(frame) == self.initiator
            && byte_at(frame, 2) == self.opcode
    }

    // Whether more than five seconds have passed by an instant.
    fn is_past(self, begin: u64) -> bool
        ensures { result ≡ is_past begin self }
    {
        self.since.saturating_add(PATIENCE) < begin
    }

    /// Whether a frame answers it, whose first attempt began then.
    pub fn is_answer(self, begin: u64, frame: &[u8]) -> bool
        ensures { result ≡ is_answer begin frame.now self }
    {
        if self.is_past(begin) || frame.len() < 2 || sender(frame) != self.destination {
            return false;
        }
        (is_opcode(opcode_of(frame), self.answer) && self.reaches(frame)) || self.refuses(frame)
    }

    /// Whether more than a second has passed by an instant.
    pub fn is_late(self, begin: u64) -> bool
        ensures { result ≡ is_late begin self }
    {
        self.since.saturating_add(ANSWER) < begin
    }

    /// How long it had waited by an instant, in microseconds.
    pub fn waited(self, begin: u64) -> u64
        ensures { result ≡ waited begin self }
    {
        begin.saturating_sub(self.since)
    }

    fn asks_again(self, frame: &[u8]) -> bool
        ensures { result ≡ asks_again frame.now self }
    {
        frame.len() >= 2
            && sender(frame) == self.initiator
            && receiver(frame) == self.destination
            && opcode_of(frame) == self.opcode
    }

    /// Whether it stays without an answer: five seconds have passed by an instant, or more than one, and it is asked again.
    pub fn is_given_up(self, begin: u64, frame: &[u8]) -> bool
        ensures { result ≡ is_given_up begin frame.now self }
    {
        self.is_past(begin) || (self.is_late(begin) && self.asks_again(frame))
    }

    fn is_over(self, first: u64, sent: &[u8], begin: u64, frame: &[u8]) -> bool
        ensures { result ≡ is_over first sent.now begin frame.now self }
    {
        self.is_answer(first, sent) || self.is_given_up(begin, frame)
    }
}

fn push_unless(over: bool, request: Request, kept: &mut Waiting)
    requires { length kept.old.items + 1 ≤ 16 }
    ensures { kept.new.items ≡ kept.old.items ++ unless_over over request }
{
    if over {
        return;
    }
    kept.push(request);
}

fn push_waiting(
    first: u64,
    sent: &[u8],
    begin: u64,
    frame: &[u8],
    waiting: &[Request],
    kept: &mut Waiting,
)
    requires { length kept.old.items + length waiting.now ≤ 16 }
    ensures { kept.new.items ≡ kept.old.items ++ left_waiting first sent.now begin frame.now waiting.now }
{
    let [request, waiting @ ..] = waiting else {
        return;
    };
    push_unless(request.is_over(first, sent, begin, frame), *request, kept);
    push_waiting(first, sent, begin, frame, waiting, kept);
}

fn push_request(request: Option<Request>, waiting: &mut Waiting)
    ensures { waiting.new.items ≡ with_request request waiting.old.items }
{
    let Some(request) = request else {
        return;
    };
    if waiting.is_full() {
        return;
    }
    waiting.push(request);
}

/// The requests that wait after a reading from `begin` to `at`, which delivered this frame, or none, and of which that one was sent,
/// with a first attempt at `first`.
pub fn after_frame(
    first: u64,
    sent: &[u8],
    begin: u64,
    at: u64,
    frame: &[u8],
    waiting: &[Request],
) -> Waiting
    requires { length waiting.now ≤ 16 }
    ensures { result.items ≡ after_frame first sent.now begin at frame.now waiting.now }
{
    let mut kept = Waiting::new();
    push_waiting(first, sent, begin, frame, waiting, &mut kept);
    push_request(request_of(frame, at), &mut kept);
    kept
}
