//! Retransmission: attempts at a frame (CEC 7.1).
ghost use Rattle.std.specs.Prelude.{◌≡◌, ◌+◌, ◌<◌, ◌≤◌, length};
ghost use Rattle.line_reading.specs.Reports.{listed_as};
ghost use Rattle.audit_remarks.specs.Attempts.{after_attempt, attempt_after, attempt_of, failure_of, first_after, first_of, is_untaken, no_attempts, repeats, same_from, since_with, tries_again};

use crate::free::is_bad_start;
use crate::header::{
    BLOCK, HEADER, failed_block, initiator_of, is_delivered, is_poll, is_to_all, seeks_address,
};
use arrayvec::ArrayVec;
use line_frames::{FreeTime, Reading};

/// The last frame of an initiator: where it began, its bits, whether it was taken, which attempt it was, and where the first
/// one began.
#[derive(Debug, Drop)]
pub struct LastFrame {
    begin: u64,
    bits: ArrayVec<bool, 160>,
    taken: bool,
    attempt: u64,
    first: u64,
}

/// The last frame of each initiator.
#[derive(Debug, Drop)]
pub struct Attempts {
    // where the frames began between which the line was never free for five bit periods
    since: u64,
    last: [Option<LastFrame>; 16],
}

/// A block that nobody acknowledged, or somebody refused.
#[derive(Clone, Copy, Debug, PartialEq, Eq)]
pub struct Failure {
    /// The block, from 1, which is the header.
    pub block: usize,
    /// Which attempt at the frame it is, from 1.
    pub attempt: u64,
    /// Whether it was refused, as frames to all are.
    pub refused: bool,
}

// Whether two frames have the same bits of their initiator, from a slot on, as far as both were read.
fn same_from(slot: usize, earlier: &[bool], bits: &[bool]) -> bool
    requires { slot + length earlier.now < 1000 }
    ensures { result ≡ same_from slot earlier.now bits.now }
{
    let [one, earlier @ ..] = earlier else {
        return true;
    };
    let [other, bits @ ..] = bits else {
        return true;
    };
    (slot % BLOCK == BLOCK - 1 || *one == *other) && same_from(slot + 1, earlier, bits)
}

fn repeats(earlier: &[bool], bits: &[bool]) -> bool
    requires { length earlier.now < 1000 }
    ensures { result ≡ repeats earlier.now bits.now }
{
    !(is_poll(earlier) || is_poll(bits)) && same_from(0, earlier, bits)
}

fn attempt_after(since: u64, bits: &[bool], last: &Option<LastFrame>) -> u64
    ensures { result ≡ attempt_after since bits.now last.now }
{
    match last {
        None => 1,
        Some(earlier) => {
            if !earlier.taken && since <= earlier.begin && repeats(&earlier.bits, bits) {
                earlier.attempt.saturating_add(1)
            } else {
                1
            }
        }
    }
}

fn first_after(since: u64, begin: u64, bits: &[bool], last: &Option<LastFrame>) -> u64
    ensures { result ≡ first_after since begin bits.now last.now }
{
    match last {
        None => begin,
        Some(earlier) => {
            if !earlier.taken && since <= earlier.begin && repeats(&earlier.bits, bits) {
                earlier.first
            } else {
                begin
            }
        }
    }
}

fn is_untaken(last: &Option<LastFrame>) -> bool
    ensures { result ≡ is_untaken last.now }
{
    match last {
        None => false,
        Some(earlier) => !earlier.taken,
    }
}

fn copied(bits: &[bool]) -> ArrayVec<bool, 160>
    requires { length bits.now ≤ 160 }
    ensures { result.items ≡ bits.now }
{
    let mut copy = ArrayVec::new();
    let _ = copy.try_extend_from_slice(bits);
    copy
}

impl Attempts {
    /// Of no frame.
    pub fn new() -> Self
        ensures { result ≡ no_attempts }
    {
        Attempts {
            since: 0,
            last: [
                None, None, None, None, None, None, None, None, None, None, None, None, None, None,
                None, None,
            ],
        }
    }

    // Within a new initiator's free time nobody but an initiator that repeats its frame begins.
    fn since_with(&self, begin: u64, free: u64) -> u64
        ensures { result ≡ since_with self.now begin free }
    {
        if free < FreeTime::NewInitiator.micros() {
            self.since
        } else {
            begin
        }
    }

    fn attempt_of(&self, begin: u64, free: u64, bits: &[bool]) -> u64
        ensures { result ≡ attempt_of self.now begin free bits.now }
    {
        attempt_after(
            self.since_with(begin, free),
            bits,
            &self.last[initiator_of(bits) as usize],
        )
    }

    /// Where the first attempt began, of a reading that begins then, after the line was free for so long.
    pub fn first_of(&self, begin: u64, free: u64, bits: &[bool]) -> u64
        ensures { result ≡ first_of self.now begin free bits.now }
    {
        first_after(
            self.since_with(begin, free),
            begin,
            bits,
            &self.last[initiator_of(bits) as usize],
        )
    }

    /// Whether the last frame of a reading's initiator was not taken, so that it may try again.
    pub fn tries_again(&self, bits: &[bool]) -> bool
        ensures { result ≡ tries_again self.now bits.now }
    {
        is_untaken(&self.last[initiator_of(bits) as usize])
    }

    /// The block of a reading that failed, if one did. The reading began then, after the line was free for so long.
    pub fn failure_of(&self, begin: u64, free: u64, bits: &[bool]) -> Option<Failure>
        requires { length bits.now ≤ 160 }
        ensures { result ≡ failure_of self.now begin free bits.now }
    {
        if seeks_address(bits) {
            return None;
        }
        match failed_block(bits) {
            None => None,
            Some(block) => Some(Failure {
                block,
                attempt: self.attempt_of(begin, free, bits),
                refused: is_to_all(bits),
            }),
        }
    }

    /// A reading has come, after the line was free for so long.
    pub fn note(&mut self, reading: &Reading, free: u64)
        ensures { self.new ≡ after_attempt self.old (listed_as reading.now) free }
    {
        if is_bad_start(reading.ending) {
            return;
        }
        let attempt = self.attempt_of(reading.begin, free, &reading.bits);
        let first = self.first_of(reading.begin, free, &reading.bits);
        self.since = self.since_with(reading.begin, free);
        if reading.bits.len() < HEADER || seeks_address(&reading.bits) {
            return;
        }
        self.last[initiator_of(&reading.bits) as usize] = Some(LastFrame {
            begin: reading.begin,
            bits: copied(&reading.bits),
            taken: is_delivered(reading.ending, &reading.bits),
            attempt,
            first,
        });
    }
}
