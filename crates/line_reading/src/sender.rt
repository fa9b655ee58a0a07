//! A sender of one frame (the standard's initiator), at the nominal times (CEC 5.2) until it stops: where it loses
//! arbitration (CEC 9), at a block that is not acknowledged (CEC 6.1), or with the reading.
ghost use Rattle.std.specs.Prelude.{◌≡◌, ℕ, ◌+◌, ◌-◌, ◌<◌, ◌≤◌, Bool, false, length, slice_index_or};
ghost use Rattle.line_wave.specs.Bounds.{latest_heard};

mod parts;

use crate::receiver::Told;
use line_frames::Frame;
use line_wave::{FIRST_SLOT, LOW_OF_0, LOW_OF_1, SLOT, START_LOW};
pub use parts::SenderParts;

/// The slots of a block: its acknowledge slot is the last of them (CEC 6.1).
pub const BLOCK_SLOTS: usize = 10;

/// How far a sender has come.
#[derive(Clone, Copy, Debug, PartialEq, Eq)]
pub enum SenderState {
    Sending,
    /// It stopped at this slot: the line was read differently there, as where arbitration is lost (CEC 9), or the block was
    /// not acknowledged (CEC 6.1).
    Out(usize),
    /// It stopped when the reading ended.
    Stopped,
}

/// What a sender does from an instant on, if it hears nothing more: it pulls the line low before `rise`, and not from then on,
/// up to `until`.
#[derive(Clone, Copy, Debug, PartialEq, Eq)]
pub struct SenderPull {
    pub rise: u64,
    pub until: u64,
}

/// A sender of one frame. It goes by what a receiver reports of the reading that it began.
#[derive(Debug, Drop)]
pub struct Sender {
    frame: Frame,
    begin: u64,
    state: SenderState,
    // the last microsecond in which it pulls, once it has stopped, or 0
    last: u64,
    ghost begun: { begin ≤ latest_heard },
    ghost ended: { last ≤ latest_heard },
    ghost filled: { 0 < length frame },
}

impl Sender {
    ghost use Rattle.std.specs.Prelude.{◌&&◌, true, Option};
    ghost use Rattle.line_wave.specs.Line.{line_of};
    ghost use Rattle.line_wave.specs.Sender.{low_of, slot_stretches, sender_stretches};
    ghost use Rattle.line_frames.specs.Bits.{frame_bits};
    ghost use Rattle.line_reading.specs.Sending.{SenderStood, Hears, StopsAt, PullsSo, ShowsState, IsNextChange, RisesAt, pull_of, stopped_pull, may_pull};
    ghost use Rattle.line_reading.specs.Sends.{takes_all, is_out_there, after_reported};

    /// The same sender again.
    pub fn copy(&self) -> Self
        ensures { result ≡ self.now }
    {
        Sender {
            frame: self.frame.copy(),
            begin: self.begin,
            state: self.state,
            last: self.last,
        }
    }

    /// Begins to send a frame at `t`.
    pub fn begin(frame: Frame, t: u64) -> Self
        requires early { t ≤ latest_heard }
        ensures begins { (result.frame ≡ frame) × (result.begin ≡ t) }
        ensures stands { (low : ℕ → Bool) → SenderStood result low (t + 1) }
    {
        Sender {
            frame,
            begin: t,
            state: SenderState::Sending,
            last: 0,
        }
    }

    // How long the frame is low in a slot, counted from 1.
    fn low_in(&self, slot: usize) -> u64
        requires { 1 ≤ slot }
        ensures { result ≡ low_of (slice_index_or (frame_bits self.now.frame) (slot - 1) false) }
    {
        if self.sent_bit(slot) {
            LOW_OF_1
        } else {
            LOW_OF_0
        }
    }

    // Whether the frame is low so long after the first slot's fall, if nothing stops it.
    fn is_low_in_slots(&self, since: u64) -> bool
        requires early { since ≤ latest_heard }
        ensures { result ≡ line_of (slot_stretches 0 (frame_bits self.now.frame)) since }
    {
        let slot = (since / SLOT) as usize;
        if slot >= self.frame.slots() {
            return false;
        }
        since % SLOT < self.low_in(slot + 1)
    }

    // Whether the frame is low at `t`, if nothing stops it.
    fn is_laid(&self, t: u64) -> bool
        requires early { t ≤ latest_heard }
        ensures { result ≡ line_of (sender_stretches self.now.begin (frame_bits self.now.frame)) t }
    {
        if t < self.begin {
            false
        } else if t < self.begin + FIRST_SLOT {
            t < self.begin + START_LOW
        } else {
            self.is_low_in_slots(t - self.begin - FIRST_SLOT)
        }
    }

    fn may_pull(&self, t: u64) -> bool
        ensures { result ≡ may_pull self.now.state self.now.last t }
    {
        match self.state {
            SenderState::Sending => true,
            _ => t <= self.last,
        }
    }

    /// Whether it pulls the line low in microsecond `t`: the frame's stretches until it stops, then nothing.
    pub fn pulls(&self, t: u64) -> bool
        requires early { t ≤ latest_heard }
        ensures pull { result ≡ pull_of self.now t }
        ensures round { PullsSo self.now t result }
    {
        self.is_pulling(t)
    }

    fn is_pulling(&self, t: u64) -> bool
        requires early { t ≤ latest_heard }
        ensures { result ≡ pull_of self.now t }
    {
        self.is_laid(t) && self.may_pull(t)
    }

    // The same of the next instant at which that changes, where the first slot falls at `fall`.
    fn next_in_slots(&self, fall: u64, t: u64) -> Option<u64>
        requires from { fall ≤ t }
        requires early { t ≤ latest_heard }
        ensures { IsNextChange (line_of (slot_stretches fall (frame_bits self.now.frame))) t result }
    {
        let slot = ((t - fall) / SLOT) as usize;
        let within = (t - fall) % SLOT;
        if slot >= self.frame.slots() {
            return None;
        }
        let low = self.low_in(slot + 1);
        if within < low {
            Some(t - within + low)
        } else if slot + 1 < self.frame.slots() {
            Some(t - within + SLOT)
        } else {
            None
        }
    }

    // The first instant after `t` at which the frame's stretches begin or end.
    fn next_laid(&self, t: u64) -> Option<u64>
        requires early { t ≤ latest_heard }
        ensures { IsNextChange (line_of (sender_stretches self.now.begin (frame_bits self.now.frame))) t result }
    {
        if t < self.begin {
            Some(self.begin)
        } else if t < self.begin + START_LOW {
            Some(self.begin + START_LOW)
        } else if t < self.begin + FIRST_SLOT {
            Some(self.begin + FIRST_SLOT)
        } else {
            self.next_in_slots(self.begin + FIRST_SLOT, t)
        }
    }

    // The same, where it has stopped.
    fn next_stopped(&self, t: u64) -> Option<u64>
        requires early { t ≤ latest_heard }
        ensures { IsNextChange (stopped_pull self.now) t result }
    {
        if t > self.last {
            return None;
        }
        match self.next_laid(t) {
            Some(change) if change <= self.last => Some(change),
            _ => {
                if self.is_laid(t) {
                    Some(self.last + 1)
                } else {
                    None
                }
            }
        }
    }

    /// The first instant after `t` at which its pull changes, if it hears nothing more.
    pub fn next_change(&self, t: u64) -> Option<u64>
        requires early { t ≤ latest_heard }
        ensures { IsNextChange (pull_of self.now) t result }
    {
        match self.state {
            SenderState::Sending => self.next_laid(t),
            SenderState::Out(_) => self.next_stopped(t),
            SenderState::Stopped => self.next_stopped(t),
        }
    }

    // What the frame is laid to do in the slot of `t`, where the first slot falls at `fall`.
    fn slot_at(&self, fall: u64, t: u64) -> SenderPull
        requires from { fall ≤ t }
        requires early { t ≤ latest_heard }
        ensures later { t < result.until }
        ensures rises { RisesAt (line_of (slot_stretches fall (frame_bits self.now.frame))) t result.rise result.until }
    {
        let slot = ((t - fall) / SLOT) as usize;
        let from = t - (t - fall) % SLOT;
        let until = from + SLOT;
        if slot >= self.frame.slots() {
            return SenderPull { rise: from, until };
        }
        SenderPull {
            rise: from + self.low_in(slot + 1),
            until,
        }
    }

    // The same from the start bit on.
    fn laid_at(&self, t: u64) -> SenderPull
        requires early { t ≤ latest_heard }
        ensures later { t < result.until }
        ensures rises { RisesAt (line_of (sender_stretches self.now.begin (frame_bits self.now.frame))) t result.rise result.until }
    {
        if t < self.begin {
            SenderPull {
                rise: 0,
                until: self.begin,
            }
        } else if t < self.begin + FIRST_SLOT {
            SenderPull {
                rise: self.begin + START_LOW,
                until: self.begin + FIRST_SLOT,
            }
        } else {
            self.slot_at(self.begin + FIRST_SLOT, t)
        }
    }

    // The same of one that has stopped.
    fn stopped_at(&self, t: u64) -> SenderPull
        requires early { t ≤ latest_heard }
        ensures later { t < result.until }
        ensures rises { RisesAt (stopped_pull self.now) t result.rise result.until }
    {
        if t > self.last {
            return SenderPull {
                rise: 0,
                until: t + FIRST_SLOT,
            };
        }
        let laid = self.laid_at(t);
        SenderPull {
            rise: laid.rise.min(self.last + 1),
            until: laid.until,
        }
    }

    /// What it does from `t` on, if it hears nothing more: up to the end of the slot in which that is, or of its start bit.
    pub fn pull_at(&self, t: u64) -> SenderPull
        requires early { t ≤ latest_heard }
        ensures later { t < result.until }
        ensures rises { RisesAt (pull_of self.now) t result.rise result.until }
    {
        match self.state {
            SenderState::Sending => self.laid_at(t),
            SenderState::Out(_) => self.stopped_at(t),
            SenderState::Stopped => self.stopped_at(t),
        }
    }

    // The bit that the frame sends in a slot, counted from 1.
    fn sent_bit(&self, slot: usize) -> bool
        requires { 1 ≤ slot }
        ensures { result ≡ slice_index_or (frame_bits self.now.frame) (slot - 1) false }
    {
        if slot <= self.frame.slots() {
            self.frame.bit(slot)
        } else {
            false
        }
    }

    // Whether it stops at this bit: in an acknowledge slot 1 in a directly addressed block and 0 in a broadcast (CEC
    // 6.1), in another slot a bit that is not its own (arbitration, CEC 9).
    fn is_out_at(&self, slot: usize, value: bool) -> bool
        ensures { result ≡ is_out_there (frame_bits self.now.frame) slot value }
    {
        if slot % BLOCK_SLOTS == 0 {
            value != self.is_broadcast()
        } else {
            value != self.sent_bit(slot)
        }
    }

    // The frame is for everybody.
    fn is_broadcast(&self) -> bool
        ensures { result ≡ takes_all (frame_bits self.now.frame) }
    {
        self.sent_bit(5) && self.sent_bit(6) && self.sent_bit(7) && self.sent_bit(8)
    }

    fn stop(&mut self, state: SenderState, t: u64)
        requires early { t ≤ latest_heard }
        ensures keeps { (self.new.frame ≡ self.old.frame) × (self.new.begin ≡ self.old.begin) }
        ensures stops { (self.new.state ≡ state) × (self.new.last ≡ t) }
    {
        self.state = state;
        self.last = t;
    }

    /// What the receiver reported at `t` of the reading that this sender began.
    pub fn heard(&mut self, reported: Told, t: u64)
        requires early { t ≤ latest_heard }
        ensures keeps { (self.new.frame ≡ self.old.frame) × (self.new.begin ≡ self.old.begin) }
        ensures hears { Hears self.old reported t self.new }
        ensures stops { StopsAt self.old.state self.old.last t self.new.state self.new.last }
    {
        self.go_by(reported, t);
    }

    fn go_by(&mut self, reported: Told, t: u64)
        requires early { t ≤ latest_heard }
        ensures keeps { (self.new.frame ≡ self.old.frame) × (self.new.begin ≡ self.old.begin) }
        ensures state { self.new.state ≡ after_reported (frame_bits self.old.frame) self.old.state reported }
        ensures stops { StopsAt self.old.state self.old.last t self.new.state self.new.last }
    {
        if let SenderState::Sending = self.state {
            match reported {
                Told::Nothing => {}
                Told::Bit(slot, value) => {
                    if self.is_out_at(slot, value) {
                        self.stop(SenderState::Out(slot), t);
                    }
                }
                Told::Last(_, _) | Told::Ended(_) => self.stop(SenderState::Stopped, t),
            }
        }
    }

    /// How far it has come.
    pub fn state(&self) -> SenderState
        ensures reported { result ≡ self.now.state }
        ensures shows { ShowsState self.now result }
    {
        self.state
    }
}
