//! A receiver of the line, which goes from edge to edge and from wake to wake.
ghost use Rattle.std.specs.Prelude.{◌≡◌, ◌≤◌, ◌<◌, length, IfSome, option_map};
ghost use Rattle.line_wave.specs.Bounds.{latest_heard};
ghost use Rattle.line_frames.specs.Bits.{most_bits};

mod parts;
mod wide;

use crate::reading::{copied_bits, ending_of};
use crate::times::{SAMPLE, STANDARD, Windows};
use arrayvec::ArrayVec;
use line_frames::{Ending, MOST_BITS, Reading};
pub use parts::ReceiverParts;
pub use wide::WideReceiver;

/// Where a receiver stands.
#[derive(Clone, Copy, Debug, PartialEq, Eq)]
pub enum Standing<'a> {
    /// Outside a reading, with the line high.
    Idle,
    /// In the start bit, before its rise.
    StartLow,
    /// After the start bit's rise.
    StartHigh,
    /// In a slot, counted from 1, with the bits that were sampled so far.
    Slot(usize, &'a [bool]),
    /// Outside a reading, with the line still low.
    WaitHigh,
}

/// What an instant adds to the reading that runs.
#[derive(Clone, Copy, Debug, PartialEq, Eq)]
pub enum Told {
    Nothing,
    /// The bit of this slot was sampled, and the reading goes on.
    Bit(usize, bool),
    /// This bit was sampled, and with it the reading ended, complete or too long.
    Last(bool, Ending),
    /// The reading ended so.
    Ended(Ending),
}

/// Where a reading has come.
#[derive(Clone, Copy, Debug, PartialEq, Eq)]
enum ReceiverState {
    /// No reading runs.
    Rest,
    StartLow,
    StartHigh,
    /// In a slot, before its sample.
    Unsampled,
    /// In a slot, after its sample.
    Sampled,
}

/// A receiver of the line (the standard's follower is one). It is given each fall and each rise, and then ticks at that
/// instant; between edges it ticks when it wakes. Outside a reading it keeps nothing but whether the line is low.
#[derive(Debug, Drop)]
pub struct Receiver {
    // whether the line was low at the last tick, and is low now
    was_low: bool,
    is_low: bool,
    place: ReceiverState,
    // the fall of the reading that runs, or 0
    begin: u64,
    // the fall of the slot, or 0
    fall: u64,
    // the bits sampled so far
    bits: ArrayVec<bool, MOST_BITS>,
    ghost begun: { begin ≤ latest_heard },
    ghost fallen: { fall ≤ latest_heard },
    ghost room: { length bits.items < most_bits },
}

impl Receiver {
    ghost use Rattle.std.specs.Prelude.{ℕ, Bool, true, false};
    ghost use Rattle.line_reading.specs.Kept.{standing_by};
    ghost use Rattle.line_reading.specs.Follows.{StoodBefore, StandsOn, Follows, FollowsAgain, ReportsOnce, WakesFewer, WakesSo, ShowsStanding, standing_by_code};
    ghost use Rattle.line_reading.specs.Reading.{last_ending};
    ghost use Rattle.line_reading.specs.Reports.{ends_with, listed_as, running_by};
    ghost use Rattle.line_frames.specs.declared.Ending.TheVariants.{Open};
    ghost use Rattle.line_reading.specs.Hears.{heard_by, rest, starts, wake_of, hear_in, hear_in_by, hear_at_by, hear_start_low_by, hear_start_high_by, hear_unsampled, hear_sampled_by, sample_as, wake_of_by, reported_so, due_in};
    ghost use Rattle.line_reading.specs.Windows.{AreWindows};

    /// A receiver that has heard nothing of its line yet. It stands on the line that is never low, at each instant.
    pub fn new() -> Self
        ensures before { (low : ℕ → Bool) → StoodBefore result low 0 }
        ensures empty { (t : ℕ) → StandsOn result (λ u. false) t }
        ensures rests { (heard_by result ≡ rest) × (result.was_low ≡ false) × (result.is_low ≡ false) }
    {
        Receiver {
            was_low: false,
            is_low: false,
            place: ReceiverState::Rest,
            begin: 0,
            fall: 0,
            bits: ArrayVec::new(),
        }
    }

    /// The same receiver again.
    pub fn copy(&self) -> Self
        ensures { result ≡ self.now }
    {
        Receiver {
            was_low: self.was_low,
            is_low: self.is_low,
            place: self.place,
            begin: self.begin,
            fall: self.fall,
            bits: copied_bits(self.bits.as_slice()),
        }
    }

    // The reading is over.
    fn end(&mut self)
        ensures keeps { heard_by self.new ≡ rest }
        ensures level { (self.new.was_low ≡ self.old.was_low) × (self.new.is_low ≡ self.old.is_low) }
    {
        self.place = ReceiverState::Rest;
        self.begin = 0;
        self.fall = 0;
        self.bits.clear();
    }

    // A reading begins where the line falls, and else none runs.
    fn start(&mut self, t: u64, falls: bool)
        requires early { t ≤ latest_heard }
        ensures keeps { heard_by self.new ≡ starts t falls }
        ensures level { (self.new.was_low ≡ self.old.was_low) × (self.new.is_low ≡ self.old.is_low) }
    {
        self.end();
        if falls {
            self.place = ReceiverState::StartLow;
            self.begin = t;
        }
    }

    fn hear_start_low(&mut self, windows: &Windows, t: u64, falls: bool, rises: bool) -> Told
        requires early { t ≤ latest_heard }
        requires are { AreWindows windows.now }
        ensures heard { reported_so (heard_by self.new) result ≡ hear_start_low_by windows.now t falls rises (heard_by self.old) }
        ensures level { (self.new.was_low ≡ self.old.was_low) × (self.new.is_low ≡ self.old.is_low) }
    {
        if t > self.begin + windows.start_low.most {
            self.start(t, falls);
            return Told::Ended(Ending::BadStart);
        }
        if rises && t < self.begin + windows.start_low.least {
            self.end();
            return Told::Ended(Ending::BadStart);
        }
        if rises {
            self.place = ReceiverState::StartHigh;
        }
        Told::Nothing
    }

    fn hear_start_high(&mut self, windows: &Windows, t: u64, falls: bool) -> Told
        requires early { t ≤ latest_heard }
        requires are { AreWindows windows.now }
        ensures heard { reported_so (heard_by self.new) result ≡ hear_start_high_by windows.now t falls (heard_by self.old) }
        ensures level { (self.new.was_low ≡ self.old.was_low) × (self.new.is_low ≡ self.old.is_low) }
    {
        if t > self.begin + windows.start_total.most {
            self.start(t, falls);
            return Told::Ended(Ending::BadStart);
        }
        if falls && t < self.begin + windows.start_total.least {
            self.end();
            return Told::Ended(Ending::BadStart);
        }
        if falls {
            self.place = ReceiverState::Unsampled;
            self.fall = t;
        }
        Told::Nothing
    }

    // The sample of this slot has come.
    fn sample(&mut self, value: bool) -> Told
        ensures heard { reported_so (heard_by self.new) result ≡ sample_as (last_ending self.old.bits.items) value (heard_by self.old) }
        ensures level { (self.new.was_low ≡ self.old.was_low) × (self.new.is_low ≡ self.old.is_low) }
    {
        if let Some(ending) = ending_of(self.bits.as_slice()) {
            self.end();
            return Told::Last(value, ending);
        }
        self.place = ReceiverState::Sampled;
        self.bits.push(value);
        Told::Bit(self.bits.len(), value)
    }

    fn hear_unsampled(&mut self, t: u64, falls: bool, is_low: bool) -> Told
        ensures heard { reported_so (heard_by self.new) result ≡ hear_unsampled t falls is_low (heard_by self.old) }
        ensures level { (self.new.was_low ≡ self.old.was_low) × (self.new.is_low ≡ self.old.is_low) }
    {
        if falls {
            self.end();
            Told::Ended(Ending::Short)
        } else if t == self.fall + SAMPLE {
            self.sample(!is_low)
        } else {
            Told::Nothing
        }
    }

    fn hear_sampled(&mut self, windows: &Windows, t: u64, falls: bool) -> Told
        requires early { t ≤ latest_heard }
        requires are { AreWindows windows.now }
        ensures heard { reported_so (heard_by self.new) result ≡ hear_sampled_by windows.now t falls (heard_by self.old) }
        ensures level { (self.new.was_low ≡ self.old.was_low) × (self.new.is_low ≡ self.old.is_low) }
    {
        if t > self.fall + windows.bit_total.most {
            self.start(t, falls);
            return Told::Ended(Ending::Silent);
        }
        if falls && t < self.fall + windows.bit_total.least {
            self.end();
            return Told::Ended(Ending::Short);
        }
        if falls {
            self.place = ReceiverState::Unsampled;
            self.fall = t;
        }
        Told::Nothing
    }

    // Microsecond `t` has come, in which the line falls or rises.
    fn hear(&mut self, windows: &Windows, t: u64, falls: bool, rises: bool, is_low: bool) -> Told
        requires early { t ≤ latest_heard }
        requires are { AreWindows windows.now }
        ensures heard { reported_so (heard_by self.new) result ≡ hear_at_by windows.now self.old.place t falls rises is_low (heard_by self.old) }
        ensures level { (self.new.was_low ≡ self.old.was_low) × (self.new.is_low ≡ self.old.is_low) }
    {
        match self.place {
            ReceiverState::Rest => {
                self.start(t, falls);
                Told::Nothing
            }
            ReceiverState::StartLow => self.hear_start_low(windows, t, falls, rises),
            ReceiverState::StartHigh => self.hear_start_high(windows, t, falls),
            ReceiverState::Unsampled => self.hear_unsampled(t, falls, is_low),
            ReceiverState::Sampled => self.hear_sampled(windows, t, falls),
        }
    }

    /// The line falls at `t`.
    pub fn fall(&mut self, _t: u64)
        ensures keeps { heard_by self.new ≡ heard_by self.old }
        ensures notes { (self.new.was_low ≡ self.old.was_low) × (self.new.is_low ≡ true) }
    {
        self.is_low = true;
    }

    /// The line rises at `t`.
    pub fn rise(&mut self, _t: u64)
        ensures keeps { heard_by self.new ≡ heard_by self.old }
        ensures notes { (self.new.was_low ≡ self.old.was_low) × (self.new.is_low ≡ false) }
    {
        self.is_low = false;
    }

    /// Microsecond `t` has come, in which the line falls or rises, or at which the receiver wakes. Returns what that
    /// instant adds: a sample, an ending, or both. The receiver then stands on each line that goes on so.
    #[tactic(auto, using(crate::proofs::Standard::standard_are))]
    pub fn tick(&mut self, t: u64) -> Told
        requires early { t ≤ latest_heard }
        ensures heard { reported_so (heard_by self.new) result ≡ hear_in t self.old.was_low self.old.is_low (heard_by self.old) }
        ensures level { (self.new.was_low ≡ self.old.is_low) × (self.new.is_low ≡ self.old.is_low) }
        ensures follows { Follows self.old t result self.new }
        ensures again { FollowsAgain self.old t result self.new }
        ensures once { ReportsOnce self.old t }
        ensures fewer { WakesFewer self.old t self.new }
    {
        self.step(&STANDARD, t)
    }

    // The same with these windows.
    fn step(&mut self, windows: &Windows, t: u64) -> Told
        requires early { t ≤ latest_heard }
        requires are { AreWindows windows.now }
        ensures heard { reported_so (heard_by self.new) result ≡ hear_in_by windows.now t self.old.was_low self.old.is_low (heard_by self.old) }
        ensures level { (self.new.was_low ≡ self.old.is_low) × (self.new.is_low ≡ self.old.is_low) }
    {
        let falls = self.is_low && !self.was_low;
        let rises = !self.is_low && self.was_low;
        self.was_low = self.is_low;
        self.hear(windows, t, falls, rises, self.is_low)
    }

    /// The next instant that adds something, where no edge comes first.
    #[tactic(auto, using(crate::proofs::Standard::standard_are))]
    pub fn wakes_at(&self) -> Option<u64>
        ensures wakes { WakesSo self.now result }
        ensures exact { result ≡ wake_of (heard_by self.now) }
    {
        self.wake(&STANDARD)
    }

    /// Whether the reading that runs ends at `t` where the line stays high until then, since the next fall did not come in time
    /// (CEC 5.2).
    pub fn is_due(&self, t: u64) -> bool
        ensures { result ≡ due_in self.now.place self.now.begin self.now.fall t }
    {
        match self.place {
            ReceiverState::StartHigh => t == self.begin + (STANDARD.start_total.most + 1),
            ReceiverState::Sampled => t == self.fall + (STANDARD.bit_total.most + 1),
            ReceiverState::Rest | ReceiverState::StartLow | ReceiverState::Unsampled => false,
        }
    }

    // The same with these windows.
    fn wake(&self, windows: &Windows) -> Option<u64>
        requires are { AreWindows windows.now }
        ensures { result ≡ wake_of_by windows.now (heard_by self.now) }
    {
        match self.place {
            ReceiverState::Rest => None,
            ReceiverState::StartLow => Some(self.begin + (windows.start_low.most + 1)),
            ReceiverState::StartHigh => Some(self.begin + (windows.start_total.most + 1)),
            ReceiverState::Unsampled => Some(self.fall + SAMPLE),
            ReceiverState::Sampled => Some(self.fall + (windows.bit_total.most + 1)),
        }
    }

    /// The reading that runs, if one does, as far as it was heard: it is open at `t`.
    pub fn running(&self, t: u64) -> Option<Reading>
        ensures kept { option_map listed_as result ≡ running_by (heard_by self.now) t }
        ensures room { IfSome result (λ reading. length reading.bits.items < most_bits) }
    {
        match self.place {
            ReceiverState::Rest => None,
            ReceiverState::StartLow
            | ReceiverState::StartHigh
            | ReceiverState::Unsampled
            | ReceiverState::Sampled => { Some(self.heard(t)) }
        }
    }

    // What was heard of the reading that runs.
    fn heard(&self, t: u64) -> Reading
        ensures kept { listed_as result ≡ ends_with self.now.begin t Open self.now.bits.items }
        ensures room { length result.bits.items < most_bits }
    {
        let mut bits = ArrayVec::new();
        let _ = bits.try_extend_from_slice(self.bits.as_slice());
        Reading {
            begin: self.begin,
            at: t,
            ending: Ending::Open,
            bits,
        }
    }

    /// Where the receiver stands.
    pub fn standing(&self) -> Standing<'_>
        ensures { ShowsStanding self.now (standing_by_code result) }
    {
        self.shown()
    }

    fn shown(&self) -> Standing<'_>
        ensures { standing_by_code result ≡ standing_by (heard_by self.now) self.now.was_low }
    {
        match self.place {
            ReceiverState::Rest => {
                if self.was_low {
                    Standing::WaitHigh
                } else {
                    Standing::Idle
                }
            }
            ReceiverState::StartLow => Standing::StartLow,
            ReceiverState::StartHigh => Standing::StartHigh,
            ReceiverState::Unsampled => Standing::Slot(self.bits.len() + 1, self.bits.as_slice()),
            ReceiverState::Sampled => Standing::Slot(self.bits.len(), self.bits.as_slice()),
        }
    }
}
