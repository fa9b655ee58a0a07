//! The signal free time before a frame (CEC 9.1).
ghost use Rattle.std.specs.Prelude.{◌≡◌, ◌≤◌, length};
ghost use Rattle.line_reading.specs.Reports.{listed_as};
ghost use Rattle.audit_remarks.specs.Endings.{is_nothing};
ghost use Rattle.audit_remarks.specs.Free.{before_of, due_after, final_bit, final_by, free_before, free_due, free_taken, is_bad_start, is_known, is_over, last_fall, no_previous, previous_with, taken_by, time_due, too_soon};

use crate::header::{
    HEADER, initiator_of, is_complete, is_delivered, seeks_address, stops_untaken,
};
use audit_widths::Low;
use line_frames::{Addr, Ending, FreeTime, Reading};

/// Who sent a frame.
#[derive(Clone, Copy, Debug, PartialEq, Eq)]
pub enum EarlierSender {
    /// There was none.
    Nothing,
    /// Its sender is not known.
    Somebody,
    /// This initiator, and whether the frame was taken.
    Frame(u8, bool),
}

/// The frame before a reading.
#[derive(Clone, Copy, Debug, PartialEq, Eq)]
pub struct Previous {
    frame: EarlierSender,
    // where its final bit began
    final_bit: u64,
    // whether it ended where it was to
    whole: bool,
}

/// A frame that came too soon: how long the line was free, and was to be, from the start of the final bit before it.
#[derive(Clone, Copy, Debug, PartialEq, Eq)]
pub struct TooSoon {
    pub free: u64,
    pub due: u64,
}

/// The free time before a frame: how long the line was free, from the start of the final bit before it, and which time was due.
#[derive(Clone, Copy, Debug, PartialEq, Eq)]
pub struct FreeTaken {
    pub free: u64,
    pub due: FreeTime,
}

fn is_known(bits: &[bool]) -> bool
    ensures { result ≡ is_known bits.now }
{
    bits.len() >= HEADER && !seeks_address(bits) && initiator_of(bits) != Addr::BROADCAST
}

fn due_after(initiator: u8, taken: bool, next: u8, again: bool) -> FreeTime
    ensures { result ≡ due_after initiator taken next again }
{
    if initiator == next {
        if taken {
            FreeTime::PresentInitiator
        } else {
            FreeTime::Retry
        }
    } else if again || initiator < next {
        FreeTime::Retry
    } else {
        FreeTime::NewInitiator
    }
}

/// Whether a reading ended as a bad start.
pub fn is_bad_start(ending: Ending) -> bool
    ensures { result ≡ is_bad_start ending }
{
    match ending {
        Ending::BadStart => true,
        Ending::Complete | Ending::Short | Ending::Silent | Ending::Long | Ending::Open => false,
    }
}

fn last_fall(begin: u64, lows: &[Low]) -> u64
    ensures { result ≡ last_fall begin lows.now }
{
    let [low, lows @ ..] = lows else {
        return begin;
    };
    last_fall(low.fall, lows)
}

fn final_by(ending: Ending, at: u64, last: u64) -> u64
    ensures { result ≡ final_by ending at last }
{
    match ending {
        Ending::Short => at,
        Ending::Complete | Ending::Silent | Ending::BadStart | Ending::Long | Ending::Open => last,
    }
}

// Whether a frame ended where it was to: what follows is no rest of it.
fn is_over(ending: Ending, bits: &[bool]) -> bool
    requires { length bits.now ≤ 160 }
    ensures { result ≡ is_over ending bits.now }
{
    is_complete(ending) || stops_untaken(ending, bits)
}

fn final_bit(reading: &Reading, lows: &[Low]) -> u64
    ensures { result ≡ final_bit (listed_as reading.now) lows.now }
{
    final_by(reading.ending, reading.at, last_fall(reading.begin, lows))
}

impl EarlierSender {
    fn free_due(self, bits: &[bool], again: bool) -> u64
        ensures { result ≡ free_due self bits.now again }
    {
        match self {
            EarlierSender::Nothing => 0,
            EarlierSender::Somebody => FreeTime::Retry.micros(),
            EarlierSender::Frame(initiator, taken) => {
                if !is_known(bits) {
                    return FreeTime::Retry.micros();
                }
                due_after(initiator, taken, initiator_of(bits), again).micros()
            }
        }
    }

    fn time_due(self, bits: &[bool], again: bool) -> Option<FreeTime>
        ensures { result ≡ time_due self bits.now again }
    {
        match self {
            EarlierSender::Nothing => None,
            EarlierSender::Somebody => Some(FreeTime::Retry),
            EarlierSender::Frame(initiator, taken) => {
                if !is_known(bits) {
                    return Some(FreeTime::Retry);
                }
                Some(due_after(initiator, taken, initiator_of(bits), again))
            }
        }
    }

    fn of(ending: Ending, bits: &[bool]) -> Self
        requires { length bits.now ≤ 160 }
        ensures { result ≡ before_of ending bits.now }
    {
        if is_known(bits) {
            EarlierSender::Frame(initiator_of(bits), is_delivered(ending, bits))
        } else {
            EarlierSender::Somebody
        }
    }
}

fn taken_by(free: u64, due: Option<FreeTime>) -> Option<FreeTaken>
    ensures { result ≡ taken_by free due }
{
    match due {
        None => None,
        Some(due) => Some(FreeTaken { free, due }),
    }
}

impl Previous {
    /// Of the first reading.
    pub fn new() -> Self
        ensures { result ≡ no_previous }
    {
        Previous {
            frame: EarlierSender::Nothing,
            final_bit: 0,
            whole: false,
        }
    }

    /// Whether no frame was before it.
    pub(crate) fn is_nothing(self) -> bool
        ensures { result ≡ is_nothing self.frame }
    {
        match self.frame {
            EarlierSender::Nothing => true,
            EarlierSender::Somebody | EarlierSender::Frame(_, _) => false,
        }
    }

    /// Whether it ended where it was to.
    pub(crate) fn is_whole(self) -> bool
        ensures { result ≡ self.whole }
    {
        self.whole
    }

    /// How long the line was free before an instant: since the start of the final bit.
    pub fn free_before(self, begin: u64) -> u64
        ensures { result ≡ free_before self begin }
    {
        begin.saturating_sub(self.final_bit)
    }

    /// Whether a reading comes too soon after this. Its initiator tries again where its own last frame was not taken.
    pub fn too_soon(self, reading: &Reading, again: bool) -> Option<TooSoon>
        ensures { result ≡ too_soon self (listed_as reading.now) again }
    {
        let free = self.free_before(reading.begin);
        let due = self.frame.free_due(&reading.bits, again);
        if is_bad_start(reading.ending) || free >= due {
            return None;
        }
        Some(TooSoon { free, due })
    }

    /// The free time before a reading, also where it was long enough. Of a bad start, and where no frame was before it, there is none.
    pub fn taken(self, reading: &Reading, again: bool) -> Option<FreeTaken>
        ensures { result ≡ free_taken self (listed_as reading.now) again }
    {
        if is_bad_start(reading.ending) {
            return None;
        }
        let due = self.frame.time_due(&reading.bits, again);
        taken_by(self.free_before(reading.begin), due)
    }

    /// What a reading of these low stretches leaves for the next one.
    pub fn with(self, reading: &Reading, lows: &[Low]) -> Self
        ensures { result ≡ previous_with self (listed_as reading.now) lows.now }
    {
        if is_bad_start(reading.ending) {
            return self;
        }
        Previous {
            frame: EarlierSender::of(reading.ending, &reading.bits),
            final_bit: final_bit(reading, lows),
            whole: is_over(reading.ending, &reading.bits),
        }
    }
}
