//! The least, greatest and mean of widths.
ghost use Rattle.std.specs.Prelude.{◌≡◌, ◌+◌, ◌-◌, ◌<◌, length, min};
ghost use Rattle.audit_widths.specs.Spreads.{counts, is_start, no_widths, total_to, width_to, with_low, with_slot, with_slots, with_some, with_total, with_width};

use crate::low::Low;
use crate::misfit::{is_total, slot_bit};
use line_frames::Ending;

/// What is low for as long is nearer to a start bit, low for 3,700, than to a 0, low for 1,500 (CEC 5.2.1, 5.2.2), in
/// microseconds.
const NEAR_START: u64 = 2_600;

/// The least and greatest of widths, their count and their sum, in microseconds. Of no width all are 0.
#[derive(Clone, Copy, Debug, PartialEq, Eq)]
pub struct Spread {
    pub count: u64,
    pub sum: u64,
    pub least: u64,
    pub greatest: u64,
}

/// The widths of the start bits and of the slots of readings.
#[derive(Clone, Copy, Debug, PartialEq, Eq)]
pub struct Widths {
    /// Start bits, from the fall to the rise: where a reading begins with a low stretch of 2,600 or more.
    pub start_low: Spread,
    /// Start bits, from the fall to that of the first slot.
    pub start_total: Spread,
    /// Slots that were read 1, from the fall to the rise.
    pub one_low: Spread,
    /// Slots that were read 0, from the fall to the rise.
    pub zero_low: Spread,
    /// Slots, from the fall to the next one.
    pub total: Spread,
}

impl Spread {
    /// Of no width.
    pub const NONE: Spread = Spread {
        count: 0,
        sum: 0,
        least: 0,
        greatest: 0,
    };

    fn with(self, width: u64) -> Spread
        ensures { result ≡ with_width width self }
    {
        let is_first = self.count == 0;
        Spread {
            count: self.count.saturating_add(1),
            sum: self.sum.saturating_add(width),
            least: if is_first {
                width
            } else {
                self.least.min(width)
            },
            greatest: if is_first {
                width
            } else {
                self.greatest.max(width)
            },
        }
    }

    fn with_some(self, width: Option<u64>) -> Spread
        ensures { result ≡ with_some width self }
    {
        match width {
            None => self,
            Some(width) => self.with(width),
        }
    }
}

fn width_to(fall: u64, at: Option<u64>) -> Option<u64>
    ensures { result ≡ width_to fall at }
{
    match at {
        None => None,
        Some(at) => Some(at.saturating_sub(fall)),
    }
}

fn total_to(ending: Ending, last: u64, slot: u64, fall: u64, next: Option<u64>) -> Option<u64>
    ensures { result ≡ total_to ending last slot fall next }
{
    match next {
        None => None,
        Some(next) => {
            let total = next.saturating_sub(fall);
            if is_total(ending, last, slot, total) {
                Some(total)
            } else {
                None
            }
        }
    }
}

fn is_start(low: Low) -> bool
    ensures { result ≡ is_start low.fall low.rise }
{
    match low.rise {
        None => false,
        Some(rise) => rise.saturating_sub(low.fall) >= NEAR_START,
    }
}

fn counts(slot: u64, low: Low) -> bool
    ensures { result ≡ counts slot low }
{
    slot != 0 || is_start(low)
}

impl Widths {
    /// Of no reading.
    pub const NONE: Widths = Widths {
        start_low: Spread::NONE,
        start_total: Spread::NONE,
        one_low: Spread::NONE,
        zero_low: Spread::NONE,
        total: Spread::NONE,
    };

    /// Of no reading.
    pub fn new() -> Widths
        ensures { result ≡ no_widths }
    {
        Widths::NONE
    }

    fn add_low(&mut self, bits: &[bool], slot: u64, width: Option<u64>)
        requires { slot < 1000 }
        ensures { self.new ≡ with_low bits.now slot width self.old }
    {
        if slot == 0 {
            self.start_low = self.start_low.with_some(width);
        } else if slot_bit(bits, slot) {
            self.one_low = self.one_low.with_some(width);
        } else {
            self.zero_low = self.zero_low.with_some(width);
        }
    }

    fn add_total(&mut self, slot: u64, width: Option<u64>)
        ensures { self.new ≡ with_total slot width self.old }
    {
        if slot == 0 {
            self.start_total = self.start_total.with_some(width);
        } else {
            self.total = self.total.with_some(width);
        }
    }

    // Adds a slot's widths; those of a start bit where it is low for as long as one.
    fn add_slot(&mut self, ending: Ending, bits: &[bool], slot: u64, low: Low)
        requires { slot < 1000 }
        ensures { self.new ≡ with_slot ending bits.now slot low self.old }
    {
        if !counts(slot, low) {
            return;
        }
        self.add_low(bits, slot, width_to(low.fall, low.rise));
        self.add_total(
            slot,
            total_to(ending, bits.len() as u64, slot, low.fall, low.next),
        );
    }

    /// Adds the widths of the slots from one on, of a reading that ended so after these bits. Slot 0 is the start bit.
    pub fn add(&mut self, ending: Ending, bits: &[bool], slot: u64, lows: &[Low])
        requires { slot + length lows.now < 1000 }
        ensures { self.new ≡ with_slots ending bits.now slot lows.now self.old }
    {
        let [low, lows @ ..] = lows else {
            return;
        };
        self.add_slot(ending, bits, slot, *low);
        self.add(ending, bits, slot + 1, lows);
    }
}
