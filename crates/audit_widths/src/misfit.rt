//! Which widths are out of their windows.
ghost use Rattle.std.specs.Prelude.{◌≡◌, ◌-◌, ◌<◌};
ghost use Rattle.audit_widths.specs.Misfits.{drive_within, fits, has_all, is_total, last_of, last_slot, long_by, long_low, low_drive, low_misfit, low_window, misfit_of, slot_bit, total_misfit, total_window};

use crate::low::Low;
use line_frames::{Ending, FreeTime};
use line_reading::STANDARD;

/// The start bit's low period, and the whole of it (CEC 5.2.1).
const START_LOW: WidthWindow = WidthWindow {
    least: STANDARD.start_low.least,
    greatest: STANDARD.start_low.most,
};

const START_TOTAL: WidthWindow = WidthWindow {
    least: STANDARD.start_total.least,
    greatest: STANDARD.start_total.most,
};

/// The low periods of a 1 and of a 0, and the whole of a bit (CEC 5.2.2).
const ONE_LOW: WidthWindow = WidthWindow {
    least: 400,
    greatest: 800,
};

const ZERO_LOW: WidthWindow = WidthWindow {
    least: 1_300,
    greatest: 1_700,
};

const BIT_TOTAL: WidthWindow = WidthWindow {
    least: STANDARD.bit_total.least,
    greatest: STANDARD.bit_total.most,
};

/// The low drive with which a message is broken (CEC 7.4): 1.4 to 1.6 nominal bit periods.
pub const DRIVE: WidthWindow = WidthWindow {
    least: 3_360,
    greatest: 3_840,
};

/// A low drive that begins while the line is low, with what is low before it: at most a bit's low period (CEC 5.2.2, 7.4).
const DRIVE_WITHIN: WidthWindow = WidthWindow {
    least: 3_360,
    greatest: 5_540,
};

/// A width's window, its ends too, in microseconds.
#[derive(Clone, Copy, Debug, PartialEq, Eq)]
pub struct WidthWindow {
    pub least: u64,
    pub greatest: u64,
}

/// What of a slot is measured.
#[derive(Clone, Copy, Debug, PartialEq, Eq)]
pub enum SlotWidth {
    /// From its fall to its rise.
    Low,
    /// From its fall to the next one.
    Total,
}

/// A width that is out of its window.
#[derive(Clone, Copy, Debug, PartialEq, Eq)]
pub struct Misfit {
    /// The slot, from 1, or 0 for the start bit.
    pub slot: u64,
    pub kind: SlotWidth,
    /// The width, in microseconds.
    pub micros: u64,
    pub window: WidthWindow,
}

impl WidthWindow {
    /// Whether a width is within it.
    pub fn fits(self, width: u64) -> bool
        ensures { result ≡ fits self width }
    {
        self.least <= width && width <= self.greatest
    }
}

pub(crate) fn slot_bit(bits: &[bool], slot: u64) -> bool
    requires { (0 < slot) × (slot < 1000) }
    ensures { result ≡ slot_bit bits.now slot }
{
    bits.get((slot - 1) as usize).copied().unwrap_or(true)
}

fn low_window(bits: &[bool], slot: u64) -> WidthWindow
    requires { slot < 1000 }
    ensures { result ≡ low_window bits.now slot }
{
    if slot == 0 {
        START_LOW
    } else if slot_bit(bits, slot) {
        ONE_LOW
    } else {
        ZERO_LOW
    }
}

fn total_window(slot: u64) -> WidthWindow
    ensures { result ≡ total_window slot }
{
    if slot == 0 { START_TOTAL } else { BIT_TOTAL }
}

fn misfit_of(slot: u64, kind: SlotWidth, window: WidthWindow, width: u64) -> Option<Misfit>
    ensures { result ≡ misfit_of slot kind window width }
{
    if window.fits(width) {
        return None;
    }
    Some(Misfit {
        slot,
        kind,
        micros: width,
        window,
    })
}

/// Whether a slot of these bits is low for too short or too long. Slot 0 is the start bit.
pub fn low_misfit(bits: &[bool], slot: u64, low: Low) -> Option<Misfit>
    requires { slot < 1000 }
    ensures { result ≡ low_misfit bits.now slot low }
{
    match low.rise {
        None => None,
        Some(rise) => misfit_of(
            slot,
            SlotWidth::Low,
            low_window(bits, slot),
            rise.saturating_sub(low.fall),
        ),
    }
}

fn has_all(ending: Ending) -> bool
    ensures { result ≡ has_all ending }
{
    match ending {
        Ending::Complete | Ending::Long => true,
        Ending::Short | Ending::Silent | Ending::BadStart | Ending::Open => false,
    }
}

pub(crate) fn is_total(ending: Ending, last: u64, slot: u64, total: u64) -> bool
    ensures { result ≡ is_total ending last slot total }
{
    total < FreeTime::Retry.micros() && !(has_all(ending) && slot == last)
}

/// Whether the next fall comes too soon or too late after a slot's, of a reading that ended so after these bits. Nothing is
/// said of the last slot of a whole reading, nor of a fall that comes a signal free time later.
pub fn total_misfit(ending: Ending, bits: &[bool], slot: u64, low: Low) -> Option<Misfit>
    ensures { result ≡ total_misfit ending bits.now slot low }
{
    match low.next {
        None => None,
        Some(next) => {
            let total = next.saturating_sub(low.fall);
            if !is_total(ending, bits.len() as u64, slot, total) {
                return None;
            }
            misfit_of(slot, SlotWidth::Total, total_window(slot), total)
        }
    }
}

/// How long the line stayed low from the fall that ended a reading as too short, where that is longer than any bit: somebody
/// broke the message (CEC 7.4).
pub fn low_drive(ending: Ending, low: Low) -> Option<u64>
    ensures { result ≡ low_drive ending low }
{
    match (ending, low.rise) {
        (Ending::Short, Some(rise)) => {
            let width = rise.saturating_sub(low.fall);
            if ZERO_LOW.greatest < width {
                Some(width)
            } else {
                None
            }
        }
        _ => None,
    }
}

fn last_of(last: Option<Low>, lows: &[Low]) -> Option<Low>
    ensures { result ≡ last_of last lows.now }
{
    let [low, lows @ ..] = lows else {
        return last;
    };
    last_of(Some(*low), lows)
}

fn last_slot(lows: &[Low]) -> Option<Low>
    ensures { result ≡ last_slot lows.now }
{
    let [_, lows @ ..] = lows else {
        return None;
    };
    last_of(None, lows)
}

fn long_by(fall: u64, rise: Option<u64>) -> Option<u64>
    ensures { result ≡ long_by fall rise }
{
    match rise {
        None => None,
        Some(rise) => {
            let width = rise.saturating_sub(fall);
            if DRIVE_WITHIN.fits(width) {
                Some(width)
            } else {
                None
            }
        }
    }
}

/// How long the line stayed low in the last slot of a reading of these low stretches, where that is as long as a low drive that
/// began while the line was low (CEC 7.4). The first low stretch is the start bit.
pub fn drive_within(lows: &[Low]) -> Option<u64>
    ensures { result ≡ drive_within lows.now }
{
    match last_slot(lows) {
        None => None,
        Some(low) => long_by(low.fall, low.rise),
    }
}
