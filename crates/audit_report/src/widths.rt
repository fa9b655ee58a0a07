//! The widths of a reading: those that its initiator drives, and those of acknowledge slots in which a follower pulls the line low.
ghost use Rattle.std.specs.Prelude.{◌≡◌, ◌+◌, ◌<◌, length};
ghost use Rattle.audit_widths.specs.Misfits.{slot_bit};
ghost use Rattle.audit_report.specs.Widths.{ack_low, is_ack, is_ack_low, is_zero, own_low, with_low_out, with_out, with_own, with_start_out, with_taken};

use audit_widths::{Low, Misfit, SlotWidth, Widths};
use line_frames::Ending;

/// How long a 0 is low, in microseconds (CEC 5.2.2).
const ZERO_LOW: u64 = 1_500;

/// The slots of a block, the last of which is the acknowledge slot (CEC 6.1).
const BLOCK: u64 = 10;

/// How many widths of each kind are out of their windows.
#[derive(Clone, Copy)]
pub struct WidthOuts {
    pub(crate) start_low: u64,
    pub(crate) start_total: u64,
    pub(crate) one_low: u64,
    pub(crate) zero_low: u64,
    pub(crate) total: u64,
    pub(crate) ack_low: u64,
}

fn is_ack(slot: u64) -> bool
    ensures { result ≡ is_ack slot }
{
    slot > 0 && slot % BLOCK == 0
}

fn slot_bit(bits: &[bool], slot: u64) -> bool
    requires { (0 < slot) × (slot < 1000) }
    ensures { result ≡ slot_bit bits.now slot }
{
    bits.get((slot - 1) as usize).copied().unwrap_or(true)
}

// The low stretch of a slot with what its initiator drives of it.
fn own_low(slot: u64, low: Low) -> Low
    ensures { result ≡ own_low slot low }
{
    if is_ack(slot) {
        Low {
            fall: low.fall,
            rise: None,
            next: low.next,
        }
    } else {
        low
    }
}

// The same with what a follower drives of it: the low time of an acknowledge slot that was read 0.
fn ack_low(bits: &[bool], slot: u64, low: Low) -> Low
    requires { slot < 1000 }
    ensures { result ≡ ack_low bits.now slot low }
{
    let rise = if is_ack(slot) && !slot_bit(bits, slot) {
        low.rise
    } else {
        None
    };
    Low {
        fall: low.fall,
        rise,
        next: None,
    }
}

/// Adds the widths of its initiator, of the slots from one on of a reading that ended so after these bits. Slot 0 is the start bit.
pub(crate) fn add_own(widths: &mut Widths, ending: Ending, bits: &[bool], slot: u64, lows: &[Low])
    requires { slot + length lows.now < 1000 }
    ensures { widths.new ≡ with_own ending bits.now slot lows.now widths.old }
{
    let [low, lows @ ..] = lows else {
        return;
    };
    widths.add(ending, bits, slot, &[own_low(slot, *low)]);
    add_own(widths, ending, bits, slot + 1, lows);
}

/// Adds those of its follower.
pub(crate) fn add_taken(widths: &mut Widths, ending: Ending, bits: &[bool], slot: u64, lows: &[Low])
    requires { slot + length lows.now < 1000 }
    ensures { widths.new ≡ with_taken ending bits.now slot lows.now widths.old }
{
    let [low, lows @ ..] = lows else {
        return;
    };
    widths.add(ending, bits, slot, &[ack_low(bits, slot, *low)]);
    add_taken(widths, ending, bits, slot + 1, lows);
}

/// Whether a width is out of the window of a 0.
pub(crate) fn is_zero(misfit: Misfit) -> bool
    ensures { result ≡ is_zero misfit }
{
    misfit.window.fits(ZERO_LOW)
}

/// Whether a width is the low time of an acknowledge slot.
pub(crate) fn is_ack_low(misfit: Misfit) -> bool
    ensures { result ≡ is_ack_low misfit }
{
    match misfit.kind {
        SlotWidth::Low => is_ack(misfit.slot),
        SlotWidth::Total => false,
    }
}

impl WidthOuts {
    /// None is.
    pub(crate) const NONE: WidthOuts = WidthOuts {
        start_low: 0,
        start_total: 0,
        one_low: 0,
        zero_low: 0,
        total: 0,
        ack_low: 0,
    };

    fn add_start(&mut self, kind: SlotWidth)
        ensures { self.new ≡ with_start_out kind self.old }
    {
        match kind {
            SlotWidth::Low => self.start_low = self.start_low.saturating_add(1),
            SlotWidth::Total => self.start_total = self.start_total.saturating_add(1),
        }
    }

    fn add_low(&mut self, misfit: Misfit)
        ensures { self.new ≡ with_low_out misfit self.old }
    {
        if !is_zero(misfit) {
            self.one_low = self.one_low.saturating_add(1);
        } else if is_ack(misfit.slot) {
            self.ack_low = self.ack_low.saturating_add(1);
        } else {
            self.zero_low = self.zero_low.saturating_add(1);
        }
    }

    /// One more is.
    pub(crate) fn add(&mut self, misfit: Misfit)
        ensures { self.new ≡ with_out misfit self.old }
    {
        if misfit.slot == 0 {
            self.add_start(misfit.kind);
            return;
        }
        match misfit.kind {
            SlotWidth::Low => self.add_low(misfit),
            SlotWidth::Total => self.total = self.total.saturating_add(1),
        }
    }
}
