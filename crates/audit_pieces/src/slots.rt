//! The slots of a frame that is read wide (CEC 5.2.2 and 6.1).
ghost use Rattle.std.specs.Prelude.{◌≡◌, ◌<◌, ◌≤◌, ◌-◌, length};
ghost use Rattle.line_frames.specs.Bits.{most_bits};
ghost use Rattle.audit_pieces.specs.Slots.{asks_last, bit_of, ends_block, has_eom, is_late, is_whole, last_slot, late_slot, no_slot, slot_at, slot_of};

use crate::piece::Slot;
use crate::stretch::LowStretch;
use line_frames::MOST_BITS;
use line_reading::SAMPLE;

/// The slots of a block, and how many there are before its acknowledge slot.
const BLOCK: usize = 10;

const ACKNOWLEDGE: usize = 9;

/// A bit lasts so long nominally (CEC 5.2.2).
const BIT_PERIOD: u64 = 2_400;

impl Slot {
    const NONE: Slot = Slot {
        fall: 0,
        rise: 0,
        late: None,
    };

    /// Of one low stretch.
    pub(crate) fn of(stretch: LowStretch) -> Slot
        ensures { result ≡ slot_of stretch }
    {
        Slot {
            fall: stretch.fall,
            rise: stretch.rise,
            late: None,
        }
    }

    /// With a second one, of who acknowledges it late.
    pub(crate) fn with_late(self, stretch: LowStretch) -> Slot
        ensures { result ≡ late_slot self stretch }
    {
        Slot {
            fall: self.fall,
            rise: stretch.rise,
            late: Some(stretch.fall),
        }
    }

    /// The bit that it holds.
    pub fn bit(self) -> bool
        ensures { result ≡ bit_of self }
    {
        self.rise.saturating_sub(self.fall) <= SAMPLE
    }
}

/// The slot that so many end with; past them one of no width.
pub fn slot_at(slots: &[Slot], k: usize) -> Slot
    ensures { result ≡ slot_at slots.now k }
{
    slots
        .get(k.saturating_sub(1))
        .copied()
        .unwrap_or(Slot::NONE)
}

/// The last of them.
pub(crate) fn last_slot(slots: &[Slot]) -> Slot
    ensures { result ≡ last_slot slots.now }
{
    slot_at(slots, slots.len())
}

fn ends_block(slots: &[Slot]) -> bool
    ensures { result ≡ ends_block slots.now }
{
    !slots.is_empty() && slots.len() % BLOCK == 0
}

/// Whether the last block has its EOM 1.
pub(crate) fn has_eom(slots: &[Slot]) -> bool
    ensures { result ≡ has_eom slots.now }
{
    slot_at(slots, slots.len().saturating_sub(1)).bit()
}

/// Whether they are all slots that the blocks ask for.
pub(crate) fn is_whole(slots: &[Slot]) -> bool
    ensures { result ≡ is_whole slots.now }
{
    ends_block(slots) && (has_eom(slots) || slots.len() == MOST_BITS)
}

/// Whether the acknowledge slot of the last block comes next.
pub(crate) fn asks_last(slots: &[Slot]) -> bool
    ensures { result ≡ asks_last slots.now }
{
    slots.len() % BLOCK == ACKNOWLEDGE && last_slot(slots).bit()
}

/// Whether a stretch acknowledges the last of them late.
pub(crate) fn is_late(slots: &[Slot], stretch: LowStretch) -> bool
    ensures { result ≡ is_late slots.now stretch }
{
    let last = last_slot(slots);
    ends_block(slots)
        && last.late.is_none()
        && stretch.fall.saturating_sub(last.fall) <= SAMPLE
        && stretch.rise.saturating_sub(last.fall) < BIT_PERIOD
}
