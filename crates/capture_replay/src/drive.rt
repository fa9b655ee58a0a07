//! The low stretches of a slot, and who drove them.
ghost use Rattle.std.specs.Prelude.{◌≡◌};
ghost use Rattle.capture_replay.specs.Drives.{hidden_one, is_late, is_pulled, low_of, pull_from, pull_in, puller, let_go};

use audit_pieces::Slot;
use line_wave::Stretch;

/// The slots of a block, of which the last is its acknowledge slot (CEC 6.1).
const BLOCK: usize = 10;

/// A 1 is low for so long nominally, and for so long at most, in microseconds (CEC 5.2.2).
const ONE_LOW: u64 = 600;

const LONGEST_ONE: u64 = 800;

// The line falls again in it (CEC 5.2.3).
fn is_late(late: Option<u64>) -> bool
    ensures { result ≡ is_late late }
{
    match late {
        None => false,
        Some(_) => true,
    }
}

/// Whether a slot, counted from 1, is an acknowledge slot that somebody else than the sender pulls low too.
pub(crate) fn is_pulled(k: usize, slot: Slot) -> bool
    ensures { result ≡ is_pulled k slot }
{
    k % BLOCK == 0 && (slot.rise.saturating_sub(slot.fall) > LONGEST_ONE || is_late(slot.late))
}

/// The low of a slot that one device drives.
pub(crate) fn low_of(slot: Slot) -> Stretch
    ensures { result ≡ low_of slot }
{
    Stretch {
        from: slot.fall,
        to: slot.rise,
    }
}

fn let_go(rise: u64, late: Option<u64>) -> u64
    ensures { result ≡ let_go rise late }
{
    match late {
        None => rise,
        Some(late) => late,
    }
}

/// The 1 that the sender sends in a slot that somebody else pulls low too.
pub(crate) fn hidden_one(slot: Slot) -> Stretch
    ensures { result ≡ hidden_one slot }
{
    Stretch {
        from: slot.fall,
        to: slot
            .fall
            .saturating_add(ONE_LOW)
            .min(let_go(slot.rise, slot.late)),
    }
}

fn pull_from(fall: u64, late: Option<u64>) -> u64
    ensures { result ≡ pull_from fall late }
{
    match late {
        None => fall,
        Some(late) => late,
    }
}

/// What that one pulls.
pub(crate) fn pull_in(slot: Slot) -> Stretch
    ensures { result ≡ pull_in slot }
{
    Stretch {
        from: pull_from(slot.fall, slot.late),
        to: slot.rise,
    }
}

/// Who that is, where the line tells: who alone acknowledges, where it is read 0 or falls again.
pub(crate) fn puller(taker: Option<u8>, slot: Slot) -> Option<u8>
    ensures { result ≡ puller taker slot }
{
    if is_late(slot.late) || !slot.bit() {
        taker
    } else {
        None
    }
}
