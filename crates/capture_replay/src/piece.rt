//! What a device drove of a piece.
ghost use Rattle.std.specs.Prelude.{◌≡◌, ◌+◌, ◌<◌, ◌==◌, Some, [], ◌∷◌, length};
ghost use Rattle.audit_pieces.specs.Pieces.{parts_of};
ghost use Rattle.capture_replay.specs.Drives.{broken_drives, drive, drives_of, hidden_one, pull_in, puller, slot_drives, slots_drives};
ghost use Rattle.capture_replay.specs.Replay.{Plays};

use crate::counts::ReplayCounts;
use crate::drive::{hidden_one, is_pulled, low_of, pull_in, puller};
use crate::lines::add_pins;
use crate::sides::{Sides, sides_of};
use audit_pieces::{LowStretch, Piece, Slot};
use line_wave::Stretch;
use text_core::{Counted, Sink};

fn is_own(by: u8, address: u8) -> bool
    ensures { result ≡ (by == address) }
{
    by == address
}

// Adds a low stretch that somebody drove, where it was this device.
fn add_own<S: Sink>(
    out: &mut Counted<'_, S>,
    counts: &mut ReplayCounts,
    address: u8,
    by: u8,
    low: Stretch,
)
    ensures { Plays address (drive (Some by) low ∷ []) 0 out.old out.new counts.old counts.new }
{
    if !is_own(by, address) {
        return;
    }
    add_pins(out, low);
    counts.add_pin();
}

// Adds a low stretch, where this device drove it, and counts it, where nobody is known to have driven it.
fn add_drive<S: Sink>(
    out: &mut Counted<'_, S>,
    counts: &mut ReplayCounts,
    address: u8,
    by: Option<u8>,
    low: Stretch,
)
    ensures { Plays address (drive by low ∷ []) 0 out.old out.new counts.old counts.new }
{
    match by {
        None => counts.leave_out(1),
        Some(by) => add_own(out, counts, address, by, low),
    }
}

// Adds what it drove in an acknowledge slot that two pull low.
fn add_pulled<S: Sink>(
    out: &mut Counted<'_, S>,
    counts: &mut ReplayCounts,
    address: u8,
    sides: Sides,
    slot: Slot,
)
    ensures { Plays address (drive sides.sender (hidden_one slot) ∷ drive (puller sides.taker slot) (pull_in slot) ∷ []) 0 out.old out.new counts.old counts.new }
{
    add_drive(out, counts, address, sides.sender, hidden_one(slot));
    add_drive(
        out,
        counts,
        address,
        puller(sides.taker, slot),
        pull_in(slot),
    );
}

// Adds what it drove in a slot, counted from 1.
fn add_slot<S: Sink>(
    out: &mut Counted<'_, S>,
    counts: &mut ReplayCounts,
    address: u8,
    sides: Sides,
    k: usize,
    slot: Slot,
)
    ensures { Plays address (slot_drives sides k slot) 0 out.old out.new counts.old counts.new }
{
    if is_pulled(k, slot) {
        add_pulled(out, counts, address, sides, slot);
    } else {
        add_drive(out, counts, address, sides.sender, low_of(slot));
    }
}

// Adds what it drove in the slots from one on.
#[tactic(auto, using(crate::proofs::Playing::plays_none))]
fn add_slots<S: Sink>(
    out: &mut Counted<'_, S>,
    counts: &mut ReplayCounts,
    address: u8,
    sides: Sides,
    k: usize,
    slots: &[Slot],
)
    requires { k + length slots.now < 1000 }
    ensures { Plays address (slots_drives sides k slots.now) 0 out.old out.new counts.old counts.new }
{
    if let [slot, rest @ ..] = slots {
        add_slot(out, counts, address, sides, k, *slot);
        add_slots(out, counts, address, sides, k + 1, rest);
    }
}

// Counts what breaks a frame off.
fn add_broken<S: Sink>(
    out: &mut Counted<'_, S>,
    counts: &mut ReplayCounts,
    address: u8,
    broken_by: Option<LowStretch>,
)
    ensures { Plays address (broken_drives broken_by) 0 out.old out.new counts.old counts.new }
{
    match broken_by {
        None => {}
        Some(by) => add_drive(
            out,
            counts,
            address,
            None,
            Stretch {
                from: by.fall,
                to: by.rise,
            },
        ),
    }
}

/// Adds what the device of an address drove of a piece, and counts what of it nobody is known to have driven.
pub(crate) fn add_piece<S: Sink>(
    out: &mut Counted<'_, S>,
    counts: &mut ReplayCounts,
    address: u8,
    piece: &Piece,
)
    ensures { Plays address (drives_of (parts_of piece.now.parts)) piece.now.parts.trail out.old out.new counts.old counts.new }
{
    let slots = piece.parts.slots.as_slice();
    let sides = sides_of(slots);
    let head = Stretch {
        from: piece.parts.head.fall,
        to: piece.parts.head.rise,
    };
    add_drive(out, counts, address, sides.sender, head);
    add_slots(out, counts, address, sides, 1, slots);
    add_broken(out, counts, address, piece.parts.broken_by);
    counts.leave_out(piece.parts.trail);
}
