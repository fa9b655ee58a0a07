//! What is said of how a piece ends.
ghost use Rattle.std.specs.Prelude.{◌≡◌, ◌<◌, ◌≤◌, length};
ghost use Rattle.line_frames.specs.Bits.{most_bits};
ghost use Rattle.audit_pieces.specs.Pieces.{parts_of, piece_of};
ghost use Rattle.audit_judged.specs.Endings.{begun_blocks, complete_of, drive_of, drive_party, ending_party, ends_untaken, failed_of, goes_on_after, goes_on_by, intruder_of, is_stuck, lone_of, may_have_lost, overrun_of, party_in, said_of, same_block, short_of, stops_of, untaken_cause, width_of};

use crate::header::{BLOCK, bit_at, failed_block, initiator_of, is_to_all};
use crate::widths::Party;
use audit_pieces::{LowStretch, Parts, Piece, PieceEnding, Slot};
use audit_widths::DRIVE;
use line_reading::STANDARD;

/// The longest low of all, in microseconds: a low drive of 3,840 (CEC 7.4) that begins while a 0 is low for 1,700 (CEC 5.2.2).
const LONGEST_LOW: u64 = 5_540;

/// A bit lasts so long at least (CEC 5.2.2).
const SHORTEST_BIT: u64 = STANDARD.bit_total.least;

/// The slots of an initiator's address, within which the line is lost (CEC 7.2).
const ARBITRATION: usize = 4;

/// The slot of a header's EOM.
const HEADER_EOM: usize = 9;

/// Why a piece ends though the standard has nothing against it.
#[derive(Clone, Copy, Debug, PartialEq, Eq)]
pub enum Cause {
    /// Its initiator may have lost the line to another one (CEC 7.2).
    ArbitrationLost,
    /// It is a poll of an address that nobody has (CEC 7.3).
    PollUnanswered,
    /// Its last block was not acknowledged (CEC 6.1.2).
    NotAcknowledged,
    /// A frame to all that a follower refuses (CEC 6.1.2).
    Refused,
    /// The capture ends within it.
    CutByTheEnd,
    /// The capture begins within it.
    MidFrame,
}

/// What the standard would have otherwise of how a piece ends. Times are in microseconds, slots are those that it has.
#[derive(Clone, Copy, Debug, PartialEq, Eq)]
pub enum EndingRemark {
    /// Bits without a start bit (CEC 5.2.1), so many.
    Stray(u64),
    /// A start bit without a frame, or a low drive of an idle line, low for so long.
    LoneStart(u64),
    /// The line is low for longer than ever in CEC.
    Stuck(u64),
    /// A low drive (CEC 7.4) after so many slots: how long after the fall of the last one, and for how long.
    LowDrive(usize, u64, u64),
    /// Another start bit begins after so many slots (CEC 9.1).
    Overrun(usize),
    /// A fall after so many slots, so soon after the last one (CEC 7.2).
    Intruder(usize, u64),
    /// It goes on after its sixteenth block (CEC 6.1).
    TooLong,
    /// It ends after this block though another one is to come (CEC 6.1.2).
    Unfinished(usize),
    /// It stops after so many slots (CEC 6.1).
    Stops(usize),
    /// So many bits follow its end (CEC 6.1.2).
    AfterEnd(u64),
}

/// What is said of how a piece ends.
#[derive(Clone, Copy, Debug, PartialEq, Eq)]
pub enum Said {
    /// A whole frame, taken.
    Nothing,
    Allowed(Cause),
    Remarked(EndingRemark),
}

fn width_of(stretch: LowStretch) -> u64
    ensures { result ≡ width_of stretch }
{
    stretch.rise.saturating_sub(stretch.fall)
}

fn is_stuck(stretch: LowStretch) -> bool
    ensures { result ≡ is_stuck stretch }
{
    width_of(stretch) > LONGEST_LOW
}

fn same_block(block: usize, failed: Option<usize>) -> bool
    ensures { result ≡ same_block block failed }
{
    match failed {
        None => false,
        Some(failed) => block == failed,
    }
}

fn ends_untaken(slots: &[Slot]) -> bool
    requires { length slots.now ≤ most_bits }
    ensures { result ≡ ends_untaken slots.now }
{
    !slots.is_empty()
        && slots.len() % BLOCK == 0
        && same_block(slots.len() / BLOCK, failed_block(slots))
}

fn untaken_cause(slots: &[Slot]) -> Cause
    ensures { result ≡ untaken_cause slots.now }
{
    if is_to_all(slots) {
        Cause::Refused
    } else if slots.len() == BLOCK && bit_at(slots, HEADER_EOM) {
        Cause::PollUnanswered
    } else {
        Cause::NotAcknowledged
    }
}

fn may_have_lost(slots: &[Slot]) -> bool
    ensures { result ≡ may_have_lost slots.now }
{
    slots.len() <= ARBITRATION && !bit_at(slots, slots.len())
}

fn short_of(slots: &[Slot]) -> Said
    ensures { result ≡ short_of slots.now }
{
    if slots.len() % BLOCK == 0 {
        Said::Remarked(EndingRemark::Unfinished(slots.len() / BLOCK))
    } else if may_have_lost(slots) {
        Said::Allowed(Cause::ArbitrationLost)
    } else {
        Said::Remarked(EndingRemark::Stops(slots.len()))
    }
}

fn lone_of(stretch: LowStretch) -> Said
    ensures { result ≡ lone_of stretch }
{
    if is_stuck(stretch) {
        Said::Remarked(EndingRemark::Stuck(width_of(stretch)))
    } else {
        Said::Remarked(EndingRemark::LoneStart(width_of(stretch)))
    }
}

fn stops_of(head: LowStretch, slots: &[Slot]) -> Said
    requires { length slots.now ≤ most_bits }
    ensures { result ≡ stops_of head slots.now }
{
    match slots {
        [] => lone_of(head),
        [_, ..] => {
            if ends_untaken(slots) {
                Said::Allowed(untaken_cause(slots))
            } else {
                short_of(slots)
            }
        }
    }
}

fn drive_of(parts: &Parts) -> Said
    ensures { result ≡ drive_of (parts_of parts.now) parts.now.broken_by }
{
    match parts.broken_by {
        None => lone_of(parts.head),
        Some(by) => {
            if is_stuck(by) {
                Said::Remarked(EndingRemark::Stuck(width_of(by)))
            } else {
                let gap = by.fall.saturating_sub(parts.slot_fall());
                Said::Remarked(EndingRemark::LowDrive(parts.slots.len(), gap, width_of(by)))
            }
        }
    }
}

fn intruder_of(parts: &Parts) -> Said
    ensures { result ≡ intruder_of (parts_of parts.now) parts.now.broken_by }
{
    match parts.broken_by {
        None => lone_of(parts.head),
        Some(by) => {
            let gap = by.fall.saturating_sub(parts.slot_fall());
            Said::Remarked(EndingRemark::Intruder(parts.slots.len(), gap))
        }
    }
}

fn overrun_of(slots: &[Slot]) -> Said
    requires { length slots.now ≤ most_bits }
    ensures { result ≡ overrun_of slots.now }
{
    if ends_untaken(slots) {
        Said::Allowed(untaken_cause(slots))
    } else {
        Said::Remarked(EndingRemark::Overrun(slots.len()))
    }
}

fn failed_of(slots: &[Slot], failed: Option<usize>) -> Said
    ensures { result ≡ failed_of slots.now failed }
{
    match failed {
        None => Said::Nothing,
        Some(_) => Said::Allowed(untaken_cause(slots)),
    }
}

fn complete_of(parts: &Parts) -> Said
    ensures { result ≡ complete_of (parts_of parts.now) }
{
    if parts.trail > 0 {
        Said::Remarked(EndingRemark::AfterEnd(parts.trail))
    } else {
        let slots = parts.slots.as_slice();
        failed_of(slots, failed_block(slots))
    }
}

/// What is said of how a piece ends.
pub fn said_of(piece: &Piece) -> Said
    ensures { result ≡ said_of (piece_of piece.now) }
{
    let parts = &piece.parts;
    match piece.ending {
        PieceEnding::Complete => complete_of(parts),
        PieceEnding::Stops => stops_of(parts.head, parts.slots.as_slice()),
        PieceEnding::Drive => drive_of(parts),
        PieceEnding::Overrun => overrun_of(parts.slots.as_slice()),
        PieceEnding::Intruder => intruder_of(parts),
        PieceEnding::Long => Said::Remarked(EndingRemark::TooLong),
        PieceEnding::Open => Said::Allowed(Cause::CutByTheEnd),
        PieceEnding::Stray => Said::Remarked(EndingRemark::Stray(parts.trail.saturating_add(1))),
        PieceEnding::Mid => Said::Allowed(Cause::MidFrame),
    }
}

fn drive_party(gap: u64, width: u64) -> Party
    ensures { result ≡ drive_party gap width }
{
    if DRIVE.fits(width) || (gap >= SHORTEST_BIT && width > DRIVE.greatest) {
        Party::Unknown
    } else {
        Party::Follower(None)
    }
}

fn party_in(initiator: Option<u8>, remark: EndingRemark) -> Party
    ensures { result ≡ party_in initiator remark }
{
    match remark {
        EndingRemark::LowDrive(_, gap, width) => drive_party(gap, width),
        EndingRemark::TooLong
        | EndingRemark::Unfinished(_)
        | EndingRemark::Stops(_)
        | EndingRemark::AfterEnd(_) => Party::Initiator(initiator),
        EndingRemark::Stray(_)
        | EndingRemark::LoneStart(_)
        | EndingRemark::Stuck(_)
        | EndingRemark::Overrun(_)
        | EndingRemark::Intruder(_, _) => Party::Unknown,
    }
}

/// Who is at fault for how a piece of these slots ends.
pub fn ending_party(slots: &[Slot], remark: EndingRemark) -> Party
    ensures { result ≡ ending_party slots.now remark }
{
    party_in(initiator_of(slots), remark)
}

// How many blocks were begun.
fn begun_blocks(slots: &[Slot]) -> usize
    requires { length slots.now ≤ most_bits }
    ensures { result ≡ begun_blocks slots.now }
{
    (slots.len() + BLOCK - 1) / BLOCK
}

fn goes_on_by(slots: &[Slot], failed: Option<usize>) -> Option<usize>
    requires { length slots.now ≤ most_bits }
    ensures { result ≡ goes_on_by slots.now failed }
{
    match failed {
        None => None,
        Some(block) => {
            if block < begun_blocks(slots) {
                Some(block)
            } else {
                None
            }
        }
    }
}

/// The block that was not taken, after which a frame goes on (CEC 7.1).
pub fn goes_on_after(piece: &Piece) -> Option<usize>
    ensures { result ≡ goes_on_after (piece_of piece.now) }
{
    let slots = piece.parts.slots.as_slice();
    goes_on_by(slots, failed_block(slots))
}
