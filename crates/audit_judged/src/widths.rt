//! Which widths of a piece are out of the standard's windows.
ghost use Rattle.std.specs.Prelude.{◌≡◌, ◌+◌, ◌-◌, ◌<◌, ◌≤◌, length};
ghost use Rattle.audit_pieces.specs.Pieces.{piece_of};
ghost use Rattle.audit_judged.specs.Widths.{has_low, is_ack, is_intruded, is_long, is_out, late_in, low_by, low_in, outs_of, party_of, remark_by, remark_for, slot_outs, slot_width, start_low_in, start_total_in, start_width, taker_by, taker_of, total_in, window_for, with_out, with_width};

use crate::header::{BLOCK, destination_of, initiator_of};
use audit_pieces::{LowStretch, Piece, PieceEnding, Slot};
use audit_widths::WidthWindow;
use line_frames::Addr;
use line_reading::STANDARD;

/// Which width of a piece.
#[derive(Clone, Copy, Debug, PartialEq, Eq)]
pub enum WidthKind {
    /// How long a start bit is low, and how long it lasts.
    StartLow,
    StartTotal,
    /// How long a 0 is low, and a 1.
    ZeroLow,
    OneLow,
    /// How long an acknowledge is.
    AckLow,
    /// A 1 in the acknowledge slot that is low for longer than any: the initiator's, or an acknowledge that ends too soon.
    LongAck,
    /// How late who acknowledges pulls, where the line had risen before.
    LateAck,
    /// How long a bit lasts.
    BitTotal,
}

/// All of them, in the order of their remarks.
pub const WIDTH_KINDS: [WidthKind; 8] = [
    WidthKind::StartLow,
    WidthKind::StartTotal,
    WidthKind::ZeroLow,
    WidthKind::OneLow,
    WidthKind::AckLow,
    WidthKind::LongAck,
    WidthKind::LateAck,
    WidthKind::BitTotal,
];

/// Who is at fault: an address, where it was read.
#[derive(Clone, Copy, Debug, PartialEq, Eq)]
pub enum Party {
    Initiator(Option<u8>),
    /// The destination, or of a frame to all some follower.
    Follower(Option<u8>),
    /// One of the two, initiator and follower: the line does not tell.
    Either(Option<u8>, Option<u8>),
    Unknown,
}

/// The widths of a kind that are out of their window: the first of them, the least and the greatest, and how many there are. Widths are in
/// microseconds.
#[derive(Clone, Copy, Debug, PartialEq, Eq)]
pub struct Outs {
    /// The slot of the first one, from 1, or 0 for the start bit.
    pub slot: u64,
    pub width: u64,
    pub least: u64,
    pub greatest: u64,
    pub count: u64,
}

/// A remark of widths that are out of their window.
#[derive(Clone, Copy, Debug, PartialEq, Eq)]
pub struct WidthRemark {
    pub kind: WidthKind,
    pub who: Party,
    pub outs: Outs,
}

/// The low periods of a 1 and of a 0 (CEC 5.2.2).
const ONE_LOW: WidthWindow = WidthWindow {
    least: 400,
    greatest: 800,
};

const ZERO_LOW: WidthWindow = WidthWindow {
    least: 1_300,
    greatest: 1_700,
};

/// Who acknowledges pulls at most so long after the initiator (CEC 5.2.3).
const LATE: WidthWindow = WidthWindow {
    least: 0,
    greatest: 350,
};

const START_LOW: WidthWindow = WidthWindow {
    least: STANDARD.start_low.least,
    greatest: STANDARD.start_low.most,
};

const START_TOTAL: WidthWindow = WidthWindow {
    least: STANDARD.start_total.least,
    greatest: STANDARD.start_total.most,
};

const BIT_TOTAL: WidthWindow = WidthWindow {
    least: STANDARD.bit_total.least,
    greatest: STANDARD.bit_total.most,
};

/// The window of a kind.
pub fn window_for(kind: WidthKind) -> WidthWindow
    ensures { result ≡ window_for kind }
{
    match kind {
        WidthKind::StartLow => START_LOW,
        WidthKind::StartTotal => START_TOTAL,
        WidthKind::ZeroLow | WidthKind::AckLow => ZERO_LOW,
        WidthKind::OneLow | WidthKind::LongAck => ONE_LOW,
        WidthKind::LateAck => LATE,
        WidthKind::BitTotal => BIT_TOTAL,
    }
}

fn is_out(grid: u64, window: WidthWindow, width: u64) -> bool
    ensures { result ≡ is_out grid window width }
{
    let slack = grid.saturating_sub(1);
    slack < window.least.saturating_sub(width) || slack < width.saturating_sub(window.greatest)
}

fn is_ack(k: usize) -> bool
    ensures { result ≡ is_ack k }
{
    k % BLOCK == 0
}

fn is_long(slot: Slot) -> bool
    ensures { result ≡ is_long slot }
{
    slot.rise.saturating_sub(slot.fall) > ONE_LOW.greatest
}

// Whether the low of a slot is of this kind.
fn has_low(kind: WidthKind, k: usize, slot: Slot) -> bool
    ensures { result ≡ has_low kind k slot }
{
    match kind {
        WidthKind::ZeroLow => !slot.bit() && !is_ack(k),
        WidthKind::OneLow => slot.bit() && !(is_ack(k) && is_long(slot)),
        WidthKind::AckLow => !slot.bit() && is_ack(k),
        WidthKind::LongAck => slot.bit() && is_ack(k) && is_long(slot),
        WidthKind::StartLow | WidthKind::StartTotal | WidthKind::LateAck | WidthKind::BitTotal =>
            false,
    }
}

// One low stretch, that no other breaks off.
fn low_by(broken: bool, slot: Slot, rest: &[Slot]) -> Option<u64>
    ensures { result ≡ low_by broken slot rest.now slot.late }
{
    match slot.late {
        Some(_) => None,
        None => match rest {
            [] => {
                if broken {
                    None
                } else {
                    Some(slot.rise.saturating_sub(slot.fall))
                }
            }
            [_, ..] => Some(slot.rise.saturating_sub(slot.fall)),
        },
    }
}

fn low_in(broken: bool, kind: WidthKind, k: usize, slot: Slot, rest: &[Slot]) -> Option<u64>
    ensures { result ≡ low_in broken kind k slot rest.now }
{
    if has_low(kind, k, slot) {
        low_by(broken, slot, rest)
    } else {
        None
    }
}

fn total_in(slot: Slot, rest: &[Slot]) -> Option<u64>
    ensures { result ≡ total_in slot rest.now }
{
    match rest {
        [] => None,
        [next, ..] => Some(next.fall.saturating_sub(slot.fall)),
    }
}

fn late_in(slot: Slot) -> Option<u64>
    ensures { result ≡ late_in slot slot.late }
{
    match slot.late {
        None => None,
        Some(late) => Some(late.saturating_sub(slot.fall)),
    }
}

fn slot_width(broken: bool, kind: WidthKind, k: usize, slot: Slot, rest: &[Slot]) -> Option<u64>
    ensures { result ≡ slot_width broken kind k slot rest.now }
{
    match kind {
        WidthKind::StartLow | WidthKind::StartTotal => None,
        WidthKind::LateAck => late_in(slot),
        WidthKind::BitTotal => total_in(slot, rest),
        WidthKind::ZeroLow => low_in(broken, WidthKind::ZeroLow, k, slot, rest),
        WidthKind::OneLow => low_in(broken, WidthKind::OneLow, k, slot, rest),
        WidthKind::AckLow => low_in(broken, WidthKind::AckLow, k, slot, rest),
        WidthKind::LongAck => low_in(broken, WidthKind::LongAck, k, slot, rest),
    }
}

fn start_low_in(head: LowStretch, slots: &[Slot]) -> Option<u64>
    ensures { result ≡ start_low_in head slots.now }
{
    match slots {
        [] => None,
        [_, ..] => Some(head.rise.saturating_sub(head.fall)),
    }
}

fn start_total_in(head: LowStretch, slots: &[Slot]) -> Option<u64>
    ensures { result ≡ start_total_in head slots.now }
{
    match slots {
        [] => None,
        [slot, ..] => Some(slot.fall.saturating_sub(head.fall)),
    }
}

fn start_width(kind: WidthKind, head: LowStretch, slots: &[Slot]) -> Option<u64>
    ensures { result ≡ start_width kind head slots.now }
{
    match kind {
        WidthKind::StartLow => start_low_in(head, slots),
        WidthKind::StartTotal => start_total_in(head, slots),
        WidthKind::ZeroLow
        | WidthKind::OneLow
        | WidthKind::AckLow
        | WidthKind::LongAck
        | WidthKind::LateAck
        | WidthKind::BitTotal => None,
    }
}

fn with_out(k: usize, width: u64, outs: Option<Outs>) -> Outs
    ensures { result ≡ with_out k width outs }
{
    match outs {
        None => Outs {
            slot: k as u64,
            width,
            least: width,
            greatest: width,
            count: 1,
        },
        Some(outs) => Outs {
            slot: k as u64,
            width,
            least: width.min(outs.least),
            greatest: width.max(outs.greatest),
            count: outs.count.saturating_add(1),
        },
    }
}

fn with_width(
    grid: u64,
    window: WidthWindow,
    k: usize,
    width: Option<u64>,
    outs: Option<Outs>,
) -> Option<Outs>
    ensures { result ≡ with_width grid window k width outs }
{
    match width {
        None => outs,
        Some(width) => {
            if is_out(grid, window, width) {
                Some(with_out(k, width, outs))
            } else {
                outs
            }
        }
    }
}

fn slot_outs(grid: u64, broken: bool, kind: WidthKind, k: usize, slots: &[Slot]) -> Option<Outs>
    requires { k + length slots.now < 1000 }
    ensures { result ≡ slot_outs grid broken kind k slots.now }
{
    let [slot, rest @ ..] = slots else {
        return None;
    };
    let later = slot_outs(grid, broken, kind, k + 1, rest);
    with_width(
        grid,
        window_for(kind),
        k,
        slot_width(broken, kind, k, *slot, rest),
        later,
    )
}

fn is_intruded(ending: PieceEnding) -> bool
    ensures { result ≡ is_intruded ending }
{
    match ending {
        PieceEnding::Intruder => true,
        PieceEnding::Complete
        | PieceEnding::Stops
        | PieceEnding::Drive
        | PieceEnding::Overrun
        | PieceEnding::Long
        | PieceEnding::Open
        | PieceEnding::Stray
        | PieceEnding::Mid => false,
    }
}

fn outs_of(grid: u64, piece: &Piece, kind: WidthKind) -> Option<Outs>
    ensures { result ≡ outs_of grid (piece_of piece.now) kind }
{
    let slots = piece.parts.slots.as_slice();
    let later = slot_outs(grid, is_intruded(piece.ending), kind, 1, slots);
    with_width(
        grid,
        window_for(kind),
        0,
        start_width(kind, piece.parts.head, slots),
        later,
    )
}

fn taker_by(to: Option<u8>) -> Option<u8>
    ensures { result ≡ taker_by to }
{
    match to {
        None => None,
        Some(to) => {
            if to == Addr::BROADCAST {
                None
            } else {
                Some(to)
            }
        }
    }
}

fn taker_of(slots: &[Slot]) -> Option<u8>
    ensures { result ≡ taker_of slots.now }
{
    taker_by(destination_of(slots))
}

fn party_of(kind: WidthKind, slots: &[Slot]) -> Party
    ensures { result ≡ party_of kind slots.now }
{
    match kind {
        WidthKind::AckLow | WidthKind::LateAck => Party::Follower(taker_of(slots)),
        WidthKind::LongAck => Party::Either(initiator_of(slots), taker_of(slots)),
        WidthKind::StartLow
        | WidthKind::StartTotal
        | WidthKind::ZeroLow
        | WidthKind::OneLow
        | WidthKind::BitTotal => Party::Initiator(initiator_of(slots)),
    }
}

fn remark_by(piece: &Piece, kind: WidthKind, outs: Option<Outs>) -> Option<WidthRemark>
    ensures { result ≡ remark_by (piece_of piece.now) kind outs }
{
    match outs {
        None => None,
        Some(outs) => Some(WidthRemark {
            kind,
            who: party_of(kind, piece.parts.slots.as_slice()),
            outs,
        }),
    }
}

/// The remark of the widths of a kind that are out of their window by as much as `grid` at least, in a piece.
pub fn width_remark(grid: u64, piece: &Piece, kind: WidthKind) -> Option<WidthRemark>
    ensures { result ≡ remark_for grid (piece_of piece.now) kind }
{
    remark_by(piece, kind, outs_of(grid, piece, kind))
}
