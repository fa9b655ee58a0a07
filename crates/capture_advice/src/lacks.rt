//! The margins with which frames of a capture are read that are nearly right.

use arrayvec::ArrayVec;
use audit_pieces::{Piece, PieceEnding};
use audit_widths::Low;
use capture_core::Capture;
use line_reading::{MOST_MARGIN, STANDARD, Span};
use piece_audit::WideReader;

/// Margins are multiples of this, in microseconds.
const STEP: u64 = 10;

/// How many margins there are.
pub(crate) const MARGINS: usize = 30;

// By how much a width is out of a window.
fn beyond(width: u64, window: Span) -> u64 {
    if width < window.least {
        window.least.saturating_sub(width)
    } else {
        width.saturating_sub(window.most)
    }
}

// Whether a margin takes a width into a window that is out of it.
fn lacks(width: u64, window: Span) -> bool {
    let lack = beyond(width, window);
    lack > 0 && lack <= MOST_MARGIN
}

// Whether a time of a capture is that of a slot by a margin alone. Where none is, no frame lacks one.
fn has_lack(capture: &Capture) -> bool {
    let mut fall = 0;
    for edge in capture.edges() {
        let width = edge.at.saturating_sub(fall);
        if edge.low {
            if lacks(width, STANDARD.start_total) || lacks(width, STANDARD.bit_total) {
                return true;
            }
            fall = edge.at;
        } else if lacks(width, STANDARD.start_low) {
            return true;
        }
    }
    false
}

// The margin with which all times of a piece are in their windows.
fn lack_of(piece: &Piece) -> u64 {
    let head = piece.parts.head;
    let mut lack = beyond(head.rise.saturating_sub(head.fall), STANDARD.start_low);
    let mut window = STANDARD.start_total;
    let mut fall = head.fall;
    for slot in piece.parts.slots.as_slice() {
        lack = lack.max(beyond(slot.fall.saturating_sub(fall), window));
        window = STANDARD.bit_total;
        fall = slot.fall;
    }
    lack
}

// Adds the margin that a frame lacks, in steps, where there is one as wide.
fn add_margin(margins: &mut ArrayVec<u64, MARGINS>, piece: Option<Piece>) {
    let Some(piece) = piece else {
        return;
    };
    let lack = lack_of(&piece);
    if piece.ending != PieceEnding::Complete || lack == 0 || lack > MOST_MARGIN {
        return;
    }
    let margin = (lack.saturating_add(STEP - 1) / STEP).saturating_mul(STEP);
    for known in margins.as_slice() {
        if *known == margin {
            return;
        }
    }
    let _ = margins.try_push(margin);
}

/// The margins that frames of a capture lack.
pub(crate) fn margins_of(capture: &Capture) -> ArrayVec<u64, MARGINS> {
    let end = capture.end();
    let mut margins = ArrayVec::new();
    if !has_lack(capture) {
        return margins;
    }
    let mut reader = WideReader::new(0);
    let mut since = None;
    for edge in capture.edges() {
        if let Some(fall) = since {
            let low = Low {
                fall,
                rise: Some(edge.at),
                next: None,
            };
            add_margin(&mut margins, reader.take(end, low));
        }
        since = if edge.low { Some(edge.at) } else { None };
    }
    if let Some(fall) = since {
        let low = Low {
            fall,
            rise: None,
            next: None,
        };
        add_margin(&mut margins, reader.take(end, low));
    }
    let last = reader.last(end);
    add_margin(&mut margins, last);
    add_margin(&mut margins, reader.finish(end));
    margins
}
