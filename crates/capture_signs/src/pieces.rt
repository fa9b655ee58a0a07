//! Counts over the pieces of a captured line.
ghost use Rattle.std.specs.Prelude.{◌≡◌, Some, is_none, length, option_map};
ghost use Rattle.std.specs.List.{list_all};
ghost use Rattle.std.specs.Option.{option_to_list};
ghost use Rattle.audit_judged.specs.Widths.{remark_for};
ghost use Rattle.audit_pieces.specs.Pieces.{is_framed, piece_of};
ghost use Rattle.audit_pieces.specs.Stretches.{stretches_of};
ghost use Rattle.audit_pieces.specs.Wide.{pieces_of};
ghost use Rattle.capture_signs.specs.Pieces.{counts_of, has_its_widths, is_allowed, is_frame, is_headed, is_in_order, is_mid, is_ordered};
ghost use Rattle.capture_signs.specs.Steps.{Counts, with_piece, with_pieces};
ghost use Rattle.piece_audit.specs.Wide.{lows_from};

use crate::lows::after_first;
use crate::sums::one_if;
use audit_judged::{Said, WidthKind, goes_on_after, said_of, width_remark};
use audit_pieces::{Class, Piece, PieceEnding};
use audit_widths::{Low, first_low};
use line_wave::Edge;
use piece_audit::WideReader;

/// How many pieces a captured line has.
#[derive(Clone, Copy, Debug, PartialEq, Eq)]
pub struct PieceCounts {
    /// That begin as a frame does, with a long low stretch.
    pub frames: u64,
    /// Frames of which the standard has nothing otherwise.
    pub in_order: u64,
    /// Those of them of which a whole block was read.
    pub read: u64,
    /// Frames of which a whole block was read.
    pub headed: u64,
    /// The rest of a frame in which the capture begins.
    pub mid_frames: u64,
}

/// The slots of a block (CEC 6.1).
const BLOCK: usize = 10;

/// All kinds of widths.
const KINDS: &[WidthKind] = &[
    WidthKind::StartLow,
    WidthKind::StartTotal,
    WidthKind::ZeroLow,
    WidthKind::OneLow,
    WidthKind::AckLow,
    WidthKind::LongAck,
    WidthKind::LateAck,
    WidthKind::BitTotal,
];

fn is_framed(class: Class) -> bool
    ensures { result ≡ is_framed class }
{
    match class {
        Class::Bit => false,
        Class::Long | Class::Start | Class::Cut => true,
    }
}

fn is_frame(piece: &Piece) -> bool
    ensures { result ≡ is_frame (piece_of piece.now) }
{
    is_framed(piece.parts.head.class)
}

fn is_allowed(said: Said) -> bool
    ensures { result ≡ is_allowed said }
{
    match said {
        Said::Nothing | Said::Allowed(_) => true,
        Said::Remarked(_) => false,
    }
}

fn have_no_remark(piece: &Piece, kinds: &[WidthKind]) -> bool
    ensures { result ≡ list_all (λ kind. is_none (remark_for 1 (piece_of piece.now) kind)) kinds.now }
{
    match kinds {
        [] => true,
        [kind, rest @ ..] => {
            width_remark(1, piece, *kind).is_none() && have_no_remark(piece, rest)
        }
    }
}

fn has_its_widths(piece: &Piece) -> bool
    ensures { result ≡ has_its_widths (piece_of piece.now) }
{
    have_no_remark(piece, KINDS)
}

fn is_ordered(piece: &Piece) -> bool
    ensures { result ≡ is_ordered (piece_of piece.now) }
{
    is_allowed(said_of(piece)) && (goes_on_after(piece).is_none() && has_its_widths(piece))
}

fn is_in_order(piece: &Piece) -> bool
    ensures { result ≡ is_in_order (piece_of piece.now) }
{
    is_frame(piece) && is_ordered(piece)
}

fn is_headed(piece: &Piece) -> bool
    ensures { result ≡ is_headed (piece_of piece.now) }
{
    is_frame(piece) && BLOCK <= piece.parts.slots.len()
}

fn is_mid(ending: PieceEnding) -> bool
    ensures { result ≡ is_mid ending }
{
    match ending {
        PieceEnding::Mid => true,
        PieceEnding::Stops
        | PieceEnding::Drive
        | PieceEnding::Overrun
        | PieceEnding::Intruder
        | PieceEnding::Long
        | PieceEnding::Open
        | PieceEnding::Stray
        | PieceEnding::Complete => false,
    }
}

impl PieceCounts {
    // With one more piece.
    fn with(self, piece: &Piece) -> PieceCounts
        ensures { result ≡ with_piece self (piece_of piece.now) }
    {
        let in_order = is_in_order(piece);
        let read = in_order && is_headed(piece);
        PieceCounts {
            frames: one_if(is_frame(piece)).saturating_add(self.frames),
            in_order: one_if(in_order).saturating_add(self.in_order),
            read: one_if(read).saturating_add(self.read),
            headed: one_if(is_headed(piece)).saturating_add(self.headed),
            mid_frames: one_if(is_mid(piece.ending)).saturating_add(self.mid_frames),
        }
    }

    // The same, if there is one.
    fn with_some(self, piece: Option<Piece>) -> PieceCounts
        ensures { result ≡ with_pieces self (option_to_list (option_map piece_of piece)) }
    {
        match piece {
            None => self,
            Some(piece) => self.with(&piece),
        }
    }
}

// Takes a low stretch, if there is one.
fn take_low(counts: PieceCounts, end: u64, reader: &mut WideReader, low: Option<Low>) -> PieceCounts
    ensures { Counts end counts reader.old low result reader.new }
{
    match low {
        None => counts,
        Some(low) => counts.with_some(reader.take(end, low)),
    }
}

/// The counts over all pieces of a captured line that begins at 0 and ends at `end`, of its edges, which begin with a fall.
pub fn counts_of(edges: &[Edge], end: u64) -> PieceCounts
    ensures { result ≡ counts_of (pieces_of end (Some 0) (stretches_of end (lows_from edges.now))) }
{
    let mut counts = PieceCounts {
        frames: 0,
        in_order: 0,
        read: 0,
        headed: 0,
        mid_frames: 0,
    };
    let mut reader = WideReader::new(0);
    let mut left = edges;
    'lows: while left.len() > 0 {
        counts = take_low(counts, end, &mut reader, first_low(left));
        left = after_first(left);
    }
    let last = reader.last(end);
    let all = counts.with_some(last);
    all.with_some(reader.finish(end))
}
