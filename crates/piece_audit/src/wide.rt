//! The pieces of a captured line, low stretch by low stretch.
ghost use Rattle.std.specs.Prelude.{◌≡◌, ℕ, List, [], ◌∷◌, ◌++◌, None, Some, option_map};
ghost use Rattle.std.specs.Option.{option_to_list};
ghost use Rattle.audit_widths.specs.declared.low.Low.{Low as LowOf};
ghost use Rattle.audit_pieces.specs.Pieces.{piece_of};
ghost use Rattle.audit_pieces.specs.Stretches.{stretches_of};
ghost use Rattle.audit_pieces.specs.Wide.{pieces_of};
ghost use Rattle.piece_audit.specs.Wide.{wide_left};

use audit_pieces::{LowStretch, Piece, PieceReader};
use audit_widths::Low;

/// Reads a captured line as pieces, low stretch by low stretch. Of what class one is hangs on the next one, so that one is held back.
#[derive(Debug, Drop)]
pub struct WideReader {
    pieces: PieceReader,
    waiting: Option<Low>,
}

impl WideReader {
    /// Before the first low stretch of a capture that begins then.
    pub fn new(begin: u64) -> Self
        ensures { (end : ℕ) (lows : List LowOf) → wide_left result end lows ≡ pieces_of end (Some begin) (stretches_of end lows) }
    {
        WideReader {
            pieces: PieceReader::new(begin),
            waiting: None,
        }
    }

    /// Takes the next low stretch of a capture up to `end`, and gives the piece that has ended by it.
    pub fn take(&mut self, end: u64, low: Low) -> Option<Piece>
        ensures { (lows : List LowOf) → wide_left self.old end (low ∷ lows) ≡ option_to_list (option_map piece_of result) ++ wide_left self.new end lows }
    {
        let waiting = self.waiting;
        self.waiting = Some(low);
        match waiting {
            None => None,
            Some(before) => self.pieces.take(LowStretch::new(end, before, Some(low))),
        }
    }

    /// No low stretch is left: takes the one that was held back, and gives the piece that has ended by it.
    pub fn last(&mut self, end: u64) -> Option<Piece>
        ensures given { wide_left self.old end [] ≡ option_to_list (option_map piece_of result) ++ wide_left self.new end [] }
        ensures none { self.new.waiting ≡ None }
    {
        let waiting = self.waiting;
        self.waiting = None;
        match waiting {
            None => None,
            Some(before) => self.pieces.take(LowStretch::new(end, before, None)),
        }
    }

    /// Gives the piece that the end of the capture ends.
    pub fn finish(self, end: u64) -> Option<Piece>
        requires { self.waiting ≡ None }
        ensures { wide_left self end [] ≡ option_to_list (option_map piece_of result) }
    {
        self.pieces.finish(end)
    }
}
