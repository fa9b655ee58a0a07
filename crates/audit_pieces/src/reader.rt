//! A reader of pieces, stretch by stretch.
ghost use Rattle.std.specs.Prelude.{◌≡◌, ℕ, List, [], ◌∷◌, ◌++◌, Some, option_map};
ghost use Rattle.std.specs.Option.{option_to_list};
ghost use Rattle.audit_pieces.specs.declared.stretch.LowStretch.{LowStretch};
ghost use Rattle.audit_pieces.specs.Pieces.{piece_of};
ghost use Rattle.audit_pieces.specs.Wide.{pieces_left, pieces_of};

use crate::piece::{After, Parts, Piece};
use crate::stretch::LowStretch;
use std::mem;

/// Reads a captured line as pieces, stretch by stretch: of a whole capture as of one that goes on. A piece is known with the first
/// stretch that doesn't belong to it.
#[derive(Debug, Drop)]
pub struct PieceReader {
    // where the capture begins, before its first piece has ended
    begin: Option<u64>,
    // the piece that runs
    running: Option<Parts>,
}

impl PieceReader {
    /// Before the first stretch of a capture that begins then.
    pub fn new(begin: u64) -> Self
        ensures { (end : ℕ) (xs : List LowStretch) → pieces_left result end xs ≡ pieces_of end (Some begin) xs }
    {
        PieceReader {
            begin: Some(begin),
            running: None,
        }
    }

    /// Takes the next stretch, and gives the piece that has ended before it.
    pub fn take(&mut self, stretch: LowStretch) -> Option<Piece>
        ensures { (end : ℕ) (xs : List LowStretch) → pieces_left self.old end (stretch ∷ xs) ≡ option_to_list (option_map piece_of result) ++ pieces_left self.new end xs }
    {
        match &mut self.running {
            None => {
                self.running = Some(Parts::new(stretch));
                None
            }
            Some(running) => {
                if running.place_of(stretch).is_outside() {
                    let over = mem::replace(running, Parts::new(stretch));
                    return Some(over.ended(self.begin.take(), After::Fall(stretch)));
                }
                running.add(stretch);
                None
            }
        }
    }

    /// Gives the piece that the end of the capture ends.
    pub fn finish(self, end: u64) -> Option<Piece>
        ensures { pieces_left self end [] ≡ option_to_list (option_map piece_of result) }
    {
        let begin = self.begin;
        match self.running {
            None => None,
            Some(running) => Some(running.ended(begin, After::End(end))),
        }
    }
}
