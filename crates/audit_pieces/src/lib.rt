//! A captured line read wide: the pieces that its low stretches make, frames that are nearly right among them (HDMI 1.4 CEC 5.2, 6.1,
//! 7.4 and 9.1). Nothing is judged here.
#![tactic(auto)]

mod laws;
mod piece;
mod places;
mod reader;
mod slots;
mod stretch;

pub use laws::{frames_are_pieces, one_wide_reading, pieces_are_all, readers_give_pieces};
pub use piece::{After, Parts, Piece, PieceEnding, Place, Slot};
pub use reader::PieceReader;
pub use slots::slot_at;
pub use stretch::{Class, LONG_FROM, LowStretch};
