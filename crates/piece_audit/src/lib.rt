//! The pieces of a captured line as records: the line of each, and below it what the standard would have otherwise, with who drove it
//! and the section, or which cause it allows (HDMI 1.4 CEC 5.2, 6.1, 7.1 to 7.4 and 9.1).
#![tactic(auto)]

mod reading;
mod texts;
mod whole;
mod wide;

pub use reading::reading_of;
pub use texts::add_piece;
pub use whole::add_pieces;
pub use wide::WideReader;
