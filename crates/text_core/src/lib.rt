//! What both the EDIDs and the CEC wire speak of: kinds of device and physical addresses; what texts are made of: lines,
//! words, decimal and hex numbers; and how lines are written, part by part, to a sink that says how many bytes it took.
#![tactic(auto)]

mod at;
mod buffered;
mod by_line;
mod held;
mod hex;
mod kind;
mod laws;
mod lines;
mod number;
mod parts;
mod phys;
mod piece;
mod sink;
mod tally;
mod words;
mod written;

pub use at::{At, AtWord, at_word};
pub use buffered::Buffered;
pub use by_line::{TextOfLine, write_lines};
pub use held::Held;
pub use hex::{hex_at, hex_byte, hex_bytes};
pub use kind::Kind;
pub use laws::{
    counts_are_of_texts, cut_parts_are_a_front, failures_last, faults_cut_the_whole_off,
    found_by_its_word, kinds_are_named_by_their_words, lent_sinks_come_back, lines_have_a_word,
    lists_are_parted, parts_add_up, texts_add_up,
};
pub use lines::{first_line, is_skipped};
pub use number::{number_in, small_number};
pub use parts::{after, before, byte_at, joined, len_before};
pub use phys::{Phys, digit_value, is_hex_digit};
pub use piece::{Piece, hex_digit, write_line, write_pieces};
pub use sink::{Sink, WriteFault, Writes, put_all};
pub use tally::Counted;
pub use words::{first_word, one_word, spaces_unquoted, three_words, two_words};
pub use written::{counted, cut_at};
