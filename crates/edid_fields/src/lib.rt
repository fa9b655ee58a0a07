//! The fields of a block of bytes, by a table: one interpreter for every block. Which bits a field has, its name and what each of
//! its values says stand in the table alone; where a value has no code, it is reserved.
#![tactic(auto)]

mod laws;
mod tables;
mod walking;
mod words;

pub use laws::{every_bit_stands_once, reserved_is_told, values_are_the_bits};
pub use tables::{Asked, Bits, Code, Part, Row, Run, Shape, Size, Test, Times};
pub use walking::{MAX_FIELDS, Place, Report, Walked, walk};
pub use words::{cut_of, is_reserved, left_of, some_reserved, word_of};
