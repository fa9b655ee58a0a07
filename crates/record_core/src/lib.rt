//! Records: a line that the program writes is built once, of cells. A writer of text and a writer of JSON read the same cells.
//! A kind of line is a function that makes its cells by `cells`, and hands them to `add_record`.
#![tactic(auto)]

mod cell;
mod gather;
mod laws;
mod line;
mod object;
mod strings;

pub use cell::{Cell, Form, Out, Part, Position, Shown, Stand, Value};
pub use gather::{add_record, add_record_with};
pub use laws::{lines_are_read_back, lines_have_parts, one_line_an_object};
pub use strings::add_quoted;
