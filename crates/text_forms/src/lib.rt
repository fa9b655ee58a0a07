//! Lines that a table of forms describes. A form is a row of places: words that stand for themselves, and words in capitals that
//! stand for a value. One function reads a line by a table: it gives the row and its values, or the first word at fault.
#![tactic(auto)]

mod form;
mod laws;
mod limits;
mod read;
mod value;

pub use form::{LineCause, Slot, fitting, fitting_said, most_fitting};
pub use laws::values_read_back;
pub use limits::{LAST_BYTE, LAST_PORT, LATEST, MOST_PORTS};
pub use read::{FormLine, read_line};
pub use value::Value;
