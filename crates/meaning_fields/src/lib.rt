//! What the fields of a block say, by tables: a field is some bits of some bytes, and what it says of its value. A block whose
//! bytes are fields is a table of rows, the same in the definition, and one call of `append_block`.
#![tactic(auto)]

mod brightness;
mod fields;
mod figures;
mod laws;
mod lines;
mod places;

pub use brightness::{FINE_LUMINANCES, LUMINANCES, append_least, luminance};
pub use fields::{Choice, Field, FieldSays, append_fields, append_share, append_ten_thousandths};
pub use figures::append_down_to;
pub use laws::{least_luminances_are_nearest, luminances_are_nearest};
pub use lines::append_block;
pub use places::append_place;
