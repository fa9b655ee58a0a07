//! The bytes of EDIDs out of texts with hex dumps: plain digits, as `xxd -p` prints them, the dumps of `xxd`, `hexdump`, `od`,
//! `i2cdump` and `edid-decode`, lists of bytes, strings of escapes, decimal numbers and Intel HEX, with other text around, as in the
//! properties that `xrandr` prints or in a log; how many dumps a text has, and the bytes of each.
#![tactic(auto)]

mod digits;
mod dump;
mod laws;
mod lists;
mod nth;
mod readings;
mod records;
mod rows;
mod spelled;

pub use dump::{DumpError, dump_bytes, looks_like_dump};
pub use laws::{
    bars_are_read, digits_are_read, offsets_are_read, pairs_are_read, text_before_is_passed_over,
};
pub use nth::{dump_count, nth_dump_bytes};
