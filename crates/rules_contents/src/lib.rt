//! What stands in an EDID's extensions and data blocks, as the rules of the standards ask for it: forms, lengths, reserved values.
#![tactic(auto)]

mod bases;
mod contents;
mod extensions;
mod laws;

pub use bases::{
    has_other_gamma, has_reserved_input, is_ill_text, is_late_year, is_reserved_descriptor,
    is_reserved_week, some_ill_text, some_reserved_descriptor,
};
pub use contents::{Slip, Sort, forum_of, has_extended_tag, has_slip, is_forum_block, is_override};
pub use extensions::{
    SORTS, count_of_sort, fixes_ycc_range, has_low_override, has_misplaced_override, overruns,
    some_fixed_ycc, some_other_revision, some_overrun, some_repeated, some_slip, some_unknown,
    some_wrong_section,
};
pub use laws::{lengths_are_found, reserved_values_are_found};
