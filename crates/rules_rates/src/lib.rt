//! How fast the formats of an EDID are, and what of them is outside its range limits, or too slow for YCbCr 4:2:0.
#![tactic(auto)]

mod formats;
mod limits;
mod maps;
mod pace;
mod paces;
mod span;

pub use formats::{
    BitPace, ESTABLISHED, LINES, established_bits, has_format_outside, has_too_many_lines,
    is_code_outside, is_established_outside, is_standard_outside, picture_lines, typed_pace,
};
pub use limits::{
    CLOCK_UNIT, HALF_LINE_CLOCK, field_span, has_reversed_limits, is_clock_above, is_out_of_range,
    is_outside, is_over, line_span, timing_pace,
};
pub use maps::{has_past, has_slow, is_marked, is_slow, some_past, some_slow};
pub use pace::Pace;
pub use paces::{CodePace, pace_of};
pub use span::RateSpan;
