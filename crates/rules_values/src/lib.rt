//! What the parts of an EDID tell, as the rules of the standards ask for it.
#![tactic(auto)]

mod base_parts;
mod block_parts;
mod codes;
mod ext_parts;
mod timings;

pub use base_parts::{
    NAME_TAG, RANGE_TAG, SERIAL_TAG, begins_with_timing, claims_srgb, has_established_vga,
    is_continuous, is_srgb, is_three, prefers_first, some_empty, some_formula, some_ill_unused,
    some_tagged,
};
pub use block_parts::{Sought, hdmi_codes, hdmi_of, is_forum, is_speakers};
pub use codes::{MAX_CODES, code_of, repeats, some_lone_code, svds, video_codes};
pub use ext_parts::{
    begins_with_map, blocks_of, hdmi_count, native_count, some_block, some_cta, some_forum_first,
    some_hidden_sound, some_ill_padding, some_native, some_overscan,
};
pub use timings::{MAX_TIMINGS, timings_of};
