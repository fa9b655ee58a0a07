//! What the link of an EDID with an HDMI block carries, and which of its formats it does not.
#![tactic(auto)]

mod formats;
mod link;
mod load;

pub use formats::{
    has_format_beyond, is_code_beyond, is_of_hdmi, is_timing_beyond, is_typed_beyond, load_of,
    own_beyond, some_typed_beyond, svds_beyond, timing_load, typed_load,
};
pub use link::{block_rate, characters, fixed_gigabits, is_beyond, is_carried};
pub use load::Load;
