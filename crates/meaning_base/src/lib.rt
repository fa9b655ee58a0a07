//! What the lines of a base block and its descriptors mean but for its detailed timings, and those of an extension that is kept as
//! it is.
#![tactic(auto)]

mod cvt;
mod descriptors;
mod established;
mod established_iii;
mod figures;
mod heads;
mod inputs;
mod ranges;
mod raws;

pub use descriptors::append_descriptor;
pub use established::append_established;
pub use figures::{append_chroma, append_gamma, append_made, append_size, append_standard};
pub use inputs::{append_features, append_input};
pub use ranges::append_range;
pub use raws::{append_ext, append_raw};
