//! What extended blocks and vendor blocks of a CTA extension mean, those of Dolby, HDR10+, AMD and Microsoft among them, as lines
//! below their line of an EDID's text.
#![tactic(auto)]

mod blocks;
mod colours;
mod counts;
mod dolby;
mod forum;
mod lights;
mod makers;
mod sync;
mod titles;
mod vendors;
mod videos;

pub use blocks::{append_extended, append_vendor};
pub use dolby::append_dolby;
pub use lights::{FLOORS, PEAKS};
pub use sync::append_sync;
pub use vendors::{append_plus, append_soft, append_sound};
