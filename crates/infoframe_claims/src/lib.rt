//! What an InfoFrame says that a display has to offer, and whether the display's EDID offers it.
#![tactic(auto)]

mod avi;
mod bits;
mod blocks;
mod claim;
mod codes;
mod features;
mod frames;
mod offers;
mod sounds;
mod stereo;
mod words;

pub use claim::{Claim, Feature, Sound};
pub use frames::claims_of;
pub use offers::is_offered;
pub use words::{claim_number, claim_word};
