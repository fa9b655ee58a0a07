//! One device on the CEC line: its address, its queue, what it says.
#![tactic(auto)]

mod device;
mod follow;
mod keys;
mod laws;
mod outside;
mod place;
mod sent;
mod state;

pub use device::{Device, Queued, SubmitError, Ticket, frame_of};
pub use device_features::{HeardReport, Key, Port, Record, Volume, VolumeKey};
pub use keys::KeyError;
pub use laws::{
    addresses_are_found, addresses_are_listed, fates_keep_once, frames_end, joining_holds_nothing,
    kinds_stay, numbers_stay, only_outside, only_polls_move, place_goes_by_fates,
    queues_go_elsewhere,
};
pub use line_frames::Fate;
pub use outside::{Act, MoreHeld};
pub use sent::Sent;
