//! What the calls for C and other languages do that take no memory and make no system call: frames and their texts, EDIDs, a
//! receiver and a sender of the CEC line. Each passes on a call of the libraries below, and says again what that one promises.
//! hdminet_wire exports them.
#![tactic(auto)]

mod edids;
mod fate;
mod frames;
mod heard;
mod readings;
mod receiver;
mod sender;

pub use edids::{edid_fault, put_edid_port, put_edid_text, read_edid};
pub use fate::{SentFate, sender_fate};
pub use frames::{put_frame_bytes, put_frame_text};
pub use heard::{Instant, InstantHeard, what_was_reported_is_reported};
pub use readings::{ReadingParts, put_reading_frame};
pub use receiver::{receiver_hear, receiver_new, receiver_running, receiver_wakes_at};
pub use sender::{PullAnswer, sender_begin, sender_heard, sender_next_change, sender_pulls};
