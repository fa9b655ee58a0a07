//! What an audit of a captured line keeps of the readings so far, and what there is to remark of the next one: signal free
//! times, attempts at a frame, bad starts in a row, requests without an answer, physical addresses, frames of each
//! initiator (HDMI 1.4 CEC).
#![tactic(auto)]

mod attempts;
mod counts;
mod endings;
mod frames;
mod free;
mod header;
mod laws;
mod messages;
mod places;
mod requests;
mod series;
mod sources;

pub use attempts::{Attempts, Failure};
pub use counts::{Counts, FrameCount, count_reading, no_counts};
pub use endings::{
    ending_of, goes_on_after, initiator_read, is_measured, is_stray, last_says, party_of,
};
pub use frames::{delivered_frame, sender, sent_frame};
pub use free::{FreeTaken, Previous, TooSoon, is_bad_start};
pub use header::{
    FrameHead, destination_of, head_read, initiator_of, seeks_address, stops_untaken, unfinished,
};
pub use laws::free_times_are_due;
pub use messages::{Missing, Receivers, missed_receivers, missing_operands};
pub use places::{Places, moved_from, no_places, note_report};
pub use requests::{Request, WAITING, Waiting, after_frame};
pub use series::BadStartSeries;
pub use sources::{Mention, Sources};
