//! Each piece of a captured line judged by the standard's windows: what is out of them, and what is said of how it ends (HDMI 1.4 CEC
//! 5.2, 6.1, 7.1, 7.2 and 7.4).
#![tactic(auto)]

mod endings;
mod header;
mod laws;
mod widths;

pub use endings::{Cause, EndingRemark, Said, ending_party, goes_on_after, said_of};
pub use header::{destination_of, failed_block, initiator_of, is_to_all};
pub use laws::{lawful_widths_have_no_remark, one_ending, whole_frames_are_taken};
pub use widths::{Outs, Party, WIDTH_KINDS, WidthKind, WidthRemark, width_remark, window_for};
