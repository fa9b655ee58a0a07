//! What stands where in the blocks of HDMI's own: the HDMI block (HDMI 1.4, section 8.3.2) and the block of the HDMI Forum
//! (HDMI 2.1, section 10.3.2). Each is decoded once, into a value with names, of which the rules and the meanings speak.
#![tactic(auto)]

mod bits;
mod forum_block;
mod hdmi_block;

pub use forum_block::{ForumBlock, HDMI_FORUM, identifier};
pub use hdmi_block::{Delay, HdmiBlock, HdmiVideo, Latencies, code_of_hdmi, video_bytes};
