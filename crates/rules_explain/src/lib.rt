//! What a rule that an EDID breaks asks, and the values at fault; why an EDID has no HDMI block.
//!
//! All of it but what is asked of a text and of extensions is text for people, so that tests speak of it and no contract does.
#![tactic(auto)]

mod asked;
mod blocks;
mod explanation;
mod formats;
mod hints;
mod limits;
mod links;
mod places;
mod values;

pub use explanation::{explain_counted, explain_findings};
pub use hints::{explain_no_hdmi, first_overrun, lacks_line_feed};
