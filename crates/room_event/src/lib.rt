//! What happens to a network from outside, and why it is refused.
#![tactic(auto)]

mod event;

pub use event::{Event, EventError, HeaderNames};
