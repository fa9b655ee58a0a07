//! One step of a run of the network: the next event, or the next round.
#![tactic(auto)]

mod added;
mod heap;
mod held;
mod laws;
mod named;
mod net;
mod start;
mod step;
mod underway;
mod wiring;

pub use added::PulseError;
pub use held::{never_twice, polls_take_turns, steps_keep_order};
pub use laws::{
    below_is_the_ports, devices_stay, events_keep_the_rest, frames_have_blocks, ports_lead_below,
    rounds_begin, rounds_take_pulses, runs_are_in_order, runs_are_over, runs_are_read,
    runs_are_short, runs_are_waves,
};
pub use net::Net;
pub use room_event::{Event, EventError, HeaderNames};
pub use start::start_is_least;
pub use step::{RoundReport, one_step};
