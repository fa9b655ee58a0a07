//! A captured line whose edges pass one by one: its levels turned or not, and without pulses and gaps that are too short.
#![tactic(auto)]

mod laws;
mod passed;
mod smoother;
mod through;
mod turner;

pub use laws::{captures_stay_captures, edges_come_from_an_instant};
pub use passed::Passed;
pub use smoother::Smoother;
pub use through::Through;
pub use turner::Turner;
