//! The line of a run and who drives it, as a dump of several wires: from the texts of a topology and a script.
#![tactic(auto)]

mod drives_text;
mod emulate;
mod head;
mod laws;
mod round;
mod run;
mod wires;

pub use emulate::emulate_drives;
pub use laws::runs_have_drives;
pub use wires::Wires;
