//! Dumps of several wires (IEEE 1364-2005, 18): the CEC line, and below it who drives it, a wire for each device and one
//! for the pulses; and beside them wires of text.
#![tactic(auto)]

mod definitions;
mod drive;
mod instants;
mod noted;

pub use definitions::{add_closing, add_closing_with, add_opening, add_variable};
pub use drive::Drive;
pub use instants::is_low;
pub use noted::{WireText, add_noted_wires, add_wires};
