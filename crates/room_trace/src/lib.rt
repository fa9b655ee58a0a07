//! The lines of a trace as records: rounds, events, ports, the states of devices, the end; and the objects of a room and its script.
#![tactic(auto)]

mod heads;
mod last_lines;
mod laws;
mod notes;
mod port_text;
mod room;
mod round_text;
mod state_text;
mod trace_text;

pub use last_lines::{add_last_lines, add_states};
pub use laws::{lines_are_records, port_lines_are_records};
pub use notes::{add_moved_notes, add_sent_notes};
pub use port_text::{add_new_ports, on_wire, write_ports};
pub use room::{RoomTexts, add_event_in, add_room, room_again};
pub use round_text::add_round;
pub use state_text::{add_state, write_state};
pub use trace_text::{add_end, add_event, error_word};
