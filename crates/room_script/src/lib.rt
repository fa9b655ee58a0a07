//! The texts that a network is described by: frames, topologies and scripts.
#![tactic(auto)]

mod course;
mod header;
mod holding;
mod keys;
mod laws;
mod pin;
mod script;
mod sending;
mod topology;

pub use course::Script;
pub use laws::{
    keys_begin_with_their_words, lines_add_little, lines_are_of_rows, lines_are_read_in_order,
    lines_keep_scripts_sound, one_script, scripts_are_sound,
};
pub use message_table::WordSet;
pub use message_text::{AssembleError, assemble, frame_text, write_frame};
pub use script::{
    ScriptCause, ScriptDraft, ScriptError, ScriptLineError, TimedEvent, error_at, parse_script,
    take_line, time_in,
};
pub use topology::{Topology, TopologyCause, TopologyError, parse_topology};
