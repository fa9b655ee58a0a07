//! The calls of hdminet that programs in Rattle most need, from the crates that have them. Each has its contract there.
#![tactic(auto)]

pub use capture_monitor::{WatchError, watch};
pub use conversion_calls::{EdidToTextError, TextToHexError, edid_to_text, text_to_hex};
pub use edid_core::{EdidCause, EdidError};
pub use message_text::{AssembleError, FrameLinesError, asm_lines};
pub use record_core::Form;
pub use room_run::Totals;
pub use room_run::edges::emulate_edges;
pub use room_run::emulate::{EmulateError, emulate};
pub use room_script::{ScriptCause, TopologyCause};
pub use room_steps::step_run::{StepRunError, step_run};
pub use text_core::{At, Sink, WriteFault, Writes};
