//! A session over a reader and a sink: a topology, a line `script`, and then lines that are answered as they come.
#![tactic(auto)]

mod dialogue;
mod error;
mod hearing;
mod incoming;
mod limits;
mod opening;

pub use dialogue::{session, session_heard};
pub use error::{ScriptEnd, SessionError};
pub use hearing::{RefusalHearer, SilentRefusals};
pub use opening::begin;
