//! The lines of a room's texts: each form once, as a row of a table.
#![tactic(auto)]

mod expect;
mod laws;
mod script;
mod session;
mod step;
mod topology;

pub use expect::{EXPECT, ExpectVerb, How};
pub use laws::{
    expect_rows_are_apart, script_rows_are_apart, session_rows_are_apart, step_rows_are_apart,
    topology_rows_are_apart,
};
pub use script::{SCRIPT, ScriptVerb};
pub use session::{SESSION, SessionVerb};
pub use step::{STEPS, StepVerb};
pub use topology::{TOPOLOGY, TopologyVerb};
