//! The program: its input, its output, its faults, over files, readers and sinks that it is handed.
#![tactic(auto)]

mod capture_test;
mod check;
mod expectations;
mod explained;
mod fault;
mod files;
mod live;
mod objects;
mod perform;
pub mod program;
mod progress;
mod reports;
mod run;
mod said;
mod status;
mod told;
mod waited;

pub use fault::ProgramFault;
pub use status::write_fault;
