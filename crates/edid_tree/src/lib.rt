//! The tree of devices that stand below a television: their names, kinds and ports, what is plugged into
//! what, and the physical addresses that follow from it.
#![tactic(auto)]

mod address;
mod laws;
mod name;
mod node;
mod plug;
mod port;
mod tree;

pub use laws::{amplifiers_are_found, loops_are_found, paths_are_found, ports_have_addresses};
pub use name::is_name;
pub use plug::{AddError, Plug, PlugError, UnplugError};
pub use port::PortEdidError;
pub use tree::Tree;
