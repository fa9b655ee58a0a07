//! A round's line, by one receiver, its senders, those who follow and the last pull.
#![tactic(auto)]

mod edge_wire;
mod followers;
mod reading;
mod senders;
mod wakes;

pub use edge_wire::EdgeWire;
