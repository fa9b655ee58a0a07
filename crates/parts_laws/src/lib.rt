//! Laws about what a receiver and a sender keep, in plain numbers.
#![tactic(auto)]

mod laws;

pub use laws::{
    receivers_are_their_parts, receivers_have_one_form, senders_are_their_parts,
    senders_have_one_form,
};
