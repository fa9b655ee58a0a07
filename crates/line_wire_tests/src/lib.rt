//! Tests of the wire of one receiver and its senders.
#![tactic(auto)]

#[cfg(test)]
mod dense;
#[cfg(test)]
mod pulled;
