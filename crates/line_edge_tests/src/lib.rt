//! Tests of the wire that goes from edge to edge.
#![tactic(auto)]

#[cfg(test)]
mod driven;
#[cfg(test)]
mod plainly;
#[cfg(test)]
mod rounds;
#[cfg(test)]
mod standing;
