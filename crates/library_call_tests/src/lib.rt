//! Tests of what calls for other languages answer: each number that a call of include/hdminet_wire.h returns, and the states that
//! their callers keep.
#![tactic(auto)]

#[cfg(test)]
mod answers;
#[cfg(test)]
mod edids;
#[cfg(test)]
mod fates;
#[cfg(test)]
mod frames;
#[cfg(test)]
mod readings;
#[cfg(test)]
mod receivers;
#[cfg(test)]
mod reports;
#[cfg(test)]
mod rooms;
#[cfg(test)]
mod runs;
#[cfg(test)]
mod samples;
#[cfg(test)]
mod senders;
#[cfg(test)]
mod sessions;
#[cfg(test)]
mod states;
#[cfg(test)]
mod texts;
