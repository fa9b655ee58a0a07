//! Tests of the crates of the wire and of the monitor: worked lines, frames and pulses, and edge files, some of a generator.
#![tactic(auto)]

#[cfg(test)]
mod frames;
#[cfg(test)]
mod lines;
#[cfg(test)]
mod monitors;
#[cfg(test)]
mod named;
#[cfg(test)]
mod plain_readings;
#[cfg(test)]
mod random_files;
#[cfg(test)]
mod receivers;
#[cfg(test)]
mod senders;
#[cfg(test)]
mod wide;
#[cfg(test)]
mod words;
