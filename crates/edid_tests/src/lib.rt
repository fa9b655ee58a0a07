//! Tests of the crates of EDIDs, of the tree and of DDC: worked values that no contract names.
#![tactic(auto)]

#[cfg(test)]
mod answers;
#[cfg(test)]
mod bases;
#[cfg(test)]
mod blocks;
#[cfg(test)]
mod ddc;
#[cfg(test)]
mod extensions;
#[cfg(test)]
mod neighbours;
#[cfg(test)]
mod physical_addresses;
#[cfg(test)]
mod samples;
#[cfg(test)]
mod sinks;
#[cfg(test)]
mod texts;
#[cfg(test)]
mod trees;
#[cfg(test)]
mod words;
