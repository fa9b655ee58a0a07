//! Tests of the rules of EDIDs, and of the ways in which EDIDs are written: worked values that no contract names.
#![tactic(auto)]

#[cfg(test)]
mod answers;
#[cfg(test)]
mod contents;
#[cfg(test)]
mod displays;
#[cfg(test)]
mod explains;
#[cfg(test)]
mod links;
#[cfg(test)]
mod records;
#[cfg(test)]
mod rules;
#[cfg(test)]
mod timings;
#[cfg(test)]
mod ways;
