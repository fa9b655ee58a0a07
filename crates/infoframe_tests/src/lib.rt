//! Tests of InfoFrames against EDIDs: worked values that no contract names, and each row of the tables of fields.
#![tactic(auto)]

#[cfg(test)]
mod displays;
#[cfg(test)]
mod fields;
#[cfg(test)]
mod frames;
#[cfg(test)]
mod rows;
#[cfg(test)]
mod texts;
