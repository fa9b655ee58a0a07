//! Tests of records: each value as a word and in an object, strings, and writers that are short or fail.
#![tactic(auto)]

#[cfg(test)]
mod records;
#[cfg(test)]
mod strings;
#[cfg(test)]
mod writers;
