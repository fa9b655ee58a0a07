//! Tests of the program: what it does, over readers and writers that it is handed.
#![tactic(auto)]

#[cfg(test)]
mod tests;
