//! Tests of captures as their own tests, of the difference of two captures, and of replays, also over writers that fail.
#![tactic(auto)]

#[cfg(test)]
mod captures;
#[cfg(test)]
mod pairs;
#[cfg(test)]
mod replays;
