//! Tests of runs and sessions as they are written: over a sink that hands each `put` on, into writers that fail, as objects of JSON, and of who drives the line.
#![tactic(auto)]

#[cfg(test)]
mod emulated;
#[cfg(test)]
mod faults;
#[cfg(test)]
mod pipes;
#[cfg(test)]
mod rooms;
#[cfg(test)]
mod rounds;
#[cfg(test)]
mod runs;
#[cfg(test)]
mod writing;
