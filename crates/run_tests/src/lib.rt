//! Tests of the network and of steps: rooms event by event, steps that are refused or cut, and sweeps over instants. Worked runs and
//! steps stand in tests/cases: traces.txt, pulls.txt and steps.txt.
#![tactic(auto)]

#[cfg(test)]
mod crowds;
#[cfg(test)]
mod named;
#[cfg(test)]
mod network_edges;
#[cfg(test)]
mod networks;
#[cfg(test)]
mod rooms;
#[cfg(test)]
mod step_writers;
#[cfg(test)]
mod steps;
#[cfg(test)]
mod sweeps;
