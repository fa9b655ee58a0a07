//! Tests of expectations, of reports, and of sweeps.
#![tactic(auto)]

#[cfg(test)]
mod captures;
#[cfg(test)]
mod cases;
#[cfg(test)]
mod limits;
#[cfg(test)]
mod names;
#[cfg(test)]
mod rows;
#[cfg(test)]
mod said;
#[cfg(test)]
mod sweep_rows;
#[cfg(test)]
mod sweeps;
