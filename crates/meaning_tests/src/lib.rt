//! Tests of what the lines of an EDID's text mean: each row of each table once, by values from the standards and from
//! `edid-decode`, and whole texts over writers that fail.
#![tactic(auto)]

#[cfg(test)]
mod abilities;
#[cfg(test)]
mod displays;
#[cfg(test)]
mod rows;
#[cfg(test)]
mod texts;
#[cfg(test)]
mod videos;
