//! Tests of captures: how they are read, followed, written and audited, and of a line that is read wide.
#![tactic(auto)]

#[cfg(test)]
mod auditing;
#[cfg(test)]
mod audits;
#[cfg(test)]
mod chatter;
#[cfg(test)]
mod following;
#[cfg(test)]
mod objects;
#[cfg(test)]
mod piece_lines;
#[cfg(test)]
mod piece_objects;
#[cfg(test)]
mod piece_spelling;
#[cfg(test)]
mod reading;
#[cfg(test)]
mod rows;
#[cfg(test)]
mod writing;
