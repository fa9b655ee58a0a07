//! Tests of the texts of frames, topologies and scripts, and of forms of lines: texts and bytes, written by hand from the standard's tables.
#![tactic(auto)]

#[cfg(test)]
mod cases;
#[cfg(test)]
mod error_texts;
#[cfg(test)]
mod forms;
#[cfg(test)]
mod lists;
#[cfg(test)]
mod messages;
#[cfg(test)]
mod scripts;
#[cfg(test)]
mod shapes;
#[cfg(test)]
mod texts;
#[cfg(test)]
mod writers;
