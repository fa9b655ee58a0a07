//! Tests of data blocks: which bits are reserved, how many bytes a block lacks or has left over, where its fields stand, with values
//! from the standards, and what the extended ones mean, as `edid-decode` reads the same bytes; and of dumps as tools print them, with
//! other text around, and broken.
#![tactic(auto)]

#[cfg(test)]
mod blocks;
#[cfg(test)]
mod codes;
#[cfg(test)]
mod extended;
#[cfg(test)]
mod forms;
#[cfg(test)]
mod further;
#[cfg(test)]
mod places;
#[cfg(test)]
mod printed;
#[cfg(test)]
mod reading;
