//! Tests of single devices, and of the tables that they go by.
#![tactic(auto)]

#[cfg(test)]
mod addresses;
#[cfg(test)]
mod cases;
#[cfg(test)]
mod devices;
#[cfg(test)]
mod effect_rows;
#[cfg(test)]
mod key_rows;
#[cfg(test)]
mod table_rows;
