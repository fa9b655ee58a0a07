//! Tests of ELDs: the bytes that Linux's drivers make of an EDID, the words of an ELD, and what is none.
#![tactic(auto)]

#[cfg(test)]
mod elds;
