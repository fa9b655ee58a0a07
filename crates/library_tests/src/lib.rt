//! Tests of hdminet_library: that programs in Rattle reach the calls by it.
#![tactic(auto)]

#[cfg(test)]
mod calls;
