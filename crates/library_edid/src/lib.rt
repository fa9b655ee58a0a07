//! What the calls of EDIDs for C and other languages do that take memory: an EDID of its text, its check and its meaning. Each
//! passes on a call of the libraries below, and says again what that one promises. hdminet_c exports them.
#![tactic(auto)]

mod edids;

pub use edids::{edid_refused, put_edid_bytes, put_edid_findings, put_edid_meaning, text_refused};
