//! Calls for C and other languages that take no memory and make no system call: frames and their texts, EDIDs, a receiver
//! and a sender of the CEC line. Each passes on a call of library_wire, and says again what that one promises.
//! include/hdminet_wire.h declares them, and has what their callers promise.
#![tactic(auto)]

mod edids;
mod fate;
mod frames;
mod readings;
mod receiver;
mod sender;
mod version;
