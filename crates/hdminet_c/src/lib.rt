//! Calls for C and other languages that take memory: the emulator, sessions, the report of a script's expectations, the readings
//! of an edge file, and of EDIDs their bytes, their check and their meaning. Each passes on a call of library_run, library_live or
//! library_edid, and says again what that one promises. include/hdminet.h declares them, and has what their callers promise.
#![tactic(auto)]

mod checking;
mod edids;
mod live;
mod run;
mod watching;
