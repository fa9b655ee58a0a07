//! What the calls for C and other languages do that take memory: the emulator, the report of a script's expectations, and the
//! readings of an edge file. Each passes on a call of the libraries below, and says again what that one promises. hdminet_c
//! exports them.
#![tactic(auto)]

mod checking;
mod run;
mod watching;

pub use checking::{TestCounts, check_refused, put_report};
pub use run::{put_edges, put_trace, run_refused};
pub use watching::{put_readings, watch_refused};
