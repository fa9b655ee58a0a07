//! Timings by the numbers of tables, and by VESA's formulas: Coordinated Video Timings 1.2 (CVT), plain and with reduced blanking, and the Generalized Timing
//! Formula 1.1 (GTF). Pictures come whole, without margins.
#![tactic(auto)]

mod coordinated;
mod formula;
mod generalized;
mod mode;
mod reduced;
mod tables;
mod timing;

pub use formula::Formula;
pub use mode::{Mode, ModeFault};
pub use tables::{code_timing, monitor_timing};
pub use timing::ModeTiming;
