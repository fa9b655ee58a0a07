//! Whether a run is as the expectations of its script have it.
#![tactic(auto)]

mod checking;
mod group;
mod laws;
mod needs;
mod plain;
mod report;
mod run;
mod states;
mod times;
mod told;
mod watch;

pub use checking::{CheckError, Tally, check, tally_of, verdicts};
pub use laws::{cut_scripts_are_read, tallies_count_verdicts};
pub use report::{ReportDraft, add_plan, add_test, open_report};
