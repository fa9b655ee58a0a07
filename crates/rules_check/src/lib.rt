//! What is wrong with an EDID that can be read: the rules of the standards that it breaks, each by a definition.
#![tactic(auto)]

mod checking;
mod laws;
mod rule;
mod text;

pub use checking::{MAX_FINDINGS, check};
pub use laws::findings_are_what_is_broken;
pub use rule::{Finding, Origin, Rule, Severity, TimingRule};
pub use text::{has_failure, rule_name, timing_rule_name, write_findings};
