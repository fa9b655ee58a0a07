//! The words of a command line, read exactly: what each line without a slip asks for.
#![tactic(auto)]

mod at_fault;
mod check_flags;
mod dis_flags;
mod json_flags;
mod line;
mod mon_flags;
mod named;
mod operands;
mod run_flags;
mod subcommand;

pub use at_fault::{Valued, value_at_fault};
pub use line::asked_by;
pub use named::named_in;
pub use operands::{CommandLine, asked_on, is_report, line_of};
pub use subcommand::{Subcommand, subcommand_of};
