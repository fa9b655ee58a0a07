//! Comma-separated values of the CEC line, as Saleae's Logic exports them: from the stretches of a line to a file, and from a
//! file to the edges of the line.
#![tactic(auto)]

mod clock;
mod column;
mod fields;
mod laws;
mod level;
mod nanos;
mod reader;
mod reading;
mod row;
mod writing;

pub use column::{Column, TimeUnit, column_of};
pub use laws::{
    csv_files_are_read_back, csv_files_are_sampled, csv_lines_are_early, csv_lines_go_on,
};
pub use reader::CsvReader;
pub use reading::read_csv;
pub use writing::{add_changes, add_head, add_last};
