//! Files of pin events, as cec-ctl stores and analyses them (`--store-pin`, `--analyze-pin`): from a file to the edges of
//! the CEC line, and the lines of such a file, round by round.
#![tactic(auto)]

mod laws;
mod line;
mod lost;
mod reader;
mod reading;
mod round;
mod writing;

pub use laws::{
    pin_files_are_read_back, pin_files_are_sampled, pin_lines_are_early, pin_lines_go_on,
};
pub use lost::lost_lines;
pub use reader::PinReader;
pub use reading::read_pin;
pub use round::add_round;
pub use writing::{add_fall, add_head, add_rise};
