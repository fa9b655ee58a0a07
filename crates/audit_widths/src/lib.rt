//! How long a captured line was low, and how long from fall to fall: the widths of a reading, and which of them are out of
//! their windows (HDMI 1.4 CEC 5.2.1, 5.2.2 and 7.4).
#![tactic(auto)]

mod cursor;
mod low;
mod misfit;
mod spread;

pub use cursor::Cursor;
pub use low::{Low, first_low, lows_before};
pub use misfit::{
    DRIVE, Misfit, SlotWidth, WidthWindow, drive_within, low_drive, low_misfit, total_misfit,
};
pub use spread::{Spread, Widths};
