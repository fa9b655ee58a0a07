//! The nominal times of a sender (CEC 5.2), in microseconds, and how often it pulls.

/// The start bit is low for so long (CEC 5.2.1).
pub const START_LOW: u64 = 3700;

/// From the begin of the start bit to the fall of the first slot (CEC 5.2.1).
pub const FIRST_SLOT: u64 = 4500;

/// From the fall of a slot to that of the next one (CEC 5.2.2).
pub const SLOT: u64 = 2400;

/// A 1 is low for so long (CEC 5.2.2).
pub const LOW_OF_1: u64 = 600;

/// A 0 is low for so long (CEC 5.2.2).
pub const LOW_OF_0: u64 = 1500;

/// The most low stretches of a sender: its start bit, and a slot for each of ten bits of 16 blocks (CEC 6).
pub const MOST_SENT: usize = 161;

/// The most low stretches of a round's line, and of what one of those who pull it does. A sender pulls [`MOST_SENT`] times at
/// most; the others have room for the acknowledge bits of 16 blocks, a low drive, and the pulses that reach into the round.
pub const MOST_STRETCHES: usize = 192;
