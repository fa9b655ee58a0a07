//! The bounds of times, in microseconds, and of pulls. They are this profile's own.

/// The latest time of a script: of an event, of a pulse and of its end.
pub const LATEST_EVENT: u64 = 1_000_000_000_000;

/// The latest instant of a captured line, and of a run.
pub const LATEST_INSTANT: u64 = 2_000_000_000_000;

/// The most pulses and pulls of a script, and those of a session that wait.
pub const MOST_PULLS: usize = 16_384;

/// The widest pull of a script, in microseconds.
pub const WIDEST_PULL: u64 = 10_000_000;

/// The latest instant that receivers and senders are told of.
pub const LATEST_HEARD: u64 = 3_000_000_000_000;
