//! The limits of numbers in texts.

/// The latest instant of a text, in microseconds.
pub const LATEST: u64 = 1_000_000_000_000;

/// The most ports that a device has.
pub const MOST_PORTS: u64 = 15;

/// The greatest byte.
pub const LAST_BYTE: u64 = 255;

/// What a port above it counts as: no device has it.
pub const LAST_PORT: u64 = 255;
