//! What a session may have at most.

/// The most bytes of a line, without its end.
pub(crate) use live_incoming::LONGEST_LINE;

/// The most bytes of a topology, each line with its end.
pub(crate) const LONGEST_TOPOLOGY: usize = 1_048_576;

/// The most lines after the line `script`.
pub(crate) const MOST_LINES: u64 = 18_446_744_073_709_551_615;
