//! How a capture is read.
use line_reading::Windows;

/// How a capture is read.
#[derive(Clone, Copy, Debug)]
pub struct Reception {
    pub windows: Windows,
    /// Whether its levels are read the other way round.
    pub inverted: bool,
    /// Pulses and gaps shorter than so many microseconds are passed over.
    pub glitch: u64,
}
