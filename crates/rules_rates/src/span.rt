//! A least and a greatest rate.

/// A least and a greatest rate.
#[derive(Clone, Copy, Debug, PartialEq, Eq)]
pub struct RateSpan {
    pub least: u64,
    pub greatest: u64,
    /// Whether no rate is above the greatest: it is as much as there is room for.
    pub is_open: bool,
}
