//! What is wrong with a range of instants in the place of a time.
use thiserror::Error;

/// Why a range of instants is refused: the first of these that applies.
#[derive(Clone, Copy, Debug, Drop, PartialEq, Eq, Error)]
pub enum RangeCause {
    /// A time or a step that is no number, or above 1,000,000,000,000; a step of 0.
    #[error("number")]
    Number,
    /// It ends before it begins.
    #[error("order")]
    Order,
    /// It is the second one, or has more than 1,000,000 instants.
    #[error("range")]
    Range,
    /// At one of its instants its line is out of order with the line of this number.
    #[error("order with line {0}")]
    Crosses(u64),
}
