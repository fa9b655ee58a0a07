//! What is shown of the readings of a capture.
use record_core::Form;

/// What is shown of the readings of a capture.
#[derive(Clone, Copy, Debug)]
pub struct ReadingView {
    /// Their lines, or their objects.
    pub written: Form,
    /// Whether one line stands for those that begin before the line of the bus is first idle.
    pub from_idle: bool,
    /// Whether bad starts one after another are one line.
    pub folds: bool,
}
