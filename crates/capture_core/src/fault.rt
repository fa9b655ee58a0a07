//! What is wrong with a capture.
use std::alloc::AllocError;
use text_core::At;
use thiserror::Error;

/// What is wrong with a line of a capture.
#[derive(Clone, Copy, Debug, PartialEq, Eq, Error)]
pub enum Cause {
    /// A line of an edge file that is none, or stands after the end, or the line after the last where the end is missing.
    #[error("line")]
    Line,
    /// A word of a dump that is none, or a line that is no event or no row.
    #[error("word")]
    Word,
    /// The time scale of a dump is missing, or is none.
    #[error("scale")]
    Scale,
    /// The wire is missing.
    #[error("signal")]
    Signal,
    /// A time of a dump that is no number, or is past the limit.
    #[error("time")]
    Time,
    /// A time that is past the limit.
    #[error("late")]
    Late,
    /// A time that goes back, or an edge out of turn.
    #[error("order")]
    Order,
    /// The definitions of a dump do not end.
    #[error("end")]
    End,
}

/// Why a capture is not read. Words of a line are parted as the form has it; two gaps have an empty word between them.
#[derive(Debug, Drop, Error)]
pub enum CaptureError {
    #[error("{0}")]
    Fault(At<Cause>),
    #[error("no memory")]
    Memory,
}

impl From<AllocError> for CaptureError {
    ghost use Rattle.std.specs.Prelude.{◌≡◌};
    ghost use Rattle.capture_core.specs.declared.fault.CaptureError.TheVariants.{Memory};

    ghost from_gives = { λ _ error. error ≡ Memory };

    fn from(_error: AllocError) -> CaptureError {
        CaptureError::Memory
    }
}
