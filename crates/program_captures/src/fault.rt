//! Why what is asked for of a capture is not written.
use capture_as_test::AsTestError;
use capture_core::{CaptureError, Cause};
use capture_difference::DifferenceError;
use capture_scale::ScaleError;
use std::alloc::AllocError;
use text_core::{At, WriteFault};
use thiserror::Error;

/// Why what is asked for of a capture is not written.
#[derive(Debug, Drop, Error)]
pub enum MonitorFault {
    /// A capture that is reported as its lines come can't be read on.
    #[error("read fault")]
    Read,
    /// One of its lines is too long, there are too many, or two readings of its audit wait.
    #[error("input too long")]
    TooLong,
    /// The first line at fault.
    #[error("{0}")]
    Line(At<Cause>),
    /// The first line at fault of the second of two captures.
    #[error("other {0}")]
    OtherLine(At<Cause>),
    /// The factor takes the end of a capture past the limit.
    #[error("scale: late")]
    Scaled,
    /// Two captures differ. All of where they do was written.
    #[error("the captures differ")]
    Differ,
    /// A strict audit has a remark. All of it was written.
    #[error("the audit has a remark")]
    Remarked,
    #[error(transparent)]
    Write(#[from] WriteFault),
    #[error("no memory")]
    Memory(#[from(alloc)] AllocError),
}

impl From<CaptureError> for MonitorFault {
    fn from(error: CaptureError) -> MonitorFault {
        match error {
            CaptureError::Fault(fault) => MonitorFault::Line(fault),
            CaptureError::Memory => MonitorFault::Memory(AllocError),
        }
    }
}

impl From<ScaleError> for MonitorFault {
    fn from(error: ScaleError) -> MonitorFault {
        match error {
            ScaleError::OutOfRange => MonitorFault::Scaled,
            ScaleError::Memory => MonitorFault::Memory(AllocError),
        }
    }
}

impl From<AsTestError> for MonitorFault {
    fn from(error: AsTestError) -> MonitorFault {
        match error {
            AsTestError::Write(fault) => MonitorFault::Write(fault),
            AsTestError::Memory => MonitorFault::Memory(AllocError),
        }
    }
}

impl From<DifferenceError> for MonitorFault {
    fn from(error: DifferenceError) -> MonitorFault {
        match error {
            DifferenceError::Write(fault) => MonitorFault::Write(fault),
            DifferenceError::Memory => MonitorFault::Memory(AllocError),
        }
    }
}
