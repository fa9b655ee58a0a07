//! Why the audit of a capture is not followed any further.
use capture_core::Cause;
use text_core::At;
use thiserror::Error;

/// Why the audit of a capture is not followed any further.
#[derive(Clone, Copy, Debug, Drop, PartialEq, Eq, Error)]
pub enum FollowAuditError {
    #[error("read fault")]
    Read,
    /// A line has more than 4,096 bytes, or there are more than 18,446,744,073,709,551,615 lines.
    #[error("input too long")]
    TooLong,
    /// A reading has ended before it is known what there is to remark of the one before, which no line of the bus was seen to do.
    #[error("two readings wait")]
    Waiting,
    /// The first line at fault.
    #[error("{0}")]
    Capture(At<Cause>),
    /// A `put` took none. So many bytes were handed on.
    #[error("write fault after {0} bytes")]
    Write(u128),
    #[error("no memory")]
    Memory,
}
