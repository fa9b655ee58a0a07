//! Why a read over DDC is refused.
use edid_core::EdidError;
use thiserror::Error;

/// Why a read over DDC, or the bytes to read from, are refused.
#[derive(Clone, Copy, Debug, PartialEq, Eq, Error)]
pub enum DdcError {
    /// The segment has no block, so it is not acknowledged.
    #[error("no acknowledgement")]
    NoAck,
    /// What was read is no EDID.
    #[error("no EDID")]
    Edid(EdidError),
    /// The EDID has no HDMI block, so it has no physical address.
    #[error("no HDMI block")]
    NoHdmiBlock,
    /// The bytes are not one block to four of 128 bytes each.
    #[error("no whole number of blocks from one to four")]
    Length,
}
