//! How a reading ended.
use line_frames::Ending;

/// How a reading ended: `until` is the last microsecond that belongs to it.
#[derive(Clone, Copy, Debug, PartialEq, Eq)]
pub struct Ended {
    pub ending: Ending,
    pub at: u64,
    pub until: u64,
}
