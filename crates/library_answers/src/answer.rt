//! What a call that fills a room answers.

/// How a call went that puts bytes into the room that its caller lends.
#[repr(C)]
#[derive(Clone, Copy, Debug, PartialEq, Eq)]
pub struct Answer {
    /// The number of a `Code`: 0 where it is done.
    pub code: u32,
    /// The line at fault, counted from 1, of a text of several lines, or 0.
    pub line: u64,
    /// How many bytes were put into the room, or would have to be where it is too small; 0 after any other refusal.
    pub length: usize,
}
