//! Where the lines so far end.

/// Where the lines so far end.
#[derive(Clone, Copy, Debug, PartialEq, Eq)]
pub enum Stage {
    /// In the base block, after so many of its 23 lines.
    Begun(usize),
    /// After whole blocks.
    Whole,
    /// In a CTA block with these flags, which has room for so many bytes more.
    Opened { flags: u8, left: usize },
    /// After the first line of an extension with these flags that has a tail alone.
    Bare(u8),
}
