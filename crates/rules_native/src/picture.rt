//! The size of a picture.

/// The pixels of a line, the lines of a picture, of both fields where it is interlaced.
#[derive(Clone, Copy, Default, Debug, PartialEq, Eq)]
pub struct Picture {
    pub width: u16,
    pub height: u16,
    pub interlaced: bool,
}
