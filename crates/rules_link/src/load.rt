//! A format as a link carries it.

/// A format as a link carries it.
#[derive(Clone, Copy, Debug, PartialEq, Eq)]
pub struct Load {
    /// The pixel clock in kHz.
    pub clock: u32,
    /// The pixels of a line that are shown; 0 where they are not known.
    pub width: u16,
    /// The pixels of a line, blanking among them.
    pub pixels: u16,
    /// Whether it is in 4:2:0 alone, in half as many characters.
    pub is_halved: bool,
}
