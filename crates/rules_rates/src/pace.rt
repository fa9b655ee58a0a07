//! How fast a format is.

/// How fast a format is: its clock, and what a line and a field have of it, blanking among them.
#[derive(Clone, Copy, Debug, PartialEq, Eq)]
pub struct Pace {
    /// The pixel clock in kHz.
    pub clock: u32,
    /// The pixels of a line.
    pub pixels: u16,
    /// The half lines of a field.
    pub half_lines: u16,
}
