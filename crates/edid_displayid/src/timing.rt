//! A format in the form of DisplayID.

/// A timing in the form of DisplayID.
#[derive(Clone, Copy, Debug, PartialEq, Eq)]
pub struct TypedTiming {
    /// The pixel clock in kHz.
    pub clock: u64,
    /// The pixels of a line that are shown.
    pub width: u64,
    /// The pixels of a line, blanking among them.
    pub pixels: u64,
    /// The lines, blanking among them.
    pub lines: u64,
    /// Whether a picture is two fields.
    pub is_interlaced: bool,
}

/// A format by its numbers or by a video code of CTA-861.
#[derive(Clone, Copy, Debug, PartialEq, Eq)]
pub enum TypedFormat {
    Timing(TypedTiming),
    Code(u8),
}

impl Default for TypedFormat {
    fn default() -> Self {
        TypedFormat::Code(0)
    }
}
