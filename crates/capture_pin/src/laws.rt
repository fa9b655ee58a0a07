//! Laws of files of pin events.
ghost use Rattle.capture_pin.specs.Sampling.{PinFilesAreSampled, PinLinesAreEarly, PinLinesGoOn};
ghost use Rattle.capture_pin.specs.Text.{PinFilesAreReadBack};

/// The pin file of a line that is high from the end on is read as the line's edges.
pub fn pin_files_are_read_back()
    ensures { PinFilesAreReadBack }
{}

/// What is read of a pin file is its line, sampled at the first instant of each microsecond, and is a capture.
pub fn pin_files_are_sampled()
    ensures { PinFilesAreSampled }
{}

/// The lines that are left of a file which is read have edges that alternate, at the instant that the reader has come to or later,
/// and an end that is not before them and within the limit.
pub fn pin_lines_go_on()
    ensures { PinLinesGoOn }
{}

/// A reader within the limit stays there, and so does each edge that it returns.
pub fn pin_lines_are_early()
    ensures { PinLinesAreEarly }
{}
