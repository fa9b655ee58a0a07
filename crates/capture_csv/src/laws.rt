//! Laws of comma-separated values.
ghost use Rattle.capture_csv.specs.Sampling.{CsvFilesAreSampled, CsvLinesAreEarly, CsvLinesGoOn};
ghost use Rattle.capture_csv.specs.Text.{CsvFilesAreReadBack};

/// The file of a line that is high from the end on is read as the line's edges.
pub fn csv_files_are_read_back()
    ensures { CsvFilesAreReadBack }
{}

/// What is read of a file is its column, sampled at the first instant of each microsecond, and is a capture.
pub fn csv_files_are_sampled()
    ensures { CsvFilesAreSampled }
{}

/// The rows that are left of a file which is read have edges that alternate, at the instant that the reader has come to or later,
/// and an end that is not before them and within the limit.
pub fn csv_lines_go_on()
    ensures { CsvLinesGoOn }
{}

/// A reader within the limit stays there, and so does each edge that it returns.
pub fn csv_lines_are_early()
    ensures { CsvLinesAreEarly }
{}
