//! The form of a capture, by its first line.
ghost use Rattle.std.specs.Prelude.{◌≡◌};
ghost use Rattle.capture_forms.specs.Forms.{form_of, form_of_line, has_names};

use text_core::{before, byte_at, first_line, len_before, number_in};

/// The form of a capture.
#[derive(Clone, Copy, Debug, PartialEq, Eq)]
pub enum CaptureForm {
    /// An edge file, as `run --edges` writes it.
    Edges,
    /// A Value Change Dump.
    Vcd,
    /// A file of pin events, as cec-ctl stores it.
    Pin,
    /// Comma-separated values, as Saleae's Logic exports them.
    Csv,
}

// Whether a line is no remark, and has a comma and before it no number.
fn has_names(line: &[u8]) -> bool
    ensures { result ≡ has_names line.now }
{
    let comma = len_before(line, b',');
    byte_at(line, 0) != b'#' && comma < line.len() && number_in(before(line, comma)).is_none()
}

// The form of a capture with this first line.
fn form_of_line(line: &[u8]) -> CaptureForm
    ensures { result ≡ form_of_line line.now }
{
    if byte_at(line, 0) == b'$' || before(line, 5) == b"META ".as_slice() {
        CaptureForm::Vcd
    } else if before(line, 21) == b"# cec-ctl --store-pin".as_slice() {
        CaptureForm::Pin
    } else if has_names(line) {
        CaptureForm::Csv
    } else {
        CaptureForm::Edges
    }
}

impl CaptureForm {
    /// The form of a capture, by its first line: `$..` and `META ..` begin a dump, `# cec-ctl --store-pin` a file of pin
    /// events, and a line with a comma and no number before it comma-separated values, where it does not begin with `#`.
    /// All else is an edge file.
    pub fn of(text: &[u8]) -> CaptureForm
        ensures { result ≡ form_of text.now }
    {
        match first_line(text) {
            Some((line, _)) => form_of_line(line),
            None => CaptureForm::Edges,
        }
    }
}
