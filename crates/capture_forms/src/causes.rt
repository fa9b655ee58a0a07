//! What is wrong with an edge file, as one of the forms of a capture.
ghost use Rattle.std.specs.Prelude.{◌≡◌};
ghost use Rattle.capture_forms.specs.Captures.{edge_error};

use capture_core::{CaptureError, Cause};
use capture_monitor::EdgeError;
use text_core::At;

/// What an error of an edge file is as one of a capture.
pub fn edge_error(error: EdgeError) -> CaptureError
    ensures { result ≡ edge_error error }
{
    match error {
        EdgeError::Line { line, word } => {
            CaptureError::Fault(At {
                line,
                cause: Cause::Line,
                word,
            })
        }
        EdgeError::Order { line, word } => {
            CaptureError::Fault(At {
                line,
                cause: Cause::Order,
                word,
            })
        }
        EdgeError::Memory => CaptureError::Memory,
    }
}
