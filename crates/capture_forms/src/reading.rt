//! From a capture in any form to the edges of a line.
ghost use Rattle.capture_monitor.specs.EdgeFile.{file_of};
ghost use Rattle.capture_core.specs.Reading.{Gives};
ghost use Rattle.capture_forms.specs.Captures.{capture_in, of_edges};

use crate::causes::edge_error;
use crate::form::CaptureForm;
use capture_core::{Capture, CaptureError};
use capture_csv::read_csv;
use capture_monitor::read_edges;
use capture_pin::read_pin;
use capture_vcd::read_vcd;
use std::alloc::Global;

fn edges(alloc: Global, text: &[u8]) -> Result<Capture, CaptureError>
    ensures { Gives result (of_edges (file_of text.now)) }
{
    match read_edges(alloc, text) {
        Ok(capture) => Ok(capture),
        Err(error) => Err(edge_error(error)),
    }
}

/// Reads a capture in this form. The signal is the name of the wire, where the form has names; an empty one stands for the
/// first wire.
///
/// # Errors
///
/// The first line at fault, counted from 1, or no memory.
pub fn read_capture(
    alloc: Global,
    form: CaptureForm,
    signal: &[u8],
    text: &[u8],
) -> Result<Capture, CaptureError>
    ensures { Gives result (capture_in form signal.now text.now) }
{
    match form {
        CaptureForm::Edges => edges(alloc, text),
        CaptureForm::Vcd => read_vcd(alloc, signal, text),
        CaptureForm::Pin => read_pin(alloc, text),
        CaptureForm::Csv => read_csv(alloc, signal, text),
    }
}
