//! From a file of pin events to the edges of a line.
ghost use Rattle.capture_core.specs.Reading.{Gives};
ghost use Rattle.capture_pin.specs.Pin.{edges_in};

use crate::reader::PinReader;
use capture_core::{Capture, CaptureError, read_lines};
use std::alloc::Global;

/// Reads a file of pin events. Times are counted from its `# start_monotonic`, or from 0 without one, and rounded up to whole
/// microseconds; of several events in one the last counts, and a level that is reported again is none. Before its first event
/// the line counts as high. The capture ends with the last event.
///
/// # Errors
///
/// The first line at fault, or no memory.
pub fn read_pin(alloc: Global, text: &[u8]) -> Result<Capture, CaptureError>
    ensures { Gives result (edges_in text.now) }
{
    let (edges, end) = read_lines(alloc, &mut PinReader::new(), 1, text)?;
    Ok(Capture::new(edges, end))
}
