//! From a dump to the edges of a line.
ghost use Rattle.capture_core.specs.Reading.{Gives};
ghost use Rattle.capture_vcd.specs.Dump.{edges_in};

use crate::reader::VcdReader;
use capture_core::{Capture, CaptureError, read_lines};
use std::alloc::Global;

/// Reads a dump: the edges of its first wire of this name, or of its first wire where the name is empty. A time of the
/// dump is rounded up to a whole microsecond, and of several changes in one the last counts. Before its first change the
/// line counts as high, and at `z` and `x` it is high. The capture ends with the dump's last time.
///
/// # Errors
///
/// The first line at fault, or no memory.
pub fn read_vcd(alloc: Global, name: &[u8], text: &[u8]) -> Result<Capture, CaptureError>
    ensures { Gives result (edges_in name.now text.now) }
{
    let (edges, end) = read_lines(alloc, &mut VcdReader::new(name), 1, text)?;
    Ok(Capture::new(edges, end))
}
