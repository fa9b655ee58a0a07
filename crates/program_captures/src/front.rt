//! The front of a long capture.
ghost use Rattle.std.specs.Prelude.{◌<◌, length};
ghost use Rattle.capture_core.specs.Edges.{IsCapture};

use capture_core::Capture;
use line_wave::Edge;
use std::alloc::{AllocError, Global};

// A capture of the first edges of another one, up to the edge that comes then.
fn front_by(alloc: Global, edges: &[Edge], count: usize, end: u64) -> Result<Capture, AllocError>
    requires capture { IsCapture edges.now end }
    requires some { count < length edges.now }
{
    // No effect at run time. The proof reads how all edges end.
    let _whole = end;
    let end = edges[count].at;
    let front = edges[..count].to_vec(alloc)?;
    Ok(Capture::new(front, end))
}

/// The front of a capture that has more than so many edges: it ends with the edge that comes then.
///
/// # Errors
///
/// No memory for the front.
pub(crate) fn front_of(alloc: Global, count: usize, whole: Capture) -> Result<Capture, AllocError> {
    let end = whole.end();
    let edges = whole.edges();
    if edges.len() <= count {
        return Ok(whole);
    }
    front_by(alloc, edges, count, end)
}
