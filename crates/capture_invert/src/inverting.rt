//! The edges of a line whose probe turns its level.
ghost use Rattle.std.specs.Prelude.{◌≡◌, ◌++◌, map, IfOk};
ghost use Rattle.capture_invert.specs.Inverted.{inverted_edges, turned};

use capture_core::Capture;
use line_wave::Edge;
use std::alloc::{AllocError, Global};

fn turned(edge: Edge) -> Edge
    ensures { result ≡ turned edge }
{
    Edge {
        at: edge.at,
        low: !edge.low,
    }
}

// A line that is high at first is low from 0 on where it is turned, and one that falls at 0 is high. Returns the edges that are
// left to turn.
fn begin<'a>(kept: &mut Vec<Edge>, edges: &'a [Edge]) -> Result<&'a [Edge], AllocError>
    ensures { IfOk result (λ rest. kept.old.items ++ inverted_edges edges.now ≡ kept.new.items ++ map turned rest.now) }
{
    match edges {
        [first, rest @ ..] if first.at == 0 => Ok(rest),
        _ => {
            kept.push(Edge { at: 0, low: true })?;
            Ok(edges)
        }
    }
}

/// The capture of a probe that turns the level of the line: low wherever the line of this one is high, and high wherever it is
/// low.
///
/// # Errors
///
/// No memory.
pub fn invert(alloc: Global, capture: &Capture) -> Result<Capture, AllocError>
    ensures edges { IfOk result (λ c. c.edges ≡ inverted_edges capture.now.edges) }
    ensures end { IfOk result (λ c. c.end ≡ capture.now.end) }
{
    let mut kept = Vec::new(alloc);
    let rest = begin(&mut kept, capture.edges())?;
    for edge in rest {
        kept.push(turned(*edge))?;
    }
    Ok(Capture::new(kept, capture.end()))
}
