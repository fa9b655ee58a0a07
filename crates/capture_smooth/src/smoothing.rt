//! Pulses and gaps that are too short.
ghost use Rattle.std.specs.Prelude.{◌≡◌, ◌∷◌, ◌++◌, List, IfOk};
ghost use Rattle.std.specs.Option.{option_to_list};
ghost use Rattle.line_wave.specs.declared.Edge.{Edge as EdgeOf};
ghost use Rattle.capture_smooth.specs.Smooth.{smooth_edges};

use capture_core::Capture;
use line_wave::Edge;
use std::alloc::{AllocError, Global};

// Takes the next edge. The one that is held is kept, or both are left out.
fn take(
    kept: &mut Vec<Edge>,
    held: Option<Edge>,
    edge: Edge,
    shortest: u64,
) -> Result<Option<Edge>, AllocError>
    ensures { IfOk result (λ next. (rest : List EdgeOf)
        → kept.old.items ++ smooth_edges shortest (option_to_list held ++ edge ∷ rest) ≡ kept.new.items ++ smooth_edges shortest (option_to_list next ++ rest)) }
{
    let Some(before) = held else {
        return Ok(Some(edge));
    };
    if edge.at.saturating_sub(before.at) < shortest {
        return Ok(None);
    }
    kept.push(before)?;
    Ok(Some(edge))
}

// The edge that is held at the end stays.
fn close(kept: &mut Vec<Edge>, held: Option<Edge>) -> Result<(), AllocError>
    ensures { IfOk result (λ _. kept.new.items ≡ kept.old.items ++ option_to_list held) }
{
    if let Some(last) = held {
        kept.push(last)?;
    }
    Ok(())
}

/// The capture without its pulses and gaps that are shorter than so many microseconds. From the left on, two edges that are
/// closer to one another are left out, both; the next edge is then compared with the one after it.
///
/// # Errors
///
/// No memory.
pub fn smooth_edges(alloc: Global, capture: &Capture, shortest: u64) -> Result<Capture, AllocError>
    ensures edges { IfOk result (λ c. c.edges ≡ smooth_edges shortest capture.now.edges) }
    ensures end { IfOk result (λ c. c.end ≡ capture.now.end) }
{
    let edges = capture.edges();
    let mut kept = Vec::new(alloc);
    let mut held = None;
    for edge in edges {
        held = take(&mut kept, held, *edge, shortest)?;
    }
    close(&mut kept, held)?;
    Ok(Capture::new(kept, capture.end()))
}
