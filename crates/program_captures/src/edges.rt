//! The line of a capture, as an edge file.
ghost use Rattle.std.specs.Prelude.{OnOk};
ghost use Rattle.text_core.specs.Adds.{Adds};
ghost use Rattle.program_captures.specs.Captures.{form_of};
ghost use Rattle.program_captures.specs.Edges.{WritesEdges, edge_line, edges_text};
ghost use Rattle.std.specs.List.{flat_map};
ghost use Rattle.std.specs.Io.KnownBytes.{Appends};

use crate::capture::{as_read, form_of};
use crate::fault::MonitorFault;
use capture_core::Capture;
use capture_forms::{CaptureForm, add_end, read_capture};
use line_wave::Edge;
use std::alloc::Global;
use text_core::{Counted, Piece, Sink, WriteFault};

// Adds the line of an edge.
fn add_edge<S: Sink>(out: &mut Counted<'_, S>, edge: &Edge)
    ensures { Adds out.old out.new (edge_line edge.now) }
{
    let level = if edge.low { " 0\n" } else { " 1\n" };
    out.add_line(&[Piece::Decimal(edge.at), Piece::Text(level)]);
}

// Adds the lines of edges, up to a fault of the sink.
fn add_edges<S: Sink>(out: &mut Counted<'_, S>, edges: &[Edge])
    ensures { Adds out.old out.new (flat_map edge_line edges.now) }
{
    for edge in edges {
        add_edge(out, edge);
        if out.has_failed() {
            return;
        }
    }
}

// Writes the edges of a capture, and its end.
fn write_edges_of<W: Sink>(capture: &Capture, out: &mut W) -> Result<(), WriteFault>
    ensures { OnOk result (Appends (W.contents out.old) (W.contents out.new) (edges_text capture.now.edges capture.now.end)) }
{
    let mut text = Counted::new(out);
    add_edges(&mut text, capture.edges());
    add_end(&mut text, CaptureForm::Edges, capture.end());
    let done = text.written();
    // No effect at run time. The proof reads what `out` holds from the sink that comes back.
    let _below = text.into_sink();
    match done {
        Ok(_) => Ok(()),
        Err(fault) => Err(fault),
    }
}

/// Writes the line of a capture as an edge file: the capture in a form, or in the one that its first line reports, of the wire of a
/// name, or the first where that is empty, with its levels turned or not, its times multiplied by so many ten-thousandths, and without
/// pulses and gaps that are too short.
pub fn write_edges<W: Sink>(
    alloc: Global,
    form: Option<CaptureForm>,
    signal: &[u8],
    inverted: bool,
    scale: u64,
    glitch: u64,
    input: &[u8],
    out: &mut W,
) -> Result<(), MonitorFault>
    ensures { OnOk result (WritesEdges (form_of form input.now) signal.now inverted scale glitch input.now (W.contents out.old) (W.contents out.new)) }
{
    let whole = read_capture(alloc, form_of(form, input), signal, input)?;
    let kept = as_read(alloc, inverted, scale, glitch, whole)?;
    write_edges_of(&kept, out)?;
    Ok(())
}
