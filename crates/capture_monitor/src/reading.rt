//! From an edge file to a capture.
ghost use Rattle.std.specs.Prelude.{◌≡◌};
ghost use Rattle.capture_monitor.specs.EdgeFile.{file_of};
ghost use Rattle.capture_monitor.specs.Reading.{GivesEdges, GivesFile, fault_reported};

use crate::edge_file::{EdgeFault, EdgeLine, EdgeLines};
use capture_core::Capture;
use line_wave::Edge;
use std::alloc::Global;
use thiserror::Error;

/// Why an edge file is not read.
#[derive(Clone, Copy, Debug, Drop, PartialEq, Eq, Error)]
pub enum EdgeError {
    /// The first line at fault, counted from 1, is ill-formed, its time is past the limit, or it stands after the
    /// end. Without an end it is the line after the last. The word at fault counts from 0; where it is missing, it has the
    /// number that it would have.
    #[error("line {line}: line")]
    Line { line: u64, word: usize },
    /// The first line at fault is an edge out of turn, or its time goes back.
    #[error("line {line}: order")]
    Order { line: u64, word: usize },
    #[error("no memory")]
    Memory,
}

fn reported_so(fault: EdgeFault) -> EdgeError
    ensures { result ≡ fault_reported fault }
{
    match fault {
        EdgeFault::Line { line, word } => EdgeError::Line { line, word },
        EdgeFault::Order { line, word } => EdgeError::Order { line, word },
    }
}

// Reads the edges, and the end.
fn edges_of(alloc: Global, text: &[u8]) -> Result<(Vec<Edge>, u64), EdgeError>
    ensures { GivesEdges result (file_of text.now) }
{
    let mut edges = Vec::new(alloc);
    let mut lines = EdgeLines::new(text);
    'edges: loop {
        match lines.next() {
            Err(fault) => return Err(reported_so(fault)),
            Ok(line) => match line {
                EdgeLine::Edge(edge) => {
                    if edges.push(edge).is_err() {
                        return Err(EdgeError::Memory);
                    }
                }
                EdgeLine::End(end) => return Ok((edges, end)),
            },
        }
    }
}

/// Reads an edge file: its edges, and the instant with which it ends. Lines that are empty or begin with `#` are skipped,
/// but counted.
///
/// # Errors
///
/// `Line` or `Order` with the first line at fault and its word, or no memory.
pub fn read_edges(alloc: Global, text: &[u8]) -> Result<Capture, EdgeError>
    ensures { GivesFile result (file_of text.now) }
{
    let (edges, end) = edges_of(alloc, text)?;
    Ok(Capture::new(edges, end))
}
