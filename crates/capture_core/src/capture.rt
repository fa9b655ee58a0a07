//! A captured line.
ghost use Rattle.std.specs.Prelude.{◌≡◌};
ghost use Rattle.capture_core.specs.Edges.{Captured, IsCapture};

use line_wave::Edge;
use std::marker::Model;

/// The edges of a line, which alternate from a fall on at rising times, and the instant with which the capture ends: not
/// before the last edge, and within 2,000,000,000,000 microseconds.
#[derive(Debug, Drop)]
pub struct Capture {
    edges: Vec<Edge>,
    end: u64,
}

impl Model for Capture {
    ghost use Rattle.capture_core.specs.Edges.{Captured, IsCapture};

    ghost Value = { Captured };

    ghost view = { λ c. record { edges = c.edges.items; end = c.end } };

    ghost invariant = { λ c. IsCapture c.edges.items c.end };
}

impl Capture {
    /// A capture of these edges.
    pub fn new(edges: Vec<Edge>, end: u64) -> Self
        requires { IsCapture edges.items end }
        ensures { (result.edges ≡ edges.items) × (result.end ≡ end) }
    {
        Capture { edges, end }
    }

    /// The falls and rises, in order.
    pub fn edges(&self) -> &[Edge]
        ensures edges { result.now ≡ self.now.edges }
        ensures capture { IsCapture self.now.edges self.now.end }
    {
        &self.edges
    }

    /// The instant with which the capture ends.
    pub fn end(&self) -> u64
        ensures end { result ≡ self.now.end }
        ensures capture { IsCapture self.now.edges self.now.end }
    {
        self.end
    }
}
