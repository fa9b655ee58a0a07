//! A place among the edges of a capture.
ghost use Rattle.std.specs.Prelude.{◌≡◌};
ghost use Rattle.audit_widths.specs.Lows.{gone_to, place_of};

use line_wave::Edge;

/// A place among the edges of a capture: those that are left.
#[derive(Clone, Copy, Debug)]
pub struct Cursor<'a> {
    edges: &'a [Edge],
}

impl<'a> Cursor<'a> {
    /// Before all edges.
    pub fn new(edges: &'a [Edge]) -> Self
        ensures { place_of result ≡ edges.now }
    {
        Cursor { edges }
    }

    /// The edges that are left.
    pub fn edges(&self) -> &'a [Edge]
        ensures { result.now ≡ place_of self.now }
    {
        self.edges
    }

    /// Passes over the edges before an instant.
    pub fn go_to(&mut self, begin: u64)
        ensures { place_of self.new ≡ gone_to begin (place_of self.old) }
    {
        'edges: while let [edge, after @ ..] = self.edges {
            if edge.at >= begin {
                return;
            }
            self.edges = after;
        }
    }
}
