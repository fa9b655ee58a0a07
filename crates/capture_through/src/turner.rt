//! Edges of a probe that turns the level of the line, as they come.
ghost use Rattle.std.specs.Prelude.{◌≡◌, ◌≤◌, ◌∷◌, ◌++◌, [], List};
ghost use Rattle.std.specs.Option.{option_to_list};
ghost use Rattle.line_wave.specs.declared.Edge.{Edge as EdgeOf};
ghost use Rattle.capture_invert.specs.Inverted.{falls_at_0, turned};
ghost use Rattle.capture_through.specs.Through.{AreFrom, IsEarly, PassedEarly, edges_turned, passed_edges, turned_by};
ghost use Rattle.line_wave.specs.Bounds.{latest_instant};

use crate::passed::Passed;
use line_wave::Edge;

/// Turns each edge, or none.
#[derive(Clone, Copy, Debug, PartialEq, Eq)]
pub struct Turner {
    turns: bool,
    /// Whether it is known if the line falls at 0.
    begun: bool,
}

/// A line that is high at first is low from 0 on where it is turned.
const FALL: Edge = Edge { at: 0, low: true };

fn turned(edge: Edge) -> Edge
    ensures { result ≡ turned edge }
{
    Edge {
        at: edge.at,
        low: !edge.low,
    }
}

impl Turner {
    /// One to which no edge has come.
    pub fn new(turns: bool) -> Self
        ensures { (edges : List EdgeOf) → turned_by result edges ≡ edges_turned turns edges }
    {
        Turner {
            turns,
            begun: false,
        }
    }

    /// An edge has come.
    pub fn edge(&mut self, edge: Edge) -> Passed
        requires { edge.at ≤ latest_instant }
        ensures passes { (rest : List EdgeOf) → turned_by self.old (edge ∷ rest) ≡ passed_edges result ++ turned_by self.new rest }
        ensures early { PassedEarly result }
    {
        if !self.turns {
            return Passed {
                first: None,
                second: Some(edge),
            };
        }
        if self.begun {
            return Passed {
                first: None,
                second: Some(turned(edge)),
            };
        }
        self.begun = true;
        if edge.at == 0 {
            return Passed {
                first: None,
                second: None,
            };
        }
        Passed {
            first: Some(FALL),
            second: Some(turned(edge)),
        }
    }

    /// No edge comes before an instant.
    #[tactic(auto, using(crate::proofs::Steps::from_zero, crate::proofs::Steps::from_map))]
    pub fn calm(&mut self, from: u64) -> Option<Edge>
        ensures passes { (rest : List EdgeOf) → AreFrom from rest → turned_by self.old rest ≡ option_to_list result ++ turned_by self.new rest }
        ensures from { (rest : List EdgeOf) → AreFrom from rest → AreFrom from (turned_by self.new rest) }
        ensures early { IsEarly result }
    {
        if self.turns && !self.begun && from > 0 {
            self.begun = true;
            return Some(FALL);
        }
        None
    }

    /// No edge is left.
    pub fn end(self) -> Option<Edge>
        ensures passes { turned_by self [] ≡ option_to_list result }
        ensures early { IsEarly result }
    {
        if self.turns && !self.begun {
            return Some(FALL);
        }
        None
    }
}
