//! Edges that are turned, or not, and then smoothed, as they come.
ghost use Rattle.std.specs.Prelude.{◌≡◌, ◌≤◌, ◌∷◌, ◌++◌, [], List};
ghost use Rattle.line_wave.specs.Bounds.{latest_instant};
ghost use Rattle.line_wave.specs.declared.Edge.{Edge as EdgeOf};
ghost use Rattle.capture_through.specs.Through.{HoldsEarly, IsCalm, IsEarly, IsKnown, PassedEarly, Passes, PassesCalm, PassesMaybe, left_of, made_of, passed_edges};

use crate::passed::Passed;
use crate::smoother::Smoother;
use crate::turner::Turner;
use line_wave::Edge;

/// What a line passes through. It takes no memory.
#[derive(Clone, Copy, Debug, PartialEq, Eq)]
pub struct Through {
    turner: Turner,
    smoother: Smoother,
}

impl Through {
    /// One to which no edge has come.
    pub fn new(inverted: bool, shortest: u64) -> Self
        ensures whole { (edges : List EdgeOf) → left_of result edges ≡ made_of inverted shortest edges }
        ensures shortest { result.smoother.shortest ≡ shortest }
        ensures early { HoldsEarly result }
    {
        Through {
            turner: Turner::new(inverted),
            smoother: Smoother::new(shortest),
        }
    }

    /// An edge has come. Answers what comes out by it.
    #[tactic(auto, using(crate::proofs::Steps::two))]
    pub fn edge(&mut self, edge: Edge) -> Passed
        requires held { HoldsEarly self.old }
        requires early { edge.at ≤ latest_instant }
        ensures passes { Passes self.old edge result self.new }
        ensures shortest { self.new.smoother.shortest ≡ self.old.smoother.shortest }
        ensures early { PassedEarly result }
        ensures held { HoldsEarly self.new }
    {
        let turned = self.turner.edge(edge);
        let first = self.smoother.maybe(turned.first);
        let second = self.smoother.maybe(turned.second);
        Passed { first, second }
    }

    /// The same, if one has come.
    pub fn maybe(&mut self, edge: Option<Edge>) -> Passed
        requires held { HoldsEarly self.old }
        requires early { IsEarly edge }
        ensures passes { PassesMaybe self.old edge result self.new }
        ensures shortest { self.new.smoother.shortest ≡ self.old.smoother.shortest }
        ensures early { PassedEarly result }
        ensures held { HoldsEarly self.new }
    {
        match edge {
            None => Passed {
                first: None,
                second: None,
            },
            Some(edge) => self.edge(edge),
        }
    }

    /// No edge comes before an instant. Answers what comes out by that.
    #[tactic(auto, using(crate::proofs::Steps::two))]
    pub fn calm(&mut self, from: u64) -> Passed
        requires { HoldsEarly self.old }
        ensures passes { PassesCalm self.old from result self.new }
        ensures shortest { self.new.smoother.shortest ≡ self.old.smoother.shortest }
        ensures early { PassedEarly result }
        ensures held { HoldsEarly self.new }
        ensures calm { IsCalm from self.new }
    {
        let turned = self.turner.calm(from);
        let first = self.smoother.maybe(turned);
        let second = self.smoother.calm(from);
        Passed { first, second }
    }

    /// The instant before which nothing comes out any more, where no edge comes before this one: it is not further back than the
    /// shortest pulse.
    pub fn known(&self, from: u64) -> u64
        requires { IsCalm from self.now }
        ensures { IsKnown self.now from result }
    {
        self.smoother.known(from)
    }

    /// No edge is left. Answers what was held back.
    #[tactic(auto, using(crate::proofs::Steps::two))]
    pub fn end(self) -> Passed
        requires { HoldsEarly self }
        ensures passes { left_of self [] ≡ passed_edges result }
        ensures early { PassedEarly result }
    {
        let mut smoother = self.smoother;
        let last = self.turner.end();
        let first = smoother.maybe(last);
        let second = smoother.end();
        Passed { first, second }
    }
}
