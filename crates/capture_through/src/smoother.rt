//! Edges without pulses and gaps that are too short, as they come.
ghost use Rattle.std.specs.Prelude.{◌≡◌, ◌∷◌, ◌++◌, ◌+◌, ◌≤◌, [], ℕ, List, IfSome};
ghost use Rattle.std.specs.Option.{option_to_list};
ghost use Rattle.line_wave.specs.declared.Edge.{Edge as EdgeOf};
ghost use Rattle.capture_through.specs.Through.{AreFrom, IsEarly, smoothed};
ghost use Rattle.capture_smooth.specs.Smooth.{smooth_edges};
ghost use Rattle.line_wave.specs.Bounds.{latest_instant};

use line_wave::Edge;

/// Leaves out two neighbours that are closer than so many microseconds. One edge at most is held back.
#[derive(Clone, Copy, Debug, PartialEq, Eq)]
pub struct Smoother {
    shortest: u64,
    held: Option<Edge>,
}

// The earlier of two instants.
fn earlier(one: u64, other: u64) -> u64
    ensures left { result ≤ one }
    ensures right { result ≤ other }
    ensures either { (n : ℕ) → other ≤ one + n → other ≤ result + n }
{
    if one < other { one } else { other }
}

impl Smoother {
    /// One to which no edge has come.
    pub fn new(shortest: u64) -> Self
        ensures shortest { result.shortest ≡ shortest }
        ensures whole { (edges : List EdgeOf) → smoothed result edges ≡ smooth_edges shortest edges }
        ensures early { IsEarly result.held }
    {
        Smoother {
            shortest,
            held: None,
        }
    }

    /// An edge has come. Answers the edge that stays by it.
    pub fn edge(&mut self, edge: Edge) -> Option<Edge>
        requires held { IsEarly self.old.held }
        requires early { edge.at ≤ latest_instant }
        ensures early { IsEarly result }
        ensures held { IsEarly self.new.held }
        ensures passes { (rest : List EdgeOf) → smoothed self.old (edge ∷ rest) ≡ option_to_list result ++ smoothed self.new rest }
        ensures shortest { self.new.shortest ≡ self.old.shortest }
    {
        let Some(before) = self.held else {
            self.held = Some(edge);
            return None;
        };
        if edge.at.saturating_sub(before.at) < self.shortest {
            self.held = None;
            return None;
        }
        self.held = Some(edge);
        Some(before)
    }

    /// The same, if one has come.
    pub fn maybe(&mut self, edge: Option<Edge>) -> Option<Edge>
        requires held { IsEarly self.old.held }
        requires early { IsEarly edge }
        ensures early { IsEarly result }
        ensures held { IsEarly self.new.held }
        ensures passes { (rest : List EdgeOf) → smoothed self.old (option_to_list edge ++ rest) ≡ option_to_list result ++ smoothed self.new rest }
        ensures shortest { self.new.shortest ≡ self.old.shortest }
    {
        match edge {
            None => None,
            Some(edge) => self.edge(edge),
        }
    }

    /// The instant before which no edge comes out any more, where none comes before this one.
    pub fn known(&self, from: u64) -> u64
        requires { IfSome self.now.held (λ e. from ≤ e.at + self.now.shortest) }
        ensures sooner { result ≤ from }
        ensures lag { from ≤ result + self.now.shortest }
        ensures none { (rest : List EdgeOf) → AreFrom from rest → AreFrom result (smoothed self.now rest) }
    {
        match self.held {
            None => from,
            Some(edge) => earlier(edge.at, from),
        }
    }

    /// No edge comes before an instant. Answers the edge that stays by that.
    pub fn calm(&mut self, from: u64) -> Option<Edge>
        requires held { IsEarly self.old.held }
        ensures early { IsEarly result }
        ensures held { IsEarly self.new.held }
        ensures passes { (rest : List EdgeOf) → AreFrom from rest → smoothed self.old rest ≡ option_to_list result ++ smoothed self.new rest }
        ensures shortest { self.new.shortest ≡ self.old.shortest }
        ensures near { IfSome self.new.held (λ e. from ≤ e.at + self.new.shortest) }
    {
        match self.held {
            Some(before) if from.saturating_sub(before.at) >= self.shortest => {
                self.held = None;
                Some(before)
            }
            _ => None,
        }
    }

    /// No edge is left: what was held back stays.
    pub fn end(self) -> Option<Edge>
        requires { IsEarly self.held }
        ensures passes { smoothed self [] ≡ option_to_list result }
        ensures early { IsEarly result }
    {
        self.held
    }
}
