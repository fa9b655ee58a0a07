//! The first instant at which a captured line is idle, as the line is told.
ghost use Rattle.std.specs.Prelude.{◌≡◌, ◌-◌, ◌≤◌, ◌+◌, ℕ, Some, None};
ghost use Rattle.std.specs.Option.{option_or};
ghost use Rattle.line_wave.specs.Line.{Line};
ghost use Rattle.line_wave.specs.Bounds.{latest_instant};
ghost use Rattle.capture_join.specs.Joined.{idle_by, since_of};

use line_frames::FreeTime;
use line_wave::Edge;

// The instant, up to another one, at which the line has been high for the shortest signal free time (CEC 9.1). No frame has its
// line high for so long, so a reading after it is sure to begin with a start bit.
fn idle_by(high_since: Option<u64>, until: u64) -> Option<u64>
    ensures { result ≡ idle_by high_since until }
{
    let since = high_since?;
    let free = FreeTime::Retry.micros();
    if u128::from(since) + u128::from(free) <= u128::from(until) {
        Some(since + free)
    } else {
        None
    }
}

// Since when the line is high after an edge, where it is.
fn since_of(edge: Edge) -> Option<u64>
    ensures { result ≡ since_of edge }
{
    if edge.low { None } else { Some(edge.at) }
}

/// Looks for the first instant at which a line is idle, as it is told the line.
#[derive(Clone, Copy, Debug)]
pub struct IdleSearch {
    /// The instant since which the line is high, where it is.
    high_since: Option<u64>,
    /// What was found.
    found: Option<u64>,
}

impl IdleSearch {
    ghost use Rattle.capture_join.specs.Joined.{FindsCalm, FindsEdge, FindsEnd, IsSought, Stays};

    /// It was told nothing.
    pub fn new() -> Self
        ensures { (low : Line) → IsSought result low 0 }
    {
        IdleSearch {
            high_since: Some(0),
            found: None,
        }
    }

    // Looks for it up to an instant.
    fn look(&mut self, until: u64)
        ensures found { self.new.found ≡ option_or self.old.found (idle_by self.old.high_since until) }
        ensures since { self.new.high_since ≡ self.old.high_since }
    {
        if self.found.is_none() {
            self.found = idle_by(self.high_since, until);
        }
    }

    /// Tells it an edge.
    pub fn edge(&mut self, edge: Edge)
        ensures finds { FindsEdge self.old edge self.new }
        ensures stays { Stays self.old.found self.new.found }
    {
        self.look(edge.at);
        self.high_since = since_of(edge);
    }

    /// Tells it that no edge comes before an instant.
    pub fn calm(&mut self, known: u64)
        ensures finds { FindsCalm self.old known self.new }
        ensures stays { Stays self.old.found self.new.found }
    {
        if known > 0 {
            self.look(known - 1);
        }
    }

    /// The instant, where it is known.
    pub fn found(&self) -> Option<u64>
        ensures { result ≡ self.now.found }
    {
        self.found
    }

    /// Tells it the end, and returns the instant: the end, where there is none before it.
    pub fn end(self, end: u64) -> u64
        ensures { FindsEnd self end result }
    {
        let mut search = self;
        search.look(end);
        search.found.unwrap_or(end)
    }
}
