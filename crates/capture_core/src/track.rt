//! From levels and instants to edges.
ghost use Rattle.std.specs.Prelude.{◌≡◌};
ghost use Rattle.capture_core.specs.Track.{Moves, first_track, differ, last_edge, with_level};

use line_wave::Edge;

/// An instant is before one that was told already.
#[derive(Clone, Copy, Debug, PartialEq, Eq)]
pub struct GoesBack;

/// Where a reader of a capture stands on the line.
#[derive(Clone, Copy, Debug, PartialEq, Eq)]
pub struct Track {
    /// The instant that it has come to, in microseconds.
    at: u64,
    /// Whether the line was low before it.
    was_low: bool,
    /// Whether the line is low at it, as it is told so far.
    is_low: bool,
}

fn differ(one: bool, other: bool) -> bool
    ensures { result ≡ differ one other }
{
    one != other
}

impl Track {
    /// The begin of a line, which is high before anything is reported of it.
    pub fn new() -> Self
        ensures { result ≡ first_track }
    {
        Track {
            at: 0,
            was_low: false,
            is_low: false,
        }
    }

    /// The instant that it has come to.
    pub fn at(&self) -> u64
        ensures { result ≡ self.now.at }
    {
        self.at
    }

    /// The line has this level at the instant. Of several levels the last one counts.
    pub fn set(&mut self, is_low: bool)
        ensures { self.new ≡ with_level is_low self.old }
    {
        self.is_low = is_low;
    }

    /// Comes to an instant. Returns the edge at the instant before, if the line turned there.
    ///
    /// # Errors
    ///
    /// The instant is before the one that it has come to; nothing changes.
    pub fn go_to(&mut self, instant: u64) -> Result<Option<Edge>, GoesBack>
        ensures { Moves instant self.old result self.new }
    {
        if instant < self.at {
            return Err(GoesBack);
        }
        let edge = Edge {
            at: self.at,
            low: self.is_low,
        };
        let is_turn = self.at < instant && differ(self.was_low, self.is_low);
        self.at = instant;
        if !is_turn {
            return Ok(None);
        }
        self.was_low = edge.low;
        Ok(Some(edge))
    }

    /// The edge at the last instant, if the line turns there.
    pub fn last(&self) -> Option<Edge>
        ensures { result ≡ last_edge self.now }
    {
        if !differ(self.was_low, self.is_low) {
            return None;
        }
        Some(Edge {
            at: self.at,
            low: self.is_low,
        })
    }
}
