//! A monitor that is told a captured line as it comes.
ghost use Rattle.std.specs.Prelude.{◌≡◌, ◌≤◌, ◌+◌, IfSome, option_map};
ghost use Rattle.line_wave.specs.Bounds.{latest_instant};
ghost use Rattle.line_reading.specs.Reports.{listed_as};

use capture_join::IdleSearch;
use capture_monitor::Monitor;
use capture_through::Passed;
use line_frames::Reading;
use line_reading::Windows;
use line_wave::Edge;

/// A monitor, and how far it was told the line.
#[derive(Debug, Drop)]
pub struct Teller {
    monitor: Monitor,
    /// The instant before which the line of the bus is known.
    known: u64,
    /// Looks for the first instant at which the line is idle.
    search: IdleSearch,
}

/// What has ended by the edges of a step: two readings at most.
#[derive(Debug, Drop)]
pub struct PassedReadings {
    pub first: Option<Reading>,
    pub second: Option<Reading>,
}

impl Teller {
    ghost use Rattle.line_reading.specs.Windows.{AreWindows};
    ghost use Rattle.capture_through.specs.Through.{PassedEarly};
    ghost use Rattle.follow_core.specs.Teller.{IsToldEarly, IsUntold, TellsCalm, TellsEdge, TellsEnd, TellsIdle, TellsPassed};

    /// A monitor by these windows, which was told nothing.
    pub fn new(windows: Windows) -> Self
        requires { AreWindows windows }
        ensures untold { IsUntold windows result }
        ensures known { result.known ≡ 0 }
    {
        Teller {
            monitor: Monitor::with_windows(windows),
            known: 0,
            search: IdleSearch::new(),
        }
    }

    /// Tells it an edge, if there is one, and returns the reading that has ended by it.
    pub fn edge(&mut self, edge: Option<Edge>) -> Option<Reading>
        requires known { IsToldEarly self.old }
        requires early { IfSome edge (λ e. e.at ≤ latest_instant) }
        ensures { TellsEdge self.old edge (option_map listed_as result) self.new }
    {
        match edge {
            None => None,
            Some(edge) => {
                self.known = edge.at + 1;
                self.search.edge(edge);
                self.monitor.edge(edge)
            }
        }
    }

    /// Tells it the edges of a step, and returns the readings that have ended by them.
    pub fn pass(&mut self, passed: Passed) -> PassedReadings
        requires known { IsToldEarly self.old }
        requires early { PassedEarly passed }
        ensures { TellsPassed self.old passed result self.new }
    {
        let first = self.edge(passed.first);
        let second = self.edge(passed.second);
        PassedReadings { first, second }
    }

    /// Tells it that no edge comes before an instant, and returns the reading that has ended.
    pub fn calm(&mut self, from: u64) -> Option<Reading>
        requires known { IsToldEarly self.old }
        requires early { from ≤ latest_instant + 1 }
        ensures { TellsCalm self.old from (option_map listed_as result) self.new }
    {
        let until = self.known.max(from);
        self.known = until;
        self.search.calm(until);
        self.monitor.calm(until)
    }

    /// The first instant at which the line is idle, where it is known.
    pub fn idle(&self) -> Option<u64>
        ensures { result ≡ self.now.search.found }
    {
        self.search.found()
    }

    /// The same with the end, which stands for it where there is none before.
    pub fn idle_by_end(&self, end: u64) -> u64
        ensures { TellsIdle self.now end result }
    {
        let search = self.search;
        search.end(end)
    }

    /// Tells it the end, and returns the last reading.
    pub fn end(self, end: u64) -> Option<Reading>
        requires early { end ≤ latest_instant }
        ensures { TellsEnd self end (option_map listed_as result) }
    {
        self.monitor.finish(end)
    }
}
