//! A monitor, which is told the line edge by edge.
ghost use Rattle.std.specs.Prelude.{◌≡◌, ◌≤◌, ◌<◌, length, IfSome, option_map};
ghost use Rattle.line_wave.specs.Bounds.{latest_instant};
ghost use Rattle.line_reading.specs.Hears.{heard_by};
ghost use Rattle.line_reading.specs.Reports.{ended_of, listed_as};
ghost use Rattle.line_frames.specs.Bits.{most_bits};

use line_frames::Reading;
use line_reading::{STANDARD, Told, WideReceiver, Windows};
use line_wave::Edge;

/// The reading that ran, where instant `t` told that it ended.
pub fn ended_of(reported: Told, t: u64, running: Option<Reading>) -> Option<Reading>
    requires room { IfSome running (λ reading. length reading.bits.items < most_bits) }
    ensures { option_map listed_as result ≡ ended_of reported t (option_map listed_as running) }
{
    let Some(reading) = running else {
        return None;
    };
    match reported {
        Told::Nothing | Told::Bit(..) => None,
        Told::Last(bit, ending) => {
            let mut bits = reading.bits;
            bits.push(bit);
            Some(Reading {
                begin: reading.begin,
                at: t,
                ending,
                bits,
            })
        }
        Told::Ended(ending) => Some(Reading {
            begin: reading.begin,
            at: t,
            ending,
            bits: reading.bits,
        }),
    }
}

/// A monitor of the line, by the standard's windows or by wider ones. It is told each edge, and answers each reading when it has
/// ended. It takes no memory.
#[derive(Debug, Drop)]
pub struct Monitor {
    receiver: WideReceiver,
}

impl Monitor {
    ghost use Rattle.std.specs.Prelude.{◌+◌};
    ghost use Rattle.line_wave.specs.Line.{Line};
    ghost use Rattle.line_reading.specs.Windows.{AreWindows};
    ghost use Rattle.line_reading.specs.declared.times.Windows.{Windows};
    ghost use Rattle.capture_monitor.specs.Monitor.{HeardBefore, HeardBeforeBy, IsStill, FollowsCalmBy, FollowsEdge, FollowsEdgeBy, FollowsEnd, FollowsEndBy, Microsecond, heard_at, after_wake, after_wakes};

    /// A monitor by the standard's windows, of a line of which nothing is reported yet.
    pub fn new() -> Self
        ensures { (low : Line) → HeardBefore result low 0 }
    {
        Monitor::with_windows(STANDARD)
    }

    /// The same by these windows.
    pub fn with_windows(windows: Windows) -> Self
        requires { AreWindows windows }
        ensures { (low : Line) → HeardBeforeBy windows result low 0 }
    {
        Monitor {
            receiver: WideReceiver::new(windows),
        }
    }

    // Microsecond `t` has come.
    fn tick(&mut self, t: u64) -> Option<Reading>
        requires early { t ≤ latest_instant }
        ensures heard { (let m : Microsecond = record { state = heard_by self.new.receiver.receiver; ended = option_map listed_as result } in m)
            ≡ heard_at self.old.receiver.windows t self.old.receiver.receiver.was_low self.old.receiver.receiver.is_low (heard_by self.old.receiver.receiver) }
        ensures windows { self.new.receiver.windows ≡ self.old.receiver.windows }
        ensures was { self.new.receiver.receiver.was_low ≡ self.old.receiver.receiver.is_low }
        ensures level { self.new.receiver.receiver.is_low ≡ self.old.receiver.receiver.is_low }
    {
        let running = self.receiver.running(t);
        let reported = self.receiver.tick(t);
        ended_of(reported, t, running)
    }

    // The next wake, where it comes before this instant.
    fn wake(&mut self, until: u64) -> Option<Reading>
        requires early { until ≤ latest_instant + 1 }
        ensures heard { IsStill self.old → (let m : Microsecond = record { state = heard_by self.new.receiver.receiver; ended = option_map listed_as result } in m)
            ≡ after_wake self.old.receiver.windows until self.old.receiver.receiver.is_low (heard_by self.old.receiver.receiver) }
        ensures windows { self.new.receiver.windows ≡ self.old.receiver.windows }
        ensures still { IsStill self.old → IsStill self.new }
        ensures level { self.new.receiver.receiver.is_low ≡ self.old.receiver.receiver.is_low }
    {
        match self.receiver.wakes_at() {
            Some(wake) if wake < until => self.tick(wake),
            _ => None,
        }
    }

    // The wakes before this instant: there are two at most, a slot's sample and then the end of the wait for the next
    // slot's fall.
    fn wait(&mut self, until: u64) -> Option<Reading>
        requires early { until ≤ latest_instant + 1 }
        ensures heard { IsStill self.old → (let m : Microsecond = record { state = heard_by self.new.receiver.receiver; ended = option_map listed_as result } in m)
            ≡ after_wakes self.old.receiver.windows until self.old.receiver.receiver.is_low (heard_by self.old.receiver.receiver) }
        ensures windows { self.new.receiver.windows ≡ self.old.receiver.windows }
        ensures still { IsStill self.old → IsStill self.new }
        ensures level { self.new.receiver.receiver.is_low ≡ self.old.receiver.receiver.is_low }
    {
        match self.wake(until) {
            Some(reading) => Some(reading),
            None => self.wake(until),
        }
    }

    // The edge is noted, before the tick at its instant.
    fn note(&mut self, edge: Edge)
        ensures keeps { heard_by self.new.receiver.receiver ≡ heard_by self.old.receiver.receiver }
        ensures windows { self.new.receiver.windows ≡ self.old.receiver.windows }
        ensures was { self.new.receiver.receiver.was_low ≡ self.old.receiver.receiver.was_low }
        ensures level { self.new.receiver.receiver.is_low ≡ edge.low }
    {
        if edge.low {
            self.receiver.fall(edge.at);
        } else {
            self.receiver.rise(edge.at);
        }
    }

    /// The line falls or rises, at most at 2,000,000,000,000 microseconds. Edges alternate from a fall, with rising
    /// times. Answers the reading that has ended since the edge before, at this edge too: there is one at most.
    pub fn edge(&mut self, edge: Edge) -> Option<Reading>
        requires early { edge.at ≤ latest_instant }
        ensures follows { FollowsEdge self.old edge (option_map listed_as result) self.new }
        ensures by { (windows : Windows) → FollowsEdgeBy windows self.old edge (option_map listed_as result) self.new }
    {
        let waited = self.wait(edge.at);
        self.note(edge);
        let ended = self.tick(edge.at);
        waited.or(ended)
    }

    /// The line goes on without an edge up to `until`, which is not before the last edge and at most 2,000,000,000,001
    /// microseconds. Answers the reading that has ended before `until`, since the last edge or the last call: there is one at
    /// most.
    pub fn calm(&mut self, until: u64) -> Option<Reading>
        requires early { until ≤ latest_instant + 1 }
        ensures { (windows : Windows) → FollowsCalmBy windows self.old until (option_map listed_as result) self.new }
    {
        self.wait(until)
    }

    /// The line goes on without an edge to `t`, which is not before the last edge and at most 2,000,000,000,000
    /// microseconds. Answers the reading that has ended since the last edge, at `t` too, or the one that still
    /// runs, which is open at `t`.
    pub fn finish(self, t: u64) -> Option<Reading>
        requires early { t ≤ latest_instant }
        ensures follows { FollowsEnd self t (option_map listed_as result) }
        ensures by { (windows : Windows) → FollowsEndBy windows self t (option_map listed_as result) }
    {
        let mut monitor = self;
        match monitor.wait(t + 1) {
            Some(reading) => Some(reading),
            None => monitor.receiver.running(t),
        }
    }
}
