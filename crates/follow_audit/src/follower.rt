//! A capture that is followed line by line, with what there is to remark.
ghost use Rattle.std.specs.Prelude.{◌≡◌, ◌≤◌, [], IfErr, List, OnOk, ℕ};
ghost use Rattle.std.specs.Option.{option_to_list};
ghost use Rattle.line_wave.specs.Bounds.{latest_instant};
ghost use Rattle.line_reading.specs.Windows.{AreWindows};
ghost use Rattle.capture_through.specs.Through.{IsEarly, PassedEarly, passed_edges};
ghost use Rattle.follow_core.specs.Passing.{ArePassedEarly, edges_in};

use crate::error::FollowAuditError;
use crate::listener::Listener;
use crate::view::AuditView;
use capture_csv::csv_lines_go_on;
use capture_monitor::edge_lines_go_on;
use capture_pin::pin_lines_go_on;
use capture_through::Passed;
use follow_core::{LineForm, PassedEdges, PassingLines, Reception, Teller};
use line_wave::Edge;
use std::alloc::Global;
use text_core::Sink;

/// Follows a capture line by line, and writes its audit as it comes.
#[derive(Drop)]
pub(crate) struct AuditFollower {
    lines: PassingLines,
    teller: Teller,
    listener: Listener,
    /// Whether the standard has something of what was written otherwise.
    remarked: bool,
}

impl AuditFollower {
    ghost use Rattle.follow_audit.specs.Follow.{Ends, Goes, GoesEnd, GoesLine, Hears, IsFollowed, IsPrompt, IsReady, LeavesAlone};

    /// A follower of a capture in this form, which is read so, and of which no line has come.
    pub(crate) fn new(alloc: Global, form: LineForm, how: Reception, view: AuditView) -> Self
        requires { AreWindows how.windows }
        ensures followed { (signal : List ℕ) → IsFollowed form signal how view [] 1 result [] }
        ensures prompt { IsPrompt result }
        ensures ready { IsReady result }
    {
        // No effect at run time. The proof reads from them how the lines of a form go on.
        edge_lines_go_on();
        pin_lines_go_on();
        csv_lines_go_on();
        AuditFollower {
            lines: PassingLines::new(form, how.inverted, how.glitch),
            teller: Teller::new(how.windows),
            listener: Listener::new(alloc, view),
            remarked: false,
        }
    }

    // Goes on with an edge, if there is one.
    fn hear_edge<S: Sink>(
        &mut self,
        alloc: Global,
        edge: Option<Edge>,
        out: &mut S,
    ) -> Result<(), FollowAuditError>
        requires ready { IsReady self.old }
        requires early { IsEarly edge }
        ensures onward { Goes self.old (option_to_list edge) 0 self.new (S.contents out.old) (S.contents out.new) result }
        ensures ready { OnOk result (IsReady self.new) }
    {
        match self.listener.take(alloc, edge) {
            Err(_) => Err(FollowAuditError::Memory),
            Ok(()) => {
                let reading = self.teller.edge(edge);
                let mut remarked = self.remarked;
                let told = self.listener.tell(&mut remarked, reading, None, out);
                self.remarked = remarked;
                told
            }
        }
    }

    // Goes on with the edges of a step.
    fn hear_edges<S: Sink>(
        &mut self,
        alloc: Global,
        passed: Passed,
        out: &mut S,
    ) -> Result<(), FollowAuditError>
        requires ready { IsReady self.old }
        requires early { PassedEarly passed }
        ensures onward { Goes self.old (passed_edges passed) 0 self.new (S.contents out.old) (S.contents out.new) result }
        ensures ready { OnOk result (IsReady self.new) }
    {
        match self.hear_edge(alloc, passed.first, out) {
            Err(error) => Err(error),
            Ok(()) => self.hear_edge(alloc, passed.second, out),
        }
    }

    // Goes on to where the lines say that no edge comes.
    fn hear_calm<S: Sink>(&mut self, out: &mut S) -> Result<(), FollowAuditError>
        requires ready { IsReady self.old }
        ensures onward { GoesLine self.old [] self.new (S.contents out.old) (S.contents out.new) result }
        ensures prompt { OnOk result (IsPrompt self.new) }
        ensures ready { OnOk result (IsReady self.new) }
    {
        let reading = self.teller.calm(self.lines.known());
        let mut remarked = self.remarked;
        let told = self.listener.tell(&mut remarked, None, reading, out);
        self.remarked = remarked;
        told
    }

    // Goes on with the edges that come of a line, and to where the lines say that none comes.
    fn go_on<S: Sink>(
        &mut self,
        alloc: Global,
        passed: PassedEdges,
        out: &mut S,
    ) -> Result<(), FollowAuditError>
        requires ready { IsReady self.old }
        requires early { ArePassedEarly passed }
        ensures onward { GoesLine self.old (edges_in passed) self.new (S.contents out.old) (S.contents out.new) result }
        ensures prompt { OnOk result (IsPrompt self.new) }
        ensures ready { OnOk result (IsReady self.new) }
    {
        match self.hear_edges(alloc, passed.by_edge, out) {
            Err(error) => Err(error),
            Ok(()) => match self.hear_edges(alloc, passed.by_calm, out) {
                Err(error) => Err(error),
                Ok(()) => self.hear_calm(out),
            },
        }
    }

    /// Takes the line of this number, and writes what there is to say by it of the wire of this name; an empty one stands for the
    /// first.
    ///
    /// # Errors
    ///
    /// The line is at fault, no memory, or the sink takes no more.
    pub(crate) fn line<S: Sink>(
        &mut self,
        alloc: Global,
        signal: &[u8],
        number: u64,
        line: &[u8],
        out: &mut S,
    ) -> Result<(), FollowAuditError>
        requires ready { IsReady self.old }
        ensures hears { Hears signal.now number line.now self.old self.new (S.contents out.old) (S.contents out.new) result }
        ensures alone { IfErr result (λ error. LeavesAlone error out.old out.new) }
        ensures ready { OnOk result (IsReady self.new) }
    {
        match self.lines.take(signal, number, line) {
            Err(fault) => Err(FollowAuditError::Capture(fault)),
            Ok(passed) => self.go_on(alloc, passed, out),
        }
    }

    // Goes on with the last edges, to the end. Returns whether the standard has something of the audit otherwise.
    fn go_to_end<S: Sink>(
        self,
        alloc: Global,
        passed: PassedEdges,
        end: u64,
        out: &mut S,
    ) -> Result<bool, FollowAuditError>
        requires ready { IsReady self }
        requires early { ArePassedEarly passed }
        requires end { end ≤ latest_instant }
        ensures { GoesEnd self (edges_in passed) end (S.contents out.old) (S.contents out.new) result }
    {
        let mut teller = self.teller;
        let mut listener = self.listener;
        let remarked = self.remarked;
        match listener.take_all(alloc, passed) {
            Err(_) => Err(FollowAuditError::Memory),
            Ok(()) => {
                let by_edge = teller.pass(passed.by_edge);
                let by_calm = teller.pass(passed.by_calm);
                let last = teller.end(end);
                listener.finish(remarked, by_edge, by_calm, last, end, out)
            }
        }
    }

    /// No line is left: writes what is left to say, of the reading that is open at the end and of all of them too, and returns
    /// whether the standard has something of the audit otherwise. This number is that of the line after the last.
    ///
    /// # Errors
    ///
    /// The end is missing, no memory, or the sink takes no more.
    pub(crate) fn end<S: Sink>(
        self,
        alloc: Global,
        number: u64,
        out: &mut S,
    ) -> Result<bool, FollowAuditError>
        requires ready { IsReady self }
        ensures ends { Ends number self (S.contents out.old) (S.contents out.new) result }
        ensures alone { IfErr result (λ error. LeavesAlone error out.old out.new) }
    {
        match self.lines.end(number) {
            Err(fault) => Err(FollowAuditError::Capture(fault)),
            Ok(last) => self.go_to_end(alloc, last.edges, last.end, out),
        }
    }
}
