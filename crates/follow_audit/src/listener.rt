//! The audit of a capture, of which edges and readings are told as they come.
ghost use Rattle.std.specs.Prelude.{◌≡◌, [], ◌∷◌, ◌++◌, List, None, OnOk, false, true, option_map};
ghost use Rattle.std.specs.Option.{option_to_list};
ghost use Rattle.line_wave.specs.declared.Edge.{Edge as EdgeOf};
ghost use Rattle.line_reading.specs.Reports.{listed_as};
ghost use Rattle.capture_through.specs.Through.{passed_edges};
ghost use Rattle.follow_core.specs.Passing.{edges_in};
ghost use Rattle.follow_core.specs.Teller.{listed_pair};

use crate::error::FollowAuditError;
use crate::settled::{edges_from, is_settled, later};
use crate::view::AuditView;
use audit_core::Auditor;
use audit_notes::{LineHearer, LineWriter, Strict};
use capture_through::Passed;
use follow_core::{PassedEdges, PassedReadings};
use line_frames::Reading;
use line_wave::Edge;
use std::alloc::{AllocError, Global};
use text_core::{Counted, Sink};

/// So many edges are kept before those are let go that are no longer needed: a reading has 322 at most.
const KEPT: usize = 1024;

/// What is kept of a capture that is audited as it comes.
#[derive(Drop)]
pub(crate) struct Listener {
    auditor: Auditor,
    /// The edges that have come, or the last of them: at least those from `from` on.
    window: Vec<Edge>,
    /// No edge before this instant is needed.
    from: u64,
    /// The reading whose line is written, and of which it is not known yet what there is to remark.
    waiting: Option<Reading>,
    view: AuditView,
}

impl Listener {
    ghost use Rattle.follow_audit.specs.Listener.{Finishes, HearsAll, IsAudited, Puts, Remarks, Says, SaysAllKnown, SaysEnd, SaysLast, TakesEdge, TakesEdges, WaitsForNothing, remarks_of, waiting_count};

    /// Of a capture of which nothing has come.
    pub(crate) fn new(alloc: Global, view: AuditView) -> Self
        ensures audited { (edges : List EdgeOf) → IsAudited edges result edges [] [] }
        ensures view { result.view ≡ view }
        ensures none { result.waiting ≡ None }
    {
        Listener {
            auditor: Auditor::new(),
            window: Vec::new(alloc),
            from: 0,
            waiting: None,
            view,
        }
    }

    // Whether so many edges are kept that it is time to let some go.
    fn keeps_many(&self) -> bool {
        self.window.len() >= KEPT
    }

    // Lets go the edges that are no longer needed, where there are many.
    fn let_go(&mut self, alloc: Global) -> Result<(), AllocError>
        ensures { TakesEdge self.old None self.new }
    {
        if !self.keeps_many() {
            return Ok(());
        }
        let window = Vec::from_slice(alloc, edges_from(&self.window, self.from).edges())?;
        self.window = window;
        Ok(())
    }

    /// Takes the next edge of the capture, if there is one.
    ///
    /// # Errors
    ///
    /// No memory.
    pub(crate) fn take(&mut self, alloc: Global, edge: Option<Edge>) -> Result<(), AllocError>
        ensures { OnOk result (TakesEdge self.old edge self.new) }
    {
        match edge {
            None => Ok(()),
            Some(edge) => {
                self.let_go(alloc)?;
                self.window.push(edge)?;
                Ok(())
            }
        }
    }

    // Takes the edges of a step.
    fn take_passed(&mut self, alloc: Global, passed: Passed) -> Result<(), AllocError>
        ensures { OnOk result (TakesEdges self.old (passed_edges passed) self.new) }
    {
        self.take(alloc, passed.first)?;
        self.take(alloc, passed.second)
    }

    /// Takes the edges that come of a line.
    ///
    /// # Errors
    ///
    /// No memory.
    pub(crate) fn take_all(&mut self, alloc: Global, passed: PassedEdges) -> Result<(), AllocError>
        ensures { OnOk result (TakesEdges self.old (edges_in passed) self.new) }
    {
        self.take_passed(alloc, passed.by_edge)?;
        self.take_passed(alloc, passed.by_calm)
    }

    // Has what there is to remark of the reading that waits heard, if one does.
    fn remark<H: LineHearer>(&mut self, out: &mut H)
        ensures remarks { Remarks self.old self.new }
        ensures heard { H.hears out.old (remarks_of self.old) out.new }
    {
        let Some(reading) = self.waiting.take() else {
            return;
        };
        self.from = later(self.from, reading.begin);
        let edges = edges_from(&self.window, self.from);
        self.auditor
            .remark(out, &reading, edges.edges(), self.view.timing);
    }

    // Whether the edges that have come say all that there is to remark of the reading that waits, if one does.
    fn is_settled(&self) -> bool
        ensures known { result ≡ true → (left : List EdgeOf) → WaitsForNothing self.now left }
        ensures waits { result ≡ false → SaysAllKnown self.now }
    {
        match &self.waiting {
            None => true,
            Some(reading) => is_settled(
                reading,
                edges_from(&self.window, later(self.from, reading.begin)).edges(),
            ),
        }
    }

    // Has that heard, where it is known.
    fn settle<H: LineHearer>(&mut self, out: &mut H)
        ensures says { Says H.hears self.old [] self.new out.old out.new }
        ensures waits { SaysAllKnown self.new }
    {
        if !self.is_settled() {
            return;
        }
        self.remark(out);
    }

    // Has the line of a reading that has ended heard, where nothing waits: it waits then.
    fn hear_line<H: LineHearer>(&mut self, out: &mut H, reading: Reading)
        requires { self.old.waiting ≡ None }
        ensures { Says H.hears self.old (listed_as reading ∷ []) self.new out.old out.new }
    {
        out.reading(&reading);
        self.waiting = Some(reading);
    }

    fn waits(&self) -> bool
        ensures none { result ≡ false → self.now.waiting ≡ None }
        ensures one { result ≡ true → waiting_count self.now ≡ 1 }
    {
        match &self.waiting {
            None => false,
            Some(_) => true,
        }
    }

    // Hears a reading that has ended, if there is one, and returns whether nothing waited.
    fn hear<H: LineHearer>(&mut self, out: &mut H, reading: Option<Reading>) -> bool
        ensures waits { SaysAllKnown self.old → SaysAllKnown self.new }
        ensures says { HearsAll H.hears self.old (option_to_list (option_map listed_as reading)) result self.new out.old out.new }
    {
        match reading {
            None => true,
            Some(reading) => {
                if self.waits() {
                    return false;
                }
                self.hear_line(out, reading);
                self.settle(out);
                true
            }
        }
    }

    // Has what is known by the edge that came heard, and hears the readings that have ended. Returns whether nothing waited before
    // each.
    fn hear_all<H: LineHearer>(
        &mut self,
        out: &mut H,
        first: Option<Reading>,
        second: Option<Reading>,
    ) -> bool
        ensures waits { SaysAllKnown self.new }
        ensures says { HearsAll H.hears self.old (option_to_list (option_map listed_as first) ++ option_to_list (option_map listed_as second)) result self.new out.old out.new }
    {
        self.settle(out);
        if !self.hear(out, first) {
            return false;
        }
        self.hear(out, second)
    }

    /// Hears the readings that have ended since the last call, at most two, after the edge that came: writes their lines, and what
    /// there is to remark of each as soon as the edges say all of it. `remarked` is whether the standard has something of what was
    /// written otherwise.
    ///
    /// # Errors
    ///
    /// `Write` where the sink takes no more, and `Waiting`. Then a front of that was written.
    pub(crate) fn tell<S: Sink>(
        &mut self,
        remarked: &mut bool,
        first: Option<Reading>,
        second: Option<Reading>,
        out: &mut S,
    ) -> Result<(), FollowAuditError>
        ensures waits { OnOk result (SaysAllKnown self.new) }
        ensures puts { Puts self.old (option_to_list (option_map listed_as first) ++ option_to_list (option_map listed_as second)) self.new remarked.old remarked.new (S.contents out.old) (S.contents out.new) result }
    {
        let mut lines = Strict {
            hearer: LineWriter {
                form: self.view.written,
                out: Counted::new(out),
            },
            remarked: *remarked,
        };
        let heard = self.hear_all(&mut lines, first, second);
        *remarked = lines.remarked;
        let audit = lines.hearer.out;
        let written = audit.written();
        // No effect at run time. The proof reads what `out` holds from the sink that comes back.
        let _below = audit.into_sink();
        if !heard {
            return Err(FollowAuditError::Waiting);
        }
        match written {
            Ok(_) => Ok(()),
            Err(fault) => Err(FollowAuditError::Write(fault.count)),
        }
    }

    // Hears a reading where no edge is left, if there is one. Nothing waits.
    fn hear_last<H: LineHearer>(&mut self, out: &mut H, reading: Option<Reading>)
        requires { self.old.waiting ≡ None }
        ensures { SaysLast H.hears self.old (option_to_list (option_map listed_as reading)) self.new out.old out.new }
    {
        match reading {
            None => {}
            Some(reading) => {
                self.hear_line(out, reading);
                self.remark(out);
            }
        }
    }

    // Has all heard that is left to say, up to the end.
    fn hear_rest<H: LineHearer>(
        &mut self,
        out: &mut H,
        by_edge: PassedReadings,
        by_calm: PassedReadings,
        last: Option<Reading>,
        end: u64,
    )
        ensures { SaysEnd H.hears self.old (listed_pair by_edge ++ (listed_pair by_calm ++ option_to_list (option_map listed_as last))) end out.old out.new }
    {
        self.remark(out);
        self.hear_last(out, by_edge.first);
        self.hear_last(out, by_edge.second);
        self.hear_last(out, by_calm.first);
        self.hear_last(out, by_calm.second);
        self.hear_last(out, last);
        self.auditor.summarize(out, end);
    }

    /// No edge is left: hears the last readings, and writes what there is to say of all of them. `remarked` is whether the standard
    /// has something of what was written otherwise; returned is whether it has something of all of it otherwise.
    ///
    /// # Errors
    ///
    /// `Write` where the sink takes no more. Then a front of that was written.
    pub(crate) fn finish<S: Sink>(
        self,
        remarked: bool,
        by_edge: PassedReadings,
        by_calm: PassedReadings,
        last: Option<Reading>,
        end: u64,
        out: &mut S,
    ) -> Result<bool, FollowAuditError>
        ensures { Finishes self (listed_pair by_edge ++ (listed_pair by_calm ++ option_to_list (option_map listed_as last))) end remarked (S.contents out.old) (S.contents out.new) result }
    {
        let mut listener = self;
        let mut lines = Strict {
            hearer: LineWriter {
                form: listener.view.written,
                out: Counted::new(out),
            },
            remarked,
        };
        listener.hear_rest(&mut lines, by_edge, by_calm, last, end);
        let remarked = lines.remarked;
        let audit = lines.hearer.out;
        let written = audit.written();
        // No effect at run time. The proof reads what `out` holds from the sink that comes back.
        let _below = audit.into_sink();
        match written {
            Ok(_) => Ok(remarked),
            Err(fault) => Err(FollowAuditError::Write(fault.count)),
        }
    }
}
