//! The lines of a capture, taken as they come, whose levels are turned or not, and of whose pulses and gaps none is too short.
ghost use Rattle.std.specs.Prelude.{◌≡◌, ◌+◌, ◌≤◌, List, IfErr, IfOk, OnOk, ℕ};
ghost use Rattle.line_wave.specs.Bounds.{latest_instant};
ghost use Rattle.follow_core.specs.Lines.{from_of};
ghost use Rattle.follow_core.specs.Passing.{ArePassedEarly, EndsPassing, IsKnownTo, IsPassing, TakesPassing, passing_captured, passing_left};

use crate::lines::{CaptureLines, LineForm};
use capture_core::Cause;
use capture_csv::csv_lines_go_on;
use capture_monitor::edge_lines_go_on;
use capture_pin::pin_lines_go_on;
use capture_through::{Passed, Through};
use text_core::At;

/// The edges that come of a line: those by its own edge, and those by where the lines say that none comes.
#[derive(Clone, Copy, Debug)]
pub struct PassedEdges {
    pub by_edge: Passed,
    pub by_calm: Passed,
}

/// The last edges, and the end.
#[derive(Clone, Copy, Debug)]
pub struct LastEdges {
    pub edges: PassedEdges,
    pub end: u64,
}

/// A reader of the lines of a capture, and what its edges pass through.
#[derive(Clone, Copy, Debug)]
pub struct PassingLines {
    lines: CaptureLines,
    through: Through,
}

impl PassingLines {
    /// A reader at the front of a capture.
    pub fn new(form: LineForm, inverted: bool, glitch: u64) -> Self
        ensures first { (signal : List ℕ) (lines : List (List ℕ)) → passing_left signal result 1 lines ≡ passing_captured inverted glitch form signal lines }
        ensures passing { IsPassing result }
        ensures shortest { result.through.smoother.shortest ≡ glitch }
        ensures from { from_of result.lines ≡ 0 }
    {
        PassingLines {
            lines: CaptureLines::new(form),
            through: Through::new(inverted, glitch),
        }
    }

    /// Takes the line of this number, and returns the edges that come of it, of the wire of this name; an empty one stands for the
    /// first.
    ///
    /// # Errors
    ///
    /// The line is at fault.
    pub fn take(
        &mut self,
        signal: &[u8],
        number: u64,
        line: &[u8],
    ) -> Result<PassedEdges, At<Cause>>
        requires passing { IsPassing self.old }
        ensures takes { TakesPassing signal.now self.old number line.now result self.new }
        ensures place { IfErr result (λ fault. fault.line ≡ number) }
        ensures passing { OnOk result (IsPassing self.new) }
        ensures shortest { OnOk result (self.new.through.smoother.shortest ≡ self.old.through.smoother.shortest) }
        ensures edges { IfOk result ArePassedEarly }
    {
        // No effect at run time. The proof reads from them how the lines of a form go on.
        edge_lines_go_on();
        pin_lines_go_on();
        csv_lines_go_on();
        match self.lines.take(signal, number, line) {
            Err(fault) => Err(fault),
            Ok(edge) => {
                let by_edge = self.through.maybe(edge);
                let lines = self.lines;
                let by_calm = self.through.calm(lines.from());
                Ok(PassedEdges { by_edge, by_calm })
            }
        }
    }

    /// The instant before which no further edge comes.
    pub fn known(&self) -> u64
        requires { IsPassing self.now }
        ensures known { (signal : List ℕ) (number : ℕ) → IsKnownTo signal self.now number result }
        ensures early { result ≤ latest_instant + 1 }
    {
        // No effect at run time. The proof reads from them how the lines of a form go on.
        edge_lines_go_on();
        pin_lines_go_on();
        csv_lines_go_on();
        self.through.known(self.lines.from())
    }

    /// What is known where no line is left. This number is that of the line after the last.
    ///
    /// # Errors
    ///
    /// The end is missing.
    pub fn end(self, number: u64) -> Result<LastEdges, At<Cause>>
        requires { IsPassing self }
        ensures ends { EndsPassing self number result }
        ensures place { IfErr result (λ fault. fault.line ≡ number) }
        ensures early { IfOk result (λ last. last.end ≤ latest_instant) }
        ensures edges { IfOk result (λ last. ArePassedEarly last.edges) }
    {
        match self.lines.end(number) {
            Err(fault) => Err(fault),
            Ok(last) => {
                let mut through = self.through;
                let by_edge = through.maybe(last.edge);
                let by_calm = through.end();
                Ok(LastEdges {
                    edges: PassedEdges { by_edge, by_calm },
                    end: last.end,
                })
            }
        }
    }
}
