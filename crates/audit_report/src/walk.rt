//! A capture whose audit is counted as it is heard.
ghost use Rattle.std.specs.Prelude.{◌≡◌};
ghost use Rattle.line_reading.specs.Reports.{listed_as};
ghost use Rattle.line_reading.specs.Windows.{AreWindows};
ghost use Rattle.capture_monitor.specs.Watch.{captured_by};
ghost use Rattle.audit_report.specs.Report.{after_reading, before_all, tallied_as, kept_of, report_of, with_end};

use crate::charges::Rows;
use crate::tally::Tally;
use audit_contents::Contents;
use audit_core::{Auditor, hear_readings};
use audit_notes::{AuditNote, LineHearer, ReadingGroup, Strict};
use audit_widths::Cursor;
use capture_core::Capture;
use line_frames::Reading;
use line_reading::Windows;
use line_wave::Edge;

/// What hears the readings of a capture: an auditor, its place there, and what is counted of what it says.
#[derive(Drop)]
pub struct Walk<'a> {
    // the capture's edges from the fall of the last reading on
    cursor: Cursor<'a>,
    auditor: Auditor,
    tally: Strict<Tally>,
    contents: Contents,
}

/// What was counted of a capture, and whether its audit has a remark.
#[derive(Drop)]
pub struct Tallied {
    pub(crate) rows: Rows,
    pub(crate) contents: Contents,
    pub(crate) remarked: bool,
}

impl<'a> Walk<'a> {
    fn new(edges: &'a [Edge]) -> Self
        ensures { kept_of result ≡ before_all edges.now }
    {
        Walk {
            cursor: Cursor::new(edges),
            auditor: Auditor::new(),
            tally: Strict {
                hearer: Tally::new(),
                remarked: false,
            },
            contents: Contents::new(),
        }
    }

    // Counts what is told of a reading, and keeps it.
    fn take(&mut self, reading: &Reading)
        ensures { kept_of self.new ≡ after_reading (listed_as reading.now) (kept_of self.old) }
    {
        self.cursor.go_to(reading.begin);
        let edges = self.cursor.edges();
        self.tally.hearer.measure(&self.auditor, reading, edges);
        self.auditor.remark(&mut self.tally, reading, edges, false);
        self.contents.note(reading);
    }

    // Counts what is told of all readings up to an end.
    fn finish(&mut self, end: u64) -> Tallied
        ensures { tallied_as result ≡ with_end end (kept_of self.old) }
    {
        self.tally.hearer.leave();
        self.auditor.summarize(&mut self.tally, end);
        Tallied {
            rows: self.tally.hearer.rows,
            contents: self.contents,
            remarked: self.tally.remarked,
        }
    }
}

impl<'a> LineHearer for Walk<'a> {
    ghost use Rattle.std.specs.Prelude.{◌≡◌};
    ghost use Rattle.audit_report.specs.Report.{after_lines, kept_of};
    ghost use Rattle.audit_report.specs.Hearing.{both_taken, none_taken};

    ghost hears = { λ old lines new. kept_of new ≡ after_lines (kept_of old) lines };

    fn reading(&mut self, reading: &Reading) {
        self.take(reading);
    }

    fn group(&mut self, _group: ReadingGroup) {}

    fn word(&mut self, _word: &str) {}

    fn note(&mut self, _note: AuditNote) {}

    ghost nothing = { λ a. none_taken (kept_of a) };

    ghost then = { λ a b c xs ys. both_taken (kept_of a) (kept_of b) (kept_of c) xs ys };
}

/// Counts what the audit of a capture tells, as these windows read it.
pub(crate) fn count_capture(capture: &Capture, windows: Windows) -> Tallied
    requires { AreWindows windows }
    ensures { tallied_as result ≡ report_of capture.now (captured_by windows capture.now) }
{
    let mut walk = Walk::new(capture.edges());
    hear_readings(capture, windows, &mut walk);
    walk.finish(capture.end())
}
