//! The audit of a capture whose edges are all there.
ghost use Rattle.std.specs.Prelude.{◌≡◌, option_map};
ghost use Rattle.std.specs.Option.{option_to_list};
ghost use Rattle.line_reading.specs.Reports.{listed_as};
ghost use Rattle.audit_core.specs.Audit.{after, after_all, come_to, first_tape, heard_all, heard_lines, summary_lines, tape_of};

use crate::auditor::Auditor;
use audit_notes::LineHearer;
use audit_widths::Cursor;
use line_frames::Reading;
use line_wave::Edge;

/// An auditor of a capture, and its place there.
#[derive(Drop)]
pub(crate) struct WholeAudit<'a> {
    // the capture's edges from the fall of the last reading on
    cursor: Cursor<'a>,
    auditor: Auditor,
}

impl<'a> WholeAudit<'a> {
    /// Of a capture of these edges, before its readings.
    pub(crate) fn new(edges: &'a [Edge]) -> Self
        ensures { tape_of result ≡ first_tape edges.now }
    {
        WholeAudit {
            cursor: Cursor::new(edges),
            auditor: Auditor::new(),
        }
    }

    // The edges up to the fall of a reading are passed over.
    fn come_to(&mut self, reading: &Reading)
        ensures { tape_of self.new ≡ come_to (listed_as reading.now) (tape_of self.old) }
    {
        self.cursor.go_to(reading.begin);
    }

    // Has a reading heard, and what there is to remark.
    fn report<H: LineHearer>(&mut self, out: &mut H, reading: &Reading, timing: bool)
        ensures kept { tape_of self.new ≡ after (listed_as reading.now) (tape_of self.old) }
        ensures written { H.hears out.old (heard_lines timing (tape_of self.old) (listed_as reading.now)) out.new }
    {
        self.come_to(reading);
        out.reading(reading);
        self.auditor
            .remark(out, reading, self.cursor.edges(), timing);
    }

    /// The same of what a monitor reported.
    pub(crate) fn hear<H: LineHearer>(
        &mut self,
        out: &mut H,
        reading: &Option<Reading>,
        timing: bool,
    )
        ensures kept { tape_of self.new ≡ after_all (tape_of self.old) (option_to_list (option_map listed_as reading.now)) }
        ensures written { H.hears out.old (heard_all timing (tape_of self.old) (option_to_list (option_map listed_as reading.now))) out.new }
    {
        let Some(reading) = reading else {
            return;
        };
        self.report(out, reading, timing);
    }

    /// Has what there is to say of all readings up to an end heard.
    pub(crate) fn summarize<H: LineHearer>(&self, out: &mut H, end: u64)
        ensures { H.hears out.old (summary_lines end (tape_of self.now)) out.new }
    {
        self.auditor.summarize(out, end);
    }
}
