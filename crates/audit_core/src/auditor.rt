//! What is remarked of one reading after another.
ghost use Rattle.std.specs.Prelude.{◌≡◌, []};
ghost use Rattle.std.specs.Option.{option_copied};
ghost use Rattle.line_reading.specs.Reports.{listed_as};
ghost use Rattle.audit_core.specs.Audit.{IsHeard, drive_of, first_begin, first_tape, frame_lines, named_of, read_lines, reading_misfits, remark_lines, summary_lines, tape_after, tape_at, times_lines};
ghost use Rattle.audit_core.specs.Lines.{timing_lines};
ghost use Rattle.audit_core.specs.Measured.{free_of, measured_by, measured_of, waits_of};
ghost use Rattle.audit_widths.specs.Misfits.{drive_within};
ghost use Rattle.audit_widths.specs.Spreads.{no_widths, with_slots};

use crate::heard::{Heard, lows_of};
use crate::lines::{
    hear_answers, hear_claims, hear_counts, hear_late, hear_misfits, hear_named, hear_noted,
    hear_widths, last_of,
};
use crate::measured::{push_owned, push_waits};
use crate::notes::{
    attempt_note, block_note, drive_note, ending_note, goes_on_note, head_note, moved_note,
    operands_note, receivers_note, series_note, soon_note, within_note,
};
use arrayvec::ArrayVec;
use audit_notes::{AuditNote, LineHearer};
use audit_remarks::{
    Attempts, BadStartSeries, Counts, FreeTaken, Places, Previous, Sources, WAITING, Waiting,
    after_frame, count_reading, goes_on_after, head_read, is_measured, missed_receivers,
    missing_operands, moved_from, no_counts, no_places, note_report, sender, sent_frame,
};
use audit_widths::{Low, Widths, drive_within};
use line_frames::Reading;
use line_wave::{Edge, MOST_SENT};
use message_hex::remark;

/// What is kept of the readings so far. It is told the edges of each, and keeps none.
#[derive(Drop)]
pub struct Auditor {
    previous: Previous,
    attempts: Attempts,
    series: BadStartSeries,
    waiting: Waiting,
    places: Places,
    sources: Sources,
    counts: Counts,
    widths: Widths,
}

// What the standard calls what the line of a reading leaves as bytes.
fn named_of(reading: &Reading) -> Option<&'static str>
    ensures { option_copied result ≡ named_of (listed_as reading.now) }
{
    match reading.frame() {
        None => None,
        Some(frame) => remark(&frame),
    }
}

// What was read, in words.
fn hear_read<H: LineHearer>(out: &mut H, reading: &Reading)
    ensures { H.hears out.old (read_lines (listed_as reading.now)) out.new }
{
    hear_noted(out, head_note(head_read(reading.ending, &reading.bits)));
    hear_named(out, named_of(reading));
}

// The widths of a reading, where they are asked for.
fn hear_reading_widths<H: LineHearer>(out: &mut H, timing: bool, heard: &Heard)
    ensures { H.hears out.old (timing_lines timing (with_slots heard.now.reading.now.ending heard.now.reading.now.bits.items 0 heard.now.lows.now.items no_widths)) out.new }
{
    if !timing {
        return;
    }
    hear_widths(out, heard.widths());
}

impl Auditor {
    // The widths of a reading that are out of their windows.
    fn hear_reading_misfits<H: LineHearer>(
        &self,
        out: &mut H,
        heard: &Heard,
        drive: Option<u64>,
        within: Option<u64>,
    )
        requires { within ≡ drive_within heard.now.lows.now.items }
        ensures { H.hears out.old (reading_misfits (tape_at heard.now.edges.now self.now) (listed_as heard.now.reading.now) heard.now.lows.now.items drive) out.new }
    {
        let reading = heard.reading;
        let lows = heard.lows.as_slice();
        if !is_measured(self.previous, self.series, reading, lows) {
            return;
        }
        let last = last_of(drive, within, reading, lows);
        hear_misfits(out, last, reading.ending, &reading.bits, 0, lows);
    }

    /// Before all readings.
    pub fn new() -> Self
        ensures { tape_at [] result ≡ first_tape [] }
    {
        Auditor {
            previous: Previous::new(),
            attempts: Attempts::new(),
            series: BadStartSeries::new(),
            waiting: Waiting::new(),
            places: no_places(),
            sources: Sources::new(),
            counts: no_counts(),
            widths: Widths::new(),
        }
    }

    // Where the first attempt at the frame of a reading began.
    fn first_begin(&self, reading: &Reading) -> u64
        ensures { result ≡ first_begin (tape_at [] self.now) (listed_as reading.now) }
    {
        let free = self.previous.free_before(reading.begin);
        self.attempts.first_of(reading.begin, free, &reading.bits)
    }

    // What there is to remark of what was before a reading, of its times and its blocks.
    fn hear_times<H: LineHearer>(&self, out: &mut H, heard: &Heard)
        requires { IsHeard heard.now }
        ensures { H.hears out.old (times_lines (tape_at heard.now.edges.now self.now) (listed_as heard.now.reading.now) heard.now.lows.now.items (drive_of (listed_as heard.now.reading.now) heard.now.edges.now)) out.new }
    {
        let reading = heard.reading;
        let free = self.previous.free_before(reading.begin);
        let again = self.attempts.tries_again(&reading.bits);
        let series = self.series.over(reading.ending);
        let soon = self.previous.too_soon(reading, again);
        let drive = heard.drive();
        let within = drive_within(heard.lows.as_slice());
        let failure = self.attempts.failure_of(reading.begin, free, &reading.bits);
        let first = self.first_begin(reading);
        let said = heard.ending(self.previous, self.series, drive);
        hear_noted(out, series_note(series));
        hear_answers(
            out,
            first,
            &heard.sent,
            reading.begin,
            &heard.frame,
            &self.waiting,
        );
        hear_noted(out, soon_note(soon));
        self.hear_reading_misfits(out, heard, drive, within);
        hear_noted(out, drive_note(drive));
        hear_noted(out, within_note(within));
        hear_noted(out, block_note(heard.unfinished()));
        hear_noted(out, attempt_note(failure));
        hear_noted(
            out,
            goes_on_note(&reading.bits, goes_on_after(&reading.bits)),
        );
        hear_noted(out, ending_note(&reading.bits, said));
    }

    // What there is to remark of what a frame says.
    fn hear_frame<H: LineHearer>(&self, out: &mut H, frame: &[u8])
        ensures { H.hears out.old (frame_lines (tape_at [] self.now) frame.now) out.new }
    {
        hear_noted(
            out,
            moved_note(sender(frame), moved_from(frame, &self.places)),
        );
        hear_noted(out, receivers_note(missed_receivers(frame)));
        hear_noted(out, operands_note(missing_operands(frame)));
    }

    // What there is to remark of a reading.
    fn hear_remarks<H: LineHearer>(&self, out: &mut H, heard: &Heard, timing: bool)
        requires { IsHeard heard.now }
        ensures { H.hears out.old (remark_lines timing (tape_at heard.now.edges.now self.now) (listed_as heard.now.reading.now)) out.new }
    {
        hear_read(out, heard.reading);
        self.hear_times(out, heard);
        self.hear_frame(out, &heard.frame);
        hear_reading_widths(out, timing, heard);
    }

    // A reading is kept.
    fn note(&mut self, heard: &Heard)
        requires { IsHeard heard.now }
        ensures { tape_at heard.now.edges.now self.new ≡ tape_after (listed_as heard.now.reading.now) (tape_at heard.now.edges.now self.old) }
    {
        let reading = heard.reading;
        let lows = heard.lows.as_slice();
        let free = self.previous.free_before(reading.begin);
        let first = self.first_begin(reading);
        self.attempts.note(reading, free);
        self.previous = self.previous.with(reading, lows);
        self.series = self.series.with(reading.ending, reading.begin);
        self.waiting = after_frame(
            first,
            &heard.sent,
            reading.begin,
            reading.at,
            &heard.frame,
            &self.waiting,
        );
        note_report(&heard.frame, &mut self.places);
        self.sources.note(&heard.frame, reading.at);
        count_reading(reading.ending, &reading.bits, &mut self.counts);
        self.widths.add(reading.ending, &reading.bits, 0, lows);
    }

    /// The signal free time before the next reading, also where it was long enough.
    pub fn free_taken(&self, reading: &Reading) -> Option<FreeTaken>
        ensures { result ≡ free_of (tape_at [] self.now) (listed_as reading.now) }
    {
        let again = self.attempts.tries_again(&reading.bits);
        self.previous.taken(reading, again)
    }

    /// How long the requests had waited that the next reading answers, in microseconds.
    pub fn waits(&self, reading: &Reading) -> ArrayVec<u64, WAITING>
        ensures { result.items ≡ waits_of (tape_at [] self.now) (listed_as reading.now) }
    {
        let sent = sent_frame(reading);
        let mut waits = ArrayVec::new();
        push_waits(self.first_begin(reading), &sent, &self.waiting, &mut waits);
        waits
    }

    // Its low stretches with what of each is measured, where it is measured.
    fn measured_by(&self, heard: &Heard) -> ArrayVec<Low, MOST_SENT>
        requires { IsHeard heard.now }
        ensures { result.items ≡ measured_by (tape_at heard.now.edges.now self.now) (listed_as heard.now.reading.now) heard.now.lows.now.items (drive_of (listed_as heard.now.reading.now) heard.now.edges.now) }
    {
        let reading = heard.reading;
        let lows = heard.lows.as_slice();
        let mut kept = ArrayVec::new();
        if !is_measured(self.previous, self.series, reading, lows) {
            return kept;
        }
        let last = last_of(heard.drive(), drive_within(lows), reading, lows);
        push_owned(last, lows, &mut kept);
        kept
    }

    /// The low stretches of the next reading with those of their widths that an audit measures: one without a rise has no low time,
    /// one without the next fall no total. `edges` are those of the capture from its fall on.
    pub fn measured(&self, reading: &Reading, edges: &[Edge]) -> ArrayVec<Low, MOST_SENT>
        ensures { result.items ≡ measured_of (tape_at edges.now self.now) (listed_as reading.now) }
    {
        let lows = lows_of(reading, edges);
        let heard = Heard::new(reading, edges, &lows);
        self.measured_by(&heard)
    }

    /// Has what there is to remark of a reading heard, and keeps it. `edges` are those of the capture from its fall on.
    pub fn remark<H: LineHearer>(
        &mut self,
        out: &mut H,
        reading: &Reading,
        edges: &[Edge],
        timing: bool,
    )
        ensures kept { tape_at edges.now self.new ≡ tape_after (listed_as reading.now) (tape_at edges.now self.old) }
        ensures written { H.hears out.old (remark_lines timing (tape_at edges.now self.old) (listed_as reading.now)) out.new }
    {
        let lows = lows_of(reading, edges);
        let heard = Heard::new(reading, edges, &lows);
        self.hear_remarks(out, &heard, timing);
        self.note(&heard);
    }

    /// Has what there is to say of all readings up to an end heard.
    pub fn summarize<H: LineHearer>(&self, out: &mut H, end: u64)
        ensures { H.hears out.old (summary_lines end (tape_at [] self.now)) out.new }
    {
        out.note(AuditNote::Summary);
        hear_late(out, end, &self.waiting);
        hear_claims(out, &self.sources, self.sources.active());
        hear_counts(out, 0, &self.counts);
        hear_widths(out, self.widths);
    }
}
