//! What is shown of readings as they end.
ghost use Rattle.std.specs.Prelude.{◌≡◌, ◌||◌, None, false, option_map, true};
ghost use Rattle.std.specs.Option.{option_to_list};
ghost use Rattle.line_reading.specs.Reports.{listed_as};
ghost use Rattle.capture_join.specs.Joined.{has_begun, lines_from, opened};
ghost use Rattle.follow_core.specs.Shown.{Writes, WritesLast, ended_lines, listed_in};
ghost use Rattle.follow_core.specs.Teller.{listed_pair};

use crate::follower::EndedReadings;
use crate::teller::PassedReadings;
use crate::view::ReadingView;
use audit_notes::{Folding, HeldRun, LineHearer, LineWriter};
use capture_join::{has_begun, hear_known, hear_opened};
use line_frames::Reading;
use record_core::Form;
use text_core::{Counted, Sink, WriteFault};

/// What is held back of the readings that have ended.
#[derive(Drop)]
pub struct Shown {
    /// Whether one has ended that one line stands for.
    is_held: bool,
    /// The bad starts of which the last reading is one.
    run: Option<HeldRun>,
}

/// The instants from which readings are by themselves: what was known of them before a step, and what is known now.
#[derive(Clone, Copy, Debug)]
pub struct Starts {
    pub before: Option<u64>,
    pub now: Option<u64>,
}

impl Shown {
    /// No reading has ended.
    pub fn new() -> Self
        ensures held { result.is_held ≡ false }
        ensures run { result.run ≡ None }
    {
        Shown {
            is_held: false,
            run: None,
        }
    }
}

// Hears a reading, if one has ended. Returns whether one line stands for it, or for one before it.
fn hear_one<H: LineHearer>(
    reading: &Option<Reading>,
    start: Option<u64>,
    is_held: bool,
    out: &mut H,
) -> bool
    ensures hears { H.hears out.old (lines_from start is_held (option_to_list (option_map listed_as reading.now))) out.new }
    ensures held { result ≡ (is_held || has_begun start (option_to_list (option_map listed_as reading.now))) }
{
    hear_known(out, reading, start, is_held);
    has_begun(reading, start, is_held)
}

// Hears what has ended by the edges of a step.
fn hear_pair<H: LineHearer>(
    pair: &PassedReadings,
    start: Option<u64>,
    is_held: bool,
    out: &mut H,
) -> bool
    ensures hears { H.hears out.old (lines_from start is_held (listed_pair pair.now)) out.new }
    ensures held { result ≡ (is_held || has_begun start (listed_pair pair.now)) }
{
    let first = hear_one(&pair.first, start, is_held, out);
    hear_one(&pair.second, start, first, out)
}

// Hears what has ended by a line.
fn hear_readings<H: LineHearer>(
    heard: &EndedReadings,
    start: Option<u64>,
    is_held: bool,
    out: &mut H,
) -> bool
    ensures hears { H.hears out.old (lines_from start is_held (listed_in heard.now)) out.new }
    ensures held { result ≡ (is_held || has_begun start (listed_in heard.now)) }
{
    let by_edge = hear_pair(&heard.by_edge, start, is_held, out);
    let by_calm = hear_pair(&heard.by_calm, start, by_edge, out);
    hear_one(&heard.last, start, by_calm, out)
}

// Hears the line that stands for those before, where the instant is known now, and what has ended.
fn hear_ended<H: LineHearer>(
    heard: &EndedReadings,
    starts: Starts,
    is_held: bool,
    out: &mut H,
) -> bool
    ensures hears { H.hears out.old (ended_lines starts is_held heard.now) out.new }
    ensures held { result ≡ (is_held || has_begun starts.now (listed_in heard.now)) }
{
    hear_opened(out, starts.before, starts.now, is_held);
    hear_readings(heard, starts.now, is_held, out)
}

// Writes what has ended, up to a fault: its lines, or their objects.
fn write_plain<S: Sink>(
    written: Form,
    starts: Starts,
    shown: &mut Shown,
    heard: &EndedReadings,
    out: &mut S,
) -> Result<(), WriteFault>
    ensures { Writes written false starts shown.old heard.now shown.new (S.contents out.old) (S.contents out.new) result }
{
    let mut lines = LineWriter {
        form: written,
        out: Counted::new(out),
    };
    shown.is_held = hear_ended(heard, starts, shown.is_held, &mut lines);
    let text = lines.out;
    let done = text.written();
    // No effect at run time. The proof reads what `out` holds from the sink that comes back.
    let _below = text.into_sink();
    match done {
        Ok(_) => Ok(()),
        Err(fault) => Err(fault),
    }
}

// Writes it with bad starts one after another as one line: those of which the last reading is one are held back.
fn write_folded<S: Sink>(
    written: Form,
    starts: Starts,
    shown: &mut Shown,
    heard: &EndedReadings,
    out: &mut S,
) -> Result<(), WriteFault>
    ensures { Writes written true starts shown.old heard.now shown.new (S.contents out.old) (S.contents out.new) result }
{
    let mut lines = Folding {
        hearer: LineWriter {
            form: written,
            out: Counted::new(out),
        },
        run: shown.run.take(),
    };
    shown.is_held = hear_ended(heard, starts, shown.is_held, &mut lines);
    shown.run = lines.run;
    let text = lines.hearer.out;
    let done = text.written();
    // No effect at run time. The proof reads what `out` holds from the sink that comes back.
    let _below = text.into_sink();
    match done {
        Ok(_) => Ok(()),
        Err(fault) => Err(fault),
    }
}

// Writes what is left with the end, where bad starts are folded.
fn write_folded_last<S: Sink>(
    written: Form,
    starts: Starts,
    shown: Shown,
    heard: &EndedReadings,
    out: &mut S,
) -> Result<(), WriteFault>
    ensures { WritesLast written true starts shown heard.now (S.contents out.old) (S.contents out.new) result }
{
    let mut lines = Folding {
        hearer: LineWriter {
            form: written,
            out: Counted::new(out),
        },
        run: shown.run,
    };
    let _is_held = hear_ended(heard, starts, shown.is_held, &mut lines);
    let writer = lines.finish();
    let text = writer.out;
    let done = text.written();
    // No effect at run time. The proof reads what `out` holds from the sink that comes back.
    let _below = text.into_sink();
    match done {
        Ok(_) => Ok(()),
        Err(fault) => Err(fault),
    }
}

// The same where they are not.
fn write_plain_last<S: Sink>(
    written: Form,
    starts: Starts,
    shown: Shown,
    heard: &EndedReadings,
    out: &mut S,
) -> Result<(), WriteFault>
    ensures { WritesLast written false starts shown heard.now (S.contents out.old) (S.contents out.new) result }
{
    let mut shown = shown;
    write_plain(written, starts, &mut shown, heard, out)
}

/// Writes what is shown of readings that have ended, up to a fault.
pub(crate) fn write_ended<S: Sink>(
    view: ReadingView,
    starts: Starts,
    shown: &mut Shown,
    heard: &EndedReadings,
    out: &mut S,
) -> Result<(), WriteFault>
    ensures { Writes view.written view.folds starts shown.old heard.now shown.new (S.contents out.old) (S.contents out.new) result }
{
    if view.folds {
        write_folded(view.written, starts, shown, heard, out)
    } else {
        write_plain(view.written, starts, shown, heard, out)
    }
}

/// Writes what is left with the end, up to a fault.
pub(crate) fn write_last<S: Sink>(
    view: ReadingView,
    starts: Starts,
    shown: Shown,
    heard: &EndedReadings,
    out: &mut S,
) -> Result<(), WriteFault>
    ensures { WritesLast view.written view.folds starts shown heard.now (S.contents out.old) (S.contents out.new) result }
{
    if view.folds {
        write_folded_last(view.written, starts, shown, heard, out)
    } else {
        write_plain_last(view.written, starts, shown, heard, out)
    }
}
