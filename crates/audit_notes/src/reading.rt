//! Readings as records, and the lines that stand for several of them.
ghost use Rattle.text_core.specs.Adds.{Adds};
ghost use Rattle.audit_notes.specs.Readings.{group_text, reading_text};

use line_frames::Reading;
use message_text::add_reading;
use reading_record::add_reading_with;
use record_core::{Form, Value, add_record, cell};
use text_core::{Counted, Piece, Sink};

/// What the object of a reading is called, and that of several.
const READING: &str = "reading";

/// Bad starts one after another: the first fall, the last ending, in microseconds, and how many they are.
#[derive(Clone, Copy, Debug, PartialEq, Eq)]
pub struct BadStartRun {
    pub from: u64,
    pub to: u64,
    pub count: u64,
}

/// Readings that have one line.
#[derive(Clone, Copy, Debug, PartialEq, Eq)]
pub enum ReadingGroup {
    /// Those that begin before this instant, at which a capture joined the line.
    Joined(u64),
    BadStarts(BadStartRun),
}

// The object of a reading.
fn add_reading_object<S: Sink>(out: &mut Counted<'_, S>, reading: &Reading)
    ensures { Adds out.old out.new (reading_text Form.Json reading.now) }
{
    add_reading_with(out, Form::Json, READING, reading, &[]);
}

/// Adds the line of a reading, or its object.
pub(crate) fn add_any_reading<S: Sink>(out: &mut Counted<'_, S>, form: Form, reading: &Reading)
    ensures { Adds out.old out.new (reading_text form reading.now) }
{
    match form {
        Form::Text => add_reading(out, reading),
        Form::Json => add_reading_object(out, reading),
    }
}

fn add_joined<S: Sink>(out: &mut Counted<'_, S>, form: Form, instant: u64)
    ensures { Adds out.old out.new (group_text form (ReadingGroup.Joined instant)) }
{
    let cells = [
        cell!(both "", "begin", Value::One(Piece::Decimal(0))),
        cell!(both " ", "close", Value::One(Piece::Decimal(instant))),
        cell!(both " ", "ending", Value::One(Piece::Text("joined"))),
        cell!(both " ", "bits", Value::One(Piece::Text("-"))),
    ];
    add_record(out, form, READING, &cells);
}

fn add_run<S: Sink>(out: &mut Counted<'_, S>, form: Form, run: BadStartRun)
    ensures { Adds out.old out.new (group_text form (ReadingGroup.BadStarts run)) }
{
    let cells = [
        cell!(both "", "begin", Value::One(Piece::Decimal(run.from))),
        cell!(both " ", "close", Value::One(Piece::Decimal(run.to))),
        cell!(both " ", "ending", Value::One(Piece::Text("bad-starts"))),
        cell!(both " ", "count", Value::One(Piece::Decimal(run.count))),
    ];
    add_record(out, form, READING, &cells);
}

/// Adds the line of several readings, or its object.
pub(crate) fn add_group<S: Sink>(out: &mut Counted<'_, S>, form: Form, group: ReadingGroup)
    ensures { Adds out.old out.new (group_text form group) }
{
    match group {
        ReadingGroup::Joined(instant) => add_joined(out, form, instant),
        ReadingGroup::BadStarts(run) => add_run(out, form, run),
    }
}
