//! The lines of a trace that tell events, and its last one, or their objects.
ghost use Rattle.std.specs.Prelude.{◌≡◌, ◌++◌, None, Some, codes, map};
ghost use Rattle.text_core.specs.Adds.{Adds};
ghost use Rattle.record_core.specs.Cells.{plain_of};
ghost use Rattle.record_core.specs.Records.{record_text};
ghost use Rattle.room_trace.specs.Records.{end_text, event_cells, event_text};
ghost use Rattle.room_trace.specs.TraceText.{error_word, key_word, plug_word, submit_word, unplug_word};

use device_core::{KeyError, SubmitError};
use edid_tree::{PlugError, UnplugError};
use record_core::{Cell, Form, Value, add_record, add_record_with, cells};
use room_event::EventError;
use text_core::{Counted, Piece, Sink};

fn plug_word(error: PlugError) -> &'static str
    ensures { result.now ≡ plug_word error }
{
    match error {
        PlugError::PortRange => "port-range",
        PlugError::PortTaken => "port-taken",
        PlugError::NotLoose => "not-loose",
        PlugError::Loop => "loop",
    }
}

fn unplug_word(error: UnplugError) -> &'static str
    ensures { result.now ≡ unplug_word error }
{
    match error {
        UnplugError::NotPlugged => "not-plugged",
    }
}

fn key_word(error: KeyError) -> &'static str
    ensures { result.now ≡ key_word error }
{
    match error {
        KeyError::NotForKind => "not-for-kind",
        KeyError::OffWire => "off-wire",
    }
}

fn submit_word(error: SubmitError) -> &'static str
    ensures { result.now ≡ submit_word error }
{
    match error {
        SubmitError::QueueFull => "queue-full",
        SubmitError::OwnAddress => "own-address",
        SubmitError::NoAddress => "no-address",
        SubmitError::OffWire => "off-wire",
    }
}

/// The word with which an event is refused.
pub fn error_word(error: EventError) -> &'static str
    ensures { result.now ≡ error_word error }
{
    match error {
        EventError::Plug(error) => plug_word(error),
        EventError::Unplug(error) => unplug_word(error),
        EventError::Key(error) => key_word(error),
        EventError::Send(error) => submit_word(error),
    }
}

// Adds an event that was taken.
fn add_taken<S: Sink>(out: &mut Counted<'_, S>, form: Form, at: u64, line: u64, more: &[Cell])
    ensures { Adds out.old out.new (record_text form (codes "event") (event_cells at line None ++ map plain_of more.now)) }
{
    let cells = cells![
        both("", "at", Value::One(Piece::Decimal(at))),
        both(" event ", "script_line", Value::One(Piece::Decimal(line))),
        both(" ", "verdict", Value::One(Piece::Text("ok"))),
        hidden("cause", Value::Nothing),
    ];
    add_record_with(out, form, "event", &cells, more);
}

// Adds an event that was refused.
fn add_refused<S: Sink>(
    out: &mut Counted<'_, S>,
    form: Form,
    at: u64,
    line: u64,
    error: EventError,
    more: &[Cell],
)
    ensures { Adds out.old out.new (record_text form (codes "event") (event_cells at line (Some error) ++ map plain_of more.now)) }
{
    let cells = cells![
        both("", "at", Value::One(Piece::Decimal(at))),
        both(" event ", "script_line", Value::One(Piece::Decimal(line))),
        both(" ", "verdict", Value::One(Piece::Text("refused"))),
        both(" ", "cause", Value::One(Piece::Text(error_word(error)))),
    ];
    add_record_with(out, form, "event", &cells, more);
}

/// Adds the line of an event, with more cells after its own, or its object.
pub(crate) fn add_event_with<S: Sink>(
    out: &mut Counted<'_, S>,
    form: Form,
    at: u64,
    line: u64,
    refused: Option<EventError>,
    more: &[Cell],
)
    ensures { Adds out.old out.new (record_text form (codes "event") (event_cells at line refused ++ map plain_of more.now)) }
{
    match refused {
        None => add_taken(out, form, at, line, more),
        Some(error) => add_refused(out, form, at, line, error, more),
    }
}

/// Adds the line of an event, or its object: when it was applied, its line in the script, and why it was refused.
pub fn add_event<S: Sink>(
    out: &mut Counted<'_, S>,
    form: Form,
    at: u64,
    line: u64,
    refused: Option<EventError>,
)
    ensures { Adds out.old out.new (event_text form at line refused) }
{
    add_event_with(out, form, at, line, refused, &[]);
}

/// Adds the last line, or its object.
pub fn add_end<S: Sink>(out: &mut Counted<'_, S>, form: Form, end: u64)
    ensures { Adds out.old out.new (end_text form end) }
{
    let cells = cells![
        both("", "at", Value::One(Piece::Decimal(end))),
        line(" end", Value::Nothing),
    ];
    add_record(out, form, "end", &cells);
}
