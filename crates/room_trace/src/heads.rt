//! The objects of the lines of a topology, of pulses, of pulls and of the pin.
ghost use Rattle.std.specs.Prelude.{◌≡◌, codes};
ghost use Rattle.std.specs.List.{flat_map};
ghost use Rattle.text_core.specs.Adds.{Adds};
ghost use Rattle.text_core.specs.Lines.{lines_of};
ghost use Rattle.text_core.specs.Number.{number_of};
ghost use Rattle.record_core.specs.Records.{object_of};
ghost use Rattle.room_trace.specs.Room.{after_word, edid_cells, edid_of, fourth, head_of, head_text, named_cells, named_of, second, third, timed_cells, timed_of, word};

use record_core::{Form, Value, add_record, cells};
use text_core::{Counted, Piece, Sink, after, before, first_line, len_before, number_in};

/// Which line of a topology or of a script it is.
#[derive(Clone, Copy, Debug)]
pub enum RoomLine {
    Device,
    Plug,
    Edid,
    Pulse,
    Pull,
    Pin,
    /// None of these.
    Other,
}

/// The first word of a line.
pub(crate) fn word(line: &[u8]) -> &[u8]
    ensures { result.now ≡ word line.now }
{
    before(line, len_before(line, b' '))
}

/// What stands after the first word and its space.
pub(crate) fn after_word(line: &[u8]) -> &[u8]
    ensures { result.now ≡ after_word line.now }
{
    after(line, len_before(line, b' ') + 1)
}

/// The second word.
pub(crate) fn second(line: &[u8]) -> &[u8]
    ensures { result.now ≡ second line.now }
{
    word(after_word(line))
}

fn third(line: &[u8]) -> &[u8]
    ensures { result.now ≡ third line.now }
{
    second(after_word(line))
}

fn fourth(line: &[u8]) -> &[u8]
    ensures { result.now ≡ fourth line.now }
{
    third(after_word(line))
}

fn head_of(word: &[u8]) -> RoomLine
    ensures { result ≡ head_of word.now }
{
    if word == b"device".as_slice() {
        RoomLine::Device
    } else if word == b"plug".as_slice() {
        RoomLine::Plug
    } else if word == b"edid".as_slice() {
        RoomLine::Edid
    } else if word == b"pulse".as_slice() {
        RoomLine::Pulse
    } else if word == b"pull".as_slice() {
        RoomLine::Pull
    } else if word == b"pin".as_slice() {
        RoomLine::Pin
    } else {
        RoomLine::Other
    }
}

// Adds the object of a line, from its words: a device, another word, and a number.
fn add_named_of<'a, S: Sink>(
    out: &mut Counted<'_, S>,
    kind: &str,
    other: &'a str,
    count: &'a str,
    line: &'a [u8],
    device: &'a [u8],
    of: &'a [u8],
    number: Option<u64>,
)
    ensures { Adds out.old out.new (object_of kind.now (named_of other.now count.now line.now device.now of.now number)) }
{
    let cells = cells![
        line("", Value::String(line)),
        hidden("device", Value::One(Piece::Bytes(device))),
        hidden(other, Value::One(Piece::Bytes(of))),
        hidden(count, Value::One(Piece::DecimalOrDash(number))),
    ];
    add_record(out, Form::Json, kind, &cells);
}

// Adds the object of a line of a device.
fn add_named<S: Sink>(out: &mut Counted<'_, S>, kind: &str, other: &str, count: &str, line: &[u8])
    ensures { Adds out.old out.new (object_of kind.now (named_cells other.now count.now line.now)) }
{
    let number = number_in(fourth(line));
    add_named_of(
        out,
        kind,
        other,
        count,
        line,
        second(line),
        third(line),
        number,
    );
}

fn add_edid_of<'a, S: Sink>(out: &mut Counted<'_, S>, line: &'a [u8], bytes: &'a [u8])
    ensures { Adds out.old out.new (object_of (codes "edid") (edid_of line.now bytes.now)) }
{
    let cells = cells![
        line("", Value::String(line)),
        hidden("edid", Value::One(Piece::Bytes(bytes))),
    ];
    add_record(out, Form::Json, "edid", &cells);
}

// Adds the object of a line of an EDID.
fn add_edid<S: Sink>(out: &mut Counted<'_, S>, line: &[u8])
    ensures { Adds out.old out.new (object_of (codes "edid") (edid_cells line.now)) }
{
    add_edid_of(out, line, second(line));
}

fn add_timed_of<'a, S: Sink>(
    out: &mut Counted<'_, S>,
    kind: &str,
    name: &'a str,
    line: &'a [u8],
    at: Option<u64>,
    number: Option<u64>,
)
    ensures { Adds out.old out.new (object_of kind.now (timed_of name.now line.now at number)) }
{
    let cells = cells![
        line("", Value::String(line)),
        hidden("at", Value::One(Piece::DecimalOrDash(at))),
        hidden(name, Value::One(Piece::DecimalOrDash(number))),
    ];
    add_record(out, Form::Json, kind, &cells);
}

// Adds the object of a line with an instant and a number.
fn add_timed<S: Sink>(out: &mut Counted<'_, S>, kind: &str, name: &str, line: &[u8])
    ensures { Adds out.old out.new (object_of kind.now (timed_cells name.now line.now)) }
{
    let at = number_in(second(line));
    let number = number_in(third(line));
    add_timed_of(out, kind, name, line, at, number);
}

// Adds the object of a line, if it has one.
fn add_head<S: Sink>(out: &mut Counted<'_, S>, line: &[u8])
    ensures { Adds out.old out.new (head_text line.now) }
{
    match head_of(word(line)) {
        RoomLine::Device => add_named(out, "device", "kind", "ports", line),
        RoomLine::Plug => add_named(out, "plug", "parent", "port", line),
        RoomLine::Edid => add_edid(out, line),
        RoomLine::Pulse => add_timed(out, "pulse", "width", line),
        RoomLine::Pull => add_timed(out, "pull", "width", line),
        RoomLine::Pin => add_timed(out, "pin", "level", line),
        RoomLine::Other => out.add(b""),
    }
}

/// Adds the objects of the devices, plugs, EDIDs, pulses, pulls and levels of the pin among these lines.
pub(crate) fn add_heads<S: Sink>(out: &mut Counted<'_, S>, text: &[u8])
    ensures { Adds out.old out.new (flat_map head_text (lines_of text.now)) }
{
    let mut rest = text;
    'lines: while let Some((line, after)) = first_line(rest) {
        add_head(out, line);
        rest = after;
    }
}
