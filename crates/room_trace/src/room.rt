//! A room and its script in the objects of a run.
ghost use Rattle.std.specs.Prelude.{◌≡◌, ◌++◌, codes, drop};
ghost use Rattle.text_core.specs.Adds.{Adds};
ghost use Rattle.text_core.specs.Lines.{lines_of};
ghost use Rattle.record_core.specs.Records.{object_of};
ghost use Rattle.room_trace.specs.Records.{event_cells};
ghost use Rattle.room_trace.specs.Room.{event_object, first_of, heads_in, heads_of, line_at, room_of, said_cells, said_in, said_of};

use crate::heads::{add_heads, after_word, second, word};
use crate::trace_text::{add_event, add_event_with};
use record_core::{Form, Value, cells};
use room_event::EventError;
use std::marker::Model;
use text_core::{Counted, Piece, Sink, first_line};

/// The texts of a topology and of a script. The script is read on from the line that was asked for before.
#[derive(Drop)]
pub struct RoomTexts<'a> {
    topology: &'a [u8],
    script: &'a [u8],
    ahead: &'a [u8],
    passed: u64,
}

impl<'a> Model for RoomTexts<'a> {
    ghost use Rattle.std.specs.Prelude.{◌≡◌, drop};
    ghost use Rattle.text_core.specs.Lines.{lines_of};
    ghost use Rattle.room_trace.specs.Room.{Room, room_of};

    ghost Value = { Room };

    ghost view = { λ room. room_of room.topology.now room.script.now };

    ghost invariant = { λ room. lines_of room.ahead.now ≡ drop room.passed (lines_of room.script.now) };
}

impl<'a> RoomTexts<'a> {
    /// Those of a room and its script.
    pub fn new(topology: &'a [u8], script: &'a [u8]) -> Self
        ensures { result ≡ room_of topology.now script.now }
    {
        RoomTexts {
            topology,
            script,
            ahead: script,
            passed: 0,
        }
    }

    /// The same texts again.
    pub fn copy(&self) -> Self
        ensures { result ≡ self.now }
    {
        RoomTexts::new(self.topology, self.script)
    }

    // The line of the script of a number, counted from 1.
    fn line_at(&mut self, number: u64) -> &'a [u8]
        ensures line { result.now ≡ line_at self.old.script number }
        ensures same { self.new ≡ self.old }
    {
        let place = number.saturating_sub(1);
        let ahead = moved(self.script, self.ahead, self.passed, place);
        self.ahead = ahead;
        self.passed = place;
        first_of(ahead)
    }

    #[tactic(auto, using(text_core::proofs::Adding::then))]
    fn add_heads<S: Sink>(&self, out: &mut Counted<'_, S>)
        ensures { Adds out.old out.new (heads_of self.now) }
    {
        add_heads(out, self.topology);
        add_heads(out, self.script);
    }
}

// A text without so many of its first lines.
fn after_lines(text: &[u8], count: u64) -> &[u8]
    ensures { lines_of result.now ≡ drop count (lines_of text.now) }
{
    let mut rest = text;
    let mut left = count;
    'lines: while left > 0 {
        let Some((_, after)) = first_line(rest) else {
            return rest;
        };
        rest = after;
        left -= 1;
    }
    rest
}

// A text without so many of its first lines, where `ahead` is it without those that were passed.
#[tactic(auto, using(crate::proofs::Said::drop_more))]
fn moved<'a>(text: &'a [u8], ahead: &'a [u8], passed: u64, place: u64) -> &'a [u8]
    requires { lines_of ahead.now ≡ drop passed (lines_of text.now) }
    ensures { lines_of result.now ≡ drop place (lines_of text.now) }
{
    if place < passed {
        after_lines(text, place)
    } else {
        after_lines(ahead, place - passed)
    }
}

fn first_of(text: &[u8]) -> &[u8]
    ensures { result.now ≡ first_of (lines_of text.now) }
{
    match first_line(text) {
        None => &[],
        Some((line, _)) => line,
    }
}

// What a line of the script says after its time.
fn said_in(line: &[u8]) -> &[u8]
    ensures { result.now ≡ said_in line.now }
{
    after_word(after_word(line))
}

// Adds the object of an event, with a verb, a device and all that was said.
fn add_said_of<'a, S: Sink>(
    out: &mut Counted<'_, S>,
    at: u64,
    line: u64,
    refused: Option<EventError>,
    verb: &'a [u8],
    device: &'a [u8],
    said: &'a [u8],
)
    ensures { Adds out.old out.new (object_of (codes "event") (event_cells at line refused ++ said_of verb.now device.now said.now)) }
{
    let cells = cells![
        hidden("verb", Value::One(Piece::Bytes(verb))),
        hidden("device", Value::One(Piece::Bytes(device))),
        hidden("text", Value::One(Piece::Bytes(said))),
    ];
    add_event_with(out, Form::Json, at, line, refused, &cells);
}

// Adds the object of an event, with what its line of the script says.
fn add_said<S: Sink>(
    out: &mut Counted<'_, S>,
    at: u64,
    line: u64,
    refused: Option<EventError>,
    text: &[u8],
)
    ensures { Adds out.old out.new (object_of (codes "event") (event_cells at line refused ++ said_cells text.now)) }
{
    let said = said_in(text);
    add_said_of(out, at, line, refused, word(said), second(said), said);
}

/// Adds the object of an event, in a room with what its line of the script says.
pub fn add_event_in<S: Sink>(
    out: &mut Counted<'_, S>,
    room: &mut Option<RoomTexts<'_>>,
    at: u64,
    line: u64,
    refused: Option<EventError>,
)
    ensures added { Adds out.old out.new (event_object room.old at line refused) }
    ensures same { room.new ≡ room.old }
{
    match room {
        None => add_event(out, Form::Json, at, line, refused),
        Some(room) => add_said(out, at, line, refused, room.line_at(line)),
    }
}

/// Adds the objects of the lines of a room and of the pulses, pulls and levels of the pin in its script, where there is one.
#[tactic(auto, using(text_core::proofs::Adding::nothing))]
pub fn add_room<S: Sink>(out: &mut Counted<'_, S>, room: &Option<RoomTexts<'_>>)
    ensures { Adds out.old out.new (heads_in room.now) }
{
    match room {
        None => {}
        Some(room) => room.add_heads(out),
    }
}

/// The same texts again, where there are some.
pub fn room_again<'a>(room: &Option<RoomTexts<'a>>) -> Option<RoomTexts<'a>>
    ensures { result ≡ room.now }
{
    match room {
        None => None,
        Some(room) => Some(room.copy()),
    }
}
