//! The column of a signal, and the unit of the times, as the line of names has them.
ghost use Rattle.std.specs.Prelude.{◌≡◌, position};
ghost use Rattle.capture_csv.specs.Unit.{after_bracket, closes, is_unit, opens, is_micro, unit_in, unit_of};
ghost use Rattle.capture_csv.specs.Csv.{column_of};

use crate::fields::{column_in, first_field, without_return};
use text_core::{after, before, byte_at};

/// A unit of time.
#[derive(Clone, Copy, Debug, PartialEq, Eq)]
pub enum TimeUnit {
    Seconds,
    Milliseconds,
    Microseconds,
    Nanoseconds,
}

/// The column of a signal.
#[derive(Clone, Copy, Debug, PartialEq, Eq)]
pub struct Column {
    /// Where it stands in a row; the time stands at 0.
    pub place: usize,
    /// That of the times.
    pub unit: TimeUnit,
}

// Where the first bracket stands that opens.
fn bracket_in(name: &[u8]) -> Option<usize>
    ensures { result ≡ position opens name.now }
{
    name.iter().position(|b| *b == b'[' || *b == b'(')
}

// What stands after it.
fn after_bracket(name: &[u8]) -> &[u8]
    ensures { result.now ≡ after_bracket (position opens name.now) name.now }
{
    match bracket_in(name) {
        None => &[],
        Some(place) => after(name, place + 1),
    }
}

fn closes(byte: u8) -> bool
    ensures { result ≡ closes byte }
{
    byte == b']' || byte == b')'
}

// Whether a text begins with this unit and a bracket that closes.
fn is_unit(text: &[u8], unit: &[u8]) -> bool
    ensures { result ≡ is_unit unit.now text.now }
{
    before(text, unit.len()).eq_ignore_ascii_case(unit) && closes(byte_at(text, unit.len()))
}

// The micro sign in UTF-8, the Greek letter, and the micro sign in Latin-1.
fn is_micro(text: &[u8]) -> bool
    ensures { result ≡ is_micro text.now }
{
    is_unit(text, b"us")
        || is_unit(text, b"\xc2\xb5s")
        || is_unit(text, b"\xce\xbcs")
        || is_unit(text, b"\xb5s")
}

fn unit_in(text: &[u8]) -> TimeUnit
    ensures { result ≡ unit_in text.now }
{
    if is_unit(text, b"ms") {
        TimeUnit::Milliseconds
    } else if is_micro(text) {
        TimeUnit::Microseconds
    } else if is_unit(text, b"ns") {
        TimeUnit::Nanoseconds
    } else {
        TimeUnit::Seconds
    }
}

// The unit that the name of a column has in brackets; seconds where it has none of these.
fn unit_of(name: &[u8]) -> TimeUnit
    ensures { result ≡ unit_of name.now }
{
    unit_in(after_bracket(name))
}

/// The column of a signal, by the first line, which has the names. An empty name stands for the first after that of the time.
pub fn column_of(line: &[u8], signal: &[u8]) -> Option<Column>
    ensures { result ≡ column_of signal.now line.now }
{
    let (name, fields) = first_field(without_return(line));
    let place = column_in(fields, signal)?;
    Some(Column {
        place,
        unit: unit_of(name),
    })
}
