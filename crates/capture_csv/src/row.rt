//! A row: a time and a level.
ghost use Rattle.std.specs.Prelude.{◌≡◌, ◌+◌, ◌*◌, ◌<◌, ◌≤◌};
ghost use Rattle.capture_csv.specs.Csv.{clock_of, counted_of, field_at, fields_of, level_by, row_of, signed_time, since, time_in, time_of, word_at_fault};

use crate::clock::{clock_fraction, clock_seconds};
use crate::column::{Column, TimeUnit};
use crate::fields::{field_at, field_without_space, first_field, without_return};
use crate::level::{Said, level_of};
use crate::nanos::{nanos_by, nanos_of};
use text_core::{after, byte_at};

/// Where the letter T stands in a time of the day.
const PLACE_OF_T: usize = 10;

/// A time in nanoseconds from 0, or before it.
#[derive(Clone, Copy, Debug, PartialEq, Eq)]
pub struct Time {
    pub is_below: bool,
    pub nanos: u64,
}

/// What a row says of the line, from a time on.
#[derive(Clone, Copy, Debug, PartialEq, Eq)]
pub struct Row {
    pub time: Time,
    pub said: Said,
}

fn signed_time(is_minus: bool, nanos: u64) -> Time
    ensures { result ≡ signed_time is_minus nanos }
{
    Time {
        is_below: is_minus && nanos > 0,
        nanos,
    }
}

// A number of units, perhaps with a minus before it.
fn counted_of(unit: TimeUnit, word: &[u8]) -> Option<Time>
    ensures { result ≡ counted_of unit word.now }
{
    if byte_at(word, 0) == b'-' {
        let nanos = nanos_of(unit, after(word, 1))?;
        Some(signed_time(true, nanos))
    } else {
        let nanos = nanos_of(unit, word)?;
        Some(signed_time(false, nanos))
    }
}

// A time of the day.
fn clock_of(word: &[u8]) -> Option<Time>
    ensures { result ≡ clock_of word.now }
{
    let nanos = nanos_by(TimeUnit::Seconds, clock_seconds(word), clock_fraction(word))?;
    Some(signed_time(false, nanos))
}

// A time of the day, or a number of units.
fn time_of(unit: TimeUnit, word: &[u8]) -> Option<Time>
    ensures { result ≡ time_of unit word.now }
{
    if byte_at(word, PLACE_OF_T) == b'T' {
        clock_of(word)
    } else {
        counted_of(unit, word)
    }
}

// The time of a row.
fn time_in(unit: TimeUnit, fields: &[u8]) -> Option<Time>
    ensures { result ≡ time_in unit (fields_of fields.now) }
{
    let (word, _) = first_field(fields);
    time_of(unit, word)
}

// The level at this place.
fn level_in(place: usize, fields: &[u8]) -> Option<Said>
    ensures { result ≡ level_by (field_at place (fields_of fields.now)) }
{
    let field = field_at(Some(fields), place)?;
    level_of(field_without_space(field))
}

/// What a row says of this column.
pub fn row_of(column: Column, line: &[u8]) -> Option<Row>
    ensures { result ≡ row_of column line.now }
{
    let fields = without_return(line);
    let time = time_in(column.unit, fields)?;
    let said = level_in(column.place, fields)?;
    Some(Row { time, said })
}

/// The word at fault of a row that is refused, counted from 0: its level, where that is none after a time, and else its time.
pub fn word_at_fault(column: Column, line: &[u8]) -> usize
    ensures { result ≡ word_at_fault column line.now }
{
    let fields = without_return(line);
    if time_in(column.unit, fields).is_some() && level_in(column.place, fields).is_none() {
        column.place
    } else {
        0
    }
}

/// How long a time is after the first one, in nanoseconds.
pub fn since(first: Time, time: Time) -> Option<u128>
    ensures { result ≡ since first time }
{
    let (zero_to_first, zero_to_time) = (u128::from(first.nanos), u128::from(time.nanos));
    match (first.is_below, time.is_below) {
        (true, false) => Some(zero_to_first + zero_to_time),
        (false, true) => None,
        (true, true) => zero_to_first.checked_sub(zero_to_time),
        (false, false) => zero_to_time.checked_sub(zero_to_first),
    }
}
