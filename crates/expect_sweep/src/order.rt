//! The order of a script's lines in time, and the ranges whose instants keep it.
ghost use Rattle.std.specs.Prelude.{◌≡◌, ◌+◌, ◌≤◌, Some};
ghost use Rattle.std.specs.Option.{option_copied, option_map};
ghost use Rattle.text_core.specs.Lines.{lines_of};
ghost use Rattle.text_core.specs.Words.{words_after, words_of};
ghost use Rattle.expect_sweep.specs.Order.{between, are_apart, are_times_apart, clock_as, clock_in, clock_of, crossed_from, crossing, is_crossed, is_crossed_by, keeps_order, level_in, line_of, ordered_range, range_in, range_line, range_line_as, state_clock, time_at, unless_crossing, width_in};

use crate::places::WordRole;
use crate::script::{is_range_at, range_of};
use crate::series::{InstantSeries, is_range};
use expect_text::{RangeCause, unlabelled};
use line_wave::WIDEST_PULL;
use text_core::{At, first_line, first_word, number_in};

/// What a line of a script says that has a place in time.
#[derive(Clone, Copy)]
pub(crate) enum TimedLine {
    /// `at T ..`.
    Event,
    /// `pulse T WIDTH`, of this width.
    Pulse(u64),
    /// `pull T WIDTH`, of this width.
    Pull(u64),
    /// `pin T 0`.
    Low,
    /// `pin T 1`.
    High,
    /// `end T`.
    End,
    /// `expect state T ..`.
    State,
}

/// How a line and one below it stand in time.
#[derive(Clone, Copy)]
pub(crate) enum Apart {
    AnyOrder,
    /// The second one comes at least so many microseconds after the first.
    After(u64),
    /// The second one does not come after the first.
    Before,
}

/// What a line says, and the word of its time.
#[derive(Clone, Copy)]
pub(crate) struct Clock<'a> {
    kind: TimedLine,
    word: &'a [u8],
}

/// The line of a range.
#[derive(Clone, Copy)]
pub(crate) struct RangeLine<'a> {
    line: u64,
    word: usize,
    clock: Option<Clock<'a>>,
}

/// The widest pulse that is told from wider ones, in microseconds.
const WIDTH_MOST: u64 = 65_535;

/// The widest pull that is told from wider ones, in microseconds.
const PULL_WIDTH_MOST: u64 = WIDEST_PULL + 1;

/// The least time from the end of a pulse or a pull to the begin of the next pulse, in microseconds.
const LEAST_GAP: u64 = 25_000;

/// The same to the begin of the next pull: it touches nothing.
const LEAST_HIGH: u64 = 1;

/// The least time from one level of the pin to the other, in microseconds.
const LEAST_LEVEL: u64 = 1;

// The width of a pulse or a pull, by the words after its time.
fn width_in(rest: Option<&[u8]>) -> u64
    ensures { result ≡ width_in (words_after (option_copied rest.entry)) }
{
    let Some(rest) = rest else {
        return 0;
    };
    let (width, _others) = first_word(rest);
    match number_in(width) {
        None => 0,
        Some(width) => width,
    }
}

// The level of the pin, by the words after its time.
fn level_in(rest: Option<&[u8]>) -> TimedLine
    ensures { result ≡ level_in (words_after (option_copied rest.entry)) }
{
    let Some(rest) = rest else {
        return TimedLine::Low;
    };
    let (level, _others) = first_word(rest);
    if level == b"1".as_slice() {
        TimedLine::High
    } else {
        TimedLine::Low
    }
}

fn state_clock(rest: Option<&[u8]>) -> Option<Clock<'_>>
    ensures { option_map clock_as result ≡ state_clock (words_after (option_copied rest.entry)) }
{
    let (word, _others) = first_word(rest?);
    Some(Clock {
        kind: TimedLine::State,
        word,
    })
}

// What a line without its label says of time.
fn clock_in(rest: Option<&[u8]>) -> Option<Clock<'_>>
    ensures { option_map clock_as result ≡ clock_in (words_after (option_copied rest.entry)) }
{
    let (verb, rest) = first_word(rest?);
    let (word, others) = first_word(rest?);
    if verb == b"at".as_slice() {
        Some(Clock {
            kind: TimedLine::Event,
            word,
        })
    } else if verb == b"pulse".as_slice() {
        Some(Clock {
            kind: TimedLine::Pulse(width_in(others)),
            word,
        })
    } else if verb == b"pull".as_slice() {
        Some(Clock {
            kind: TimedLine::Pull(width_in(others)),
            word,
        })
    } else if verb == b"pin".as_slice() {
        Some(Clock {
            kind: level_in(others),
            word,
        })
    } else if verb == b"end".as_slice() {
        Some(Clock {
            kind: TimedLine::End,
            word,
        })
    } else if verb == b"expect".as_slice() && word == b"state".as_slice() {
        state_clock(others)
    } else {
        None
    }
}

fn clock_of(line: &[u8]) -> Option<Clock<'_>>
    ensures { option_map clock_as result ≡ clock_of line.now }
{
    clock_in(unlabelled(line).rest)
}

// The time of a word, where in the place of a range stands the instant.
fn time_at(instant: u64, word: &[u8]) -> Option<u64>
    ensures { result ≡ time_at instant word.now }
{
    if is_range(word) {
        Some(instant)
    } else {
        number_in(word)
    }
}

fn between(above: TimedLine, below: TimedLine) -> Apart
    ensures { result ≡ between above below }
{
    match (above, below) {
        (TimedLine::Event, TimedLine::Event) => Apart::After(0),
        (TimedLine::Event, TimedLine::End) => Apart::After(1),
        (TimedLine::Pulse(width), TimedLine::Pulse(_)) => Apart::After(
            width.min(WIDTH_MOST) + LEAST_GAP,
        ),
        (TimedLine::Pulse(width), TimedLine::Pull(_)) => Apart::After(
            width.min(WIDTH_MOST) + LEAST_HIGH,
        ),
        (TimedLine::Pull(width), TimedLine::Pulse(_)) => Apart::After(
            width.min(PULL_WIDTH_MOST) + LEAST_GAP,
        ),
        (TimedLine::Pull(width), TimedLine::Pull(_)) => Apart::After(
            width.min(PULL_WIDTH_MOST) + LEAST_HIGH,
        ),
        (TimedLine::Pulse(width), TimedLine::Low) => Apart::After(
            width.min(WIDTH_MOST) + LEAST_HIGH,
        ),
        (TimedLine::Pulse(width), TimedLine::High) => Apart::After(width.min(WIDTH_MOST)),
        (TimedLine::Pull(width), TimedLine::Low) => Apart::After(
            width.min(PULL_WIDTH_MOST) + LEAST_HIGH,
        ),
        (TimedLine::Pull(width), TimedLine::High) => Apart::After(width.min(PULL_WIDTH_MOST)),
        (TimedLine::Low, TimedLine::High) => Apart::After(LEAST_LEVEL),
        (TimedLine::High, TimedLine::Low) => Apart::After(LEAST_LEVEL),
        (TimedLine::Low, TimedLine::Low) => Apart::After(0),
        (TimedLine::Low, TimedLine::Pulse(_)) => Apart::After(0),
        (TimedLine::Low, TimedLine::Pull(_)) => Apart::After(0),
        (TimedLine::High, TimedLine::High) => Apart::After(0),
        (TimedLine::High, TimedLine::Pulse(_)) => Apart::After(0),
        (TimedLine::High, TimedLine::Pull(_)) => Apart::After(0),
        (TimedLine::End, TimedLine::State) => Apart::Before,
        (TimedLine::State, TimedLine::End) => Apart::After(0),
        _ => Apart::AnyOrder,
    }
}

fn are_apart(how: Apart, first: u64, second: u64) -> bool
    ensures { result ≡ are_apart how first second }
{
    match how {
        Apart::AnyOrder => true,
        Apart::After(gap) => first <= second && gap <= second - first,
        Apart::Before => second <= first,
    }
}

fn are_times_apart(how: Apart, first: Option<u64>, second: Option<u64>) -> bool
    ensures { result ≡ are_times_apart how first second }
{
    match first {
        None => true,
        Some(first) => match second {
            None => true,
            Some(second) => are_apart(how, first, second),
        },
    }
}

// Whether the line of the range is in order with another one at an instant.
fn keeps_order(is_above: bool, other: Clock<'_>, ranged: Clock<'_>, instant: u64) -> bool
    ensures { result ≡ keeps_order is_above (clock_as other.entry) (clock_as ranged.entry) instant }
{
    let at = time_at(instant, ranged.word);
    let time = number_in(other.word);
    if is_above {
        are_times_apart(between(other.kind, ranged.kind), time, at)
    } else {
        are_times_apart(between(ranged.kind, other.kind), at, time)
    }
}

// Whether it is out of order at some instant of the range: it is at the first one or the last, then.
#[tactic(auto, using(crate::proofs::Ordered::crossed_at_ends))]
fn is_crossed(series: &InstantSeries, is_above: bool, other: Clock<'_>, ranged: Clock<'_>) -> bool
    ensures { result ≡ is_crossed series.now is_above (clock_as other.entry) (clock_as ranged.entry) }
{
    !keeps_order(is_above, other, ranged, series.from())
        || !keeps_order(is_above, other, ranged, series.last())
}

fn is_crossed_by(
    series: &InstantSeries,
    is_above: bool,
    other: Option<Clock<'_>>,
    ranged: Option<Clock<'_>>,
) -> bool
    ensures { result ≡ is_crossed_by series.now is_above (option_map clock_as other.entry) (option_map clock_as ranged.entry) }
{
    match other {
        None => false,
        Some(other) => match ranged {
            None => false,
            Some(ranged) => is_crossed(series, is_above, other, ranged),
        },
    }
}

// The number of the range among a line's words.
#[tactic(auto, using(crate::proofs::Words::few_words))]
fn range_in(line: &[u8]) -> Option<usize>
    ensures { result ≡ range_in line.now }
{
    let mut rest = Some(line);
    let mut index = 0usize;
    let mut place = WordRole::Begin;
    'words: while let Some(text) = rest {
        let (word, others) = first_word(text);
        if is_range_at(place, word) {
            return Some(index);
        }
        index += 1;
        place = place.next(word);
        rest = others;
    }
    None
}

fn line_of(number: u64, line: &[u8]) -> Option<RangeLine<'_>>
    ensures { option_map range_line_as result ≡ line_of number line.now (range_in line.now) }
{
    match range_in(line) {
        None => None,
        Some(word) => Some(RangeLine {
            line: number,
            word,
            clock: clock_of(line),
        }),
    }
}

// The first line with a range.
fn range_line(script: &[u8]) -> Option<RangeLine<'_>>
    ensures { option_map range_line_as result ≡ range_line script.now }
{
    let mut rest = script;
    let mut number = 1u64;
    'lines: while let Some((line, after)) = first_line(rest) {
        if let Some(found) = line_of(number, line) {
            return Some(found);
        }
        rest = after;
        number += 1;
    }
    None
}

// The first other line with which the line of the range is out of order at some instant.
fn crossed(script: &[u8], series: &InstantSeries, ranged: RangeLine<'_>) -> Option<u64>
    ensures { result ≡ crossed_from series.now (range_line_as ranged.entry) 1 (lines_of script.now) }
{
    let mut rest = script;
    let mut number = 1u64;
    'lines: while let Some((line, after)) = first_line(rest) {
        let is_above = number < ranged.line;
        let is_crossed = is_crossed_by(series, is_above, clock_of(line), ranged.clock);
        if is_crossed && number != ranged.line {
            return Some(number);
        }
        rest = after;
        number += 1;
    }
    None
}

// Why a range breaks the order of a script.
fn crossing(script: &[u8], series: &InstantSeries) -> Option<At<RangeCause>>
    ensures { result ≡ crossing script.now series.now }
{
    let Some(ranged) = range_line(script) else {
        return None;
    };
    match crossed(script, series, ranged) {
        None => None,
        Some(other) => Some(At {
            line: ranged.line,
            cause: RangeCause::Crosses(other),
            word: ranged.word,
        }),
    }
}

fn unless_crossing(
    script: &[u8],
    series: InstantSeries,
) -> Result<Option<InstantSeries>, At<RangeCause>>
    ensures { result ≡ unless_crossing series (crossing script.now series) }
{
    match crossing(script, &series) {
        None => Ok(Some(series)),
        Some(fault) => Err(fault),
    }
}

/// The range of a script, where it has one, whose instants keep the order of the script.
///
/// # Errors
///
/// The first line whose range is none, or is the second one; then that of a range with an instant at which its line is out of order
/// with another one: its number, and that of the first such line.
pub(crate) fn ordered_range(script: &[u8]) -> Result<Option<InstantSeries>, At<RangeCause>>
    ensures { result ≡ ordered_range script.now }
{
    match range_of(script) {
        Err(fault) => Err(fault),
        Ok(None) => Ok(None),
        Ok(Some(series)) => unless_crossing(script, series),
    }
}
