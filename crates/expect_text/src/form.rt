//! What the line of an expectation says.
ghost use Rattle.std.specs.Prelude.{◌≡◌, ◌≤◌, ◌<◌, ◌+◌, ◌^◌, length, option_map, IfOk, IfErr, IfSome};
ghost use Rattle.std.specs.Option.{option_copied};
ghost use Rattle.line_wave.specs.Bounds.{latest_event};
ghost use Rattle.text_core.specs.Words.{text_of, words_after, words_of};
ghost use Rattle.text_forms.specs.Forms.{late_time_at, said, values_of, words_at};
ghost use Rattle.room_lines.specs.declared.expect.ExpectVerb.TheVariants.{State};
ghost use Rattle.expect_text.specs.Fault.{IsNear};
ghost use Rattle.expect_text.specs.declared.form.Quantity.TheVariants.{Counted};
ghost use Rattle.expect_text.specs.Form.{IsEarly, IsForm, allows, at_least_one, bad_word, between_said, count_said, counted_in, empty_from, exact_number, expect_said, expectation_in, expectation_said, form_in, how_of, how_of_bound, in_form, in_window, is_allowed, is_open_ended, is_pattern, lacking, quantity_of, rounds_in, stars, state_by, uncounted, unremarked_by, window_as, window_pattern, window_start, window_text, within_said};

use crate::line::has_verb;
use room_lines::{EXPECT, ExpectVerb, How};
use text_core::{AtWord, at_word, byte_at, first_word, number_in};
use text_forms::{FormLine, LineCause, read_line};
use thiserror::Error;

/// Why the line of a label or an expectation is refused: the first of these that applies.
#[derive(Clone, Copy, Debug, Drop, PartialEq, Eq, Error)]
pub enum ExpectCause {
    /// No such expectation; a word that is missing or too many; an empty word of a state; after a label nothing, or a line that is
    /// no event, no pulse and no expectation.
    #[error("word")]
    Word,
    /// A pattern of no bytes or of more than 160, with more than four `*`, or with a space at an end.
    #[error("word")]
    Pattern,
    /// No number, one past 18,446,744,073,709,551,615, `at least 0`, or a state's time past 1,000,000,000,000.
    #[error("number")]
    Number,
    /// A device that the topology does not declare.
    #[error("name")]
    Name,
    /// A label that stands above already; one that no line above has; for a refusal, one that is no event's, or no event's line
    /// just above.
    #[error("label")]
    Label,
    /// The window ends before it begins, or the time of a state is past the end.
    #[error("order")]
    Order,
    /// A pattern that no line of a round meets, a word that no line of a state has, or one with which no event is refused.
    #[error("pattern")]
    Unmet,
}

/// The most bytes of a pattern.
const PATTERN_MOST: usize = 160;

/// The most `*` of a pattern.
const STARS_MOST: usize = 4;

/// Which counts a number allows.
#[derive(Clone, Copy, Debug, PartialEq, Eq)]
pub enum Bound {
    Exactly,
    AtMost,
    AtLeast,
}

/// How many rounds are expected.
#[derive(Clone, Copy, Debug, PartialEq, Eq)]
pub enum Quantity {
    /// No word says it.
    AtLeastOnce,
    /// `none`.
    Never,
    /// `once`.
    Once,
    /// `exactly N`, `at most N` or `at least N`.
    Counted { bound: Bound, number: u64 },
}

impl Bound {
    fn allows(self, number: u64, count: u64) -> bool
        ensures { result ≡ allows self number count }
    {
        match self {
            Bound::Exactly => count == number,
            Bound::AtMost => count <= number,
            Bound::AtLeast => number <= count,
        }
    }
}

impl Quantity {
    /// Whether so many rounds are as many as expected.
    pub fn allows(self, count: u64) -> bool
        ensures { result ≡ is_allowed self count }
    {
        match self {
            Quantity::AtLeastOnce => Bound::AtLeast.allows(1, count),
            Quantity::Never => Bound::Exactly.allows(0, count),
            Quantity::Once => Bound::Exactly.allows(1, count),
            Quantity::Counted { bound, number } => bound.allows(number, count),
        }
    }
}

/// The time in which rounds are looked at, in microseconds.
#[derive(Clone, Copy, Debug)]
pub enum ExpectWindow<'a> {
    /// So long from the instant of a label on.
    Within { duration: u64, label: &'a [u8] },
    /// From one time to another.
    From { from: u64, to: u64 },
}

/// What a line of a script says, without its label.
#[derive(Clone, Copy, Debug)]
pub enum ExpectLine<'a> {
    /// It is no expectation.
    Other,
    /// Rounds of the window that meet the pattern.
    Rounds {
        quantity: Quantity,
        window: ExpectWindow<'a>,
        pattern: &'a [u8],
    },
    /// The words are among those of the device's state line, had the run ended at this time; after `not` none of them is.
    State {
        time: u64,
        device: &'a [u8],
        words: &'a [u8],
    },
    /// The event with the label, or else that of the line above, is refused with the word.
    Refused {
        label: Option<&'a [u8]>,
        word: &'a [u8],
    },
    /// No remark of the audit of the run's line meets the pattern; without one there is no remark at all.
    Unremarked {
        pattern: Option<&'a [u8]>,
    },
}

// The form of a count.
fn how_of_bound(bound: Bound) -> How
    ensures { result ≡ how_of_bound bound }
{
    match bound {
        Bound::Exactly => How::Exactly,
        Bound::AtMost => How::AtMost,
        Bound::AtLeast => How::AtLeast,
    }
}

fn how_of(quantity: Quantity) -> How
    ensures { result ≡ how_of quantity }
{
    match quantity {
        Quantity::AtLeastOnce => How::AtLeastOnce,
        Quantity::Never => How::Never,
        Quantity::Once => How::Once,
        Quantity::Counted { bound, .. } => how_of_bound(bound),
    }
}

// The number of the word with which a window begins. A count's number stands before it.
fn window_start(how: How) -> usize
    ensures value { result ≡ window_start how }
    ensures later { 1 ≤ result }
    ensures few { result ≤ 4 }
{
    match how {
        How::AtLeastOnce => 1,
        How::Never | How::Once => 2,
        How::Exactly => 3,
        How::AtMost | How::AtLeast => 4,
    }
}

// The word at fault that stands so many after the first one of a window.
fn in_form(how: How, after: usize, cause: ExpectCause) -> AtWord<ExpectCause>
    requires few { after < 2 ^ 63 + 8 }
    ensures value { result ≡ in_form how after cause }
    ensures bounded { IsNear result }
{
    at_word(window_start(how) + after, cause)
}

/// The word at fault that stands so many after the first one of a window.
pub(crate) fn in_window(quantity: Quantity, after: usize, cause: ExpectCause) -> AtWord<ExpectCause>
    requires few { after < 2 ^ 63 + 8 }
    ensures value { result ≡ in_window quantity after cause }
    ensures bounded { IsNear result }
{
    in_form(how_of(quantity), after, cause)
}

fn stars(text: &[u8]) -> usize
    ensures value { result ≡ stars text.now }
    ensures within { result ≤ length text.now }
{
    match text {
        [] => 0,
        [b'*', rest @ ..] => 1 + stars(rest),
        [_, rest @ ..] => stars(rest),
    }
}

// Whether a text has a space at an end.
fn is_open_ended(text: &[u8]) -> bool
    ensures { result ≡ is_open_ended text.now }
{
    byte_at(text, 0) == b' ' || byte_at(text, text.len().saturating_sub(1)) == b' '
}

/// Whether a text is a pattern: 1 to 160 bytes, at most four `*`, and a space at neither end.
pub fn is_pattern(text: &[u8]) -> bool
    ensures { result ≡ is_pattern text.now }
{
    !text.is_empty()
        && text.len() <= PATTERN_MOST
        && stars(text) <= STARS_MOST
        && !is_open_ended(text)
}

/// A number in digits without leading zeros, at most 18,446,744,073,709,551,615.
pub fn exact_number(word: &[u8]) -> Option<u64>
    ensures { result ≡ exact_number word.now }
{
    let number = number_in(word)?;
    if number == u64::MAX && word != b"18446744073709551615".as_slice() {
        None
    } else {
        Some(number)
    }
}

// The text from a place on.
fn text_from<'t>(line: &FormLine<'t, ExpectVerb>, place: usize) -> &'t [u8]
    ensures { result.now ≡ text_of (words_at (values_of line.now) place) }
{
    match line.rest(place) {
        Some(text) => text,
        None => &[],
    }
}

fn window_text<'t>(how: How, after: usize, line: &FormLine<'t, ExpectVerb>) -> &'t [u8]
    requires few { after ≤ 4 }
    ensures { result.now ≡ window_text how after (values_of line.now) }
{
    line.text(window_start(how) + after)
}

fn window_pattern<'t>(how: How, line: &FormLine<'t, ExpectVerb>) -> &'t [u8]
    ensures { result.now ≡ window_pattern how (values_of line.now) }
{
    text_from(line, window_start(how) + 4)
}

fn at_least_one(number: Option<u64>) -> Option<u64>
    ensures { result ≡ at_least_one number }
{
    let number = number?;
    if number == 0 { None } else { Some(number) }
}

fn counted(bound: Bound, number: Option<u64>) -> Option<Quantity>
    ensures { result ≡ option_map (Counted bound) number }
{
    let number = number?;
    Some(Quantity::Counted { bound, number })
}

fn quantity_of(how: How, number: Option<u64>) -> Option<Quantity>
    ensures { result ≡ quantity_of how number }
{
    match how {
        How::AtLeastOnce => Some(Quantity::AtLeastOnce),
        How::Never => Some(Quantity::Never),
        How::Once => Some(Quantity::Once),
        How::Exactly => counted(Bound::Exactly, number),
        How::AtMost => counted(Bound::AtMost, number),
        How::AtLeast => counted(Bound::AtLeast, at_least_one(number)),
    }
}

fn count_said(how: How, line: &FormLine<'_, ExpectVerb>) -> Option<Quantity>
    ensures { result ≡ count_said how (values_of line.now) }
{
    quantity_of(how, exact_number(line.text(window_start(how) - 1)))
}

// A count without a number.
fn uncounted(how: How) -> AtWord<ExpectCause>
    ensures value { result ≡ uncounted how }
    ensures bounded { IsNear result }
{
    at_word(window_start(how) - 1, ExpectCause::Number)
}

fn within_said<'t>(
    how: How,
    line: &FormLine<'t, ExpectVerb>,
) -> Result<ExpectWindow<'t>, AtWord<ExpectCause>>
    ensures value { window_as result ≡ within_said how (values_of line.now) }
    ensures bounded { IfErr result IsNear }
{
    match exact_number(window_text(how, 1, line)) {
        None => Err(in_form(how, 1, ExpectCause::Number)),
        Some(duration) => Ok(ExpectWindow::Within {
            duration,
            label: window_text(how, 3, line),
        }),
    }
}

fn between_said<'t>(
    how: How,
    line: &FormLine<'t, ExpectVerb>,
) -> Result<ExpectWindow<'t>, AtWord<ExpectCause>>
    ensures value { window_as result ≡ between_said how (values_of line.now) }
    ensures bounded { IfErr result IsNear }
{
    let Some(from) = exact_number(window_text(how, 1, line)) else {
        return Err(in_form(how, 1, ExpectCause::Number));
    };
    let Some(to) = exact_number(window_text(how, 3, line)) else {
        return Err(in_form(how, 3, ExpectCause::Number));
    };
    Ok(ExpectWindow::From { from, to })
}

fn counted_in<'t>(
    how: How,
    pattern: &'t [u8],
    count: Option<Quantity>,
    window: Result<ExpectWindow<'t>, AtWord<ExpectCause>>,
) -> Result<ExpectLine<'t>, AtWord<ExpectCause>>
    requires near { IfErr window IsNear }
    ensures form { IsForm (counted_in how pattern.now count (window_as window.entry)) result }
    ensures early { IfOk result IsEarly }
    ensures bounded { IfErr result IsNear }
{
    let Some(quantity) = count else {
        return Err(uncounted(how));
    };
    match window {
        Err(fault) => Err(fault),
        Ok(window) => Ok(ExpectLine::Rounds {
            quantity,
            window,
            pattern,
        }),
    }
}

// The fault of a pattern comes first, then that of a count, then those of a window.
fn rounds_in<'t>(
    how: How,
    line: &FormLine<'t, ExpectVerb>,
    window: Result<ExpectWindow<'t>, AtWord<ExpectCause>>,
) -> Result<ExpectLine<'t>, AtWord<ExpectCause>>
    requires near { IfErr window IsNear }
    ensures form { IsForm (rounds_in how (values_of line.now) (window_as window.entry)) result }
    ensures early { IfOk result IsEarly }
    ensures bounded { IfErr result IsNear }
{
    let pattern = window_pattern(how, line);
    if is_pattern(pattern) {
        counted_in(how, pattern, count_said(how, line), window)
    } else {
        Err(in_form(how, 4, ExpectCause::Pattern))
    }
}

// The number of the first empty word of a state, of which the first has the number 4.
#[tactic(auto, using(crate::proofs::Parted::few_words))]
fn first_empty(text: &[u8]) -> Option<usize>
    ensures value { result ≡ empty_from 4 (words_of text.now) }
    ensures bounded { IfSome result (λ number. number + 2 < 2 ^ 64) }
{
    let mut rest = Some(text);
    let mut number = 4usize;
    'words: while let Some(words) = rest {
        let (word, others) = first_word(words);
        if word.is_empty() {
            return Some(number);
        }
        rest = others;
        number += 1;
    }
    None
}

fn lacking(text: &[u8]) -> Option<usize>
    ensures value { result ≡ lacking (words_of text.now) }
    ensures bounded { IfSome result (λ number. number + 2 < 2 ^ 64) }
{
    let (word, others) = first_word(text);
    match others {
        None => {
            if word == b"not".as_slice() {
                Some(5)
            } else {
                None
            }
        }
        Some(others) => {
            let (_word, _words) = first_word(others);
            None
        }
    }
}

// The number of a word of a state that is empty, or missing.
fn bad_word(text: &[u8]) -> Option<usize>
    ensures value { result ≡ bad_word (words_of text.now) }
    ensures bounded { IfSome result (λ number. number + 2 < 2 ^ 64) }
{
    match first_empty(text) {
        None => lacking(text),
        Some(number) => Some(number),
    }
}

fn state_by<'a>(
    bad: Option<usize>,
    time: Option<u64>,
    device: &'a [u8],
    words: &'a [u8],
) -> Result<ExpectLine<'a>, AtWord<ExpectCause>>
    requires near { IfSome bad (λ number. number + 2 < 2 ^ 64) }
    requires early { IfSome time (λ t. t ≤ latest_event) }
    ensures form { IsForm (state_by bad time device.now (words_of words.now)) result }
    ensures early { IfOk result IsEarly }
    ensures bounded { IfErr result IsNear }
{
    if let Some(number) = bad {
        return Err(at_word(number, ExpectCause::Word));
    }
    match time {
        None => Err(at_word(2, ExpectCause::Number)),
        Some(time) => Ok(ExpectLine::State {
            time,
            device,
            words,
        }),
    }
}

fn state_time(line: &FormLine<'_, ExpectVerb>) -> Option<u64>
    ensures value { result ≡ late_time_at (values_of line.now) 2 }
    ensures early { IfSome result (λ t. t ≤ latest_event) }
{
    line.late_time(2)
}

fn state_said<'t>(line: &FormLine<'t, ExpectVerb>) -> Result<ExpectLine<'t>, AtWord<ExpectCause>>
    ensures form { IsForm (expectation_said State (values_of line.now)) result }
    ensures early { IfOk result IsEarly }
    ensures bounded { IfErr result IsNear }
{
    match line.rest(4) {
        None => Err(at_word(4, ExpectCause::Word)),
        Some(words) => state_by(bad_word(words), state_time(line), line.text(3), words),
    }
}

fn unremarked_by<'a>(pattern: &'a [u8]) -> Result<ExpectLine<'a>, AtWord<ExpectCause>>
    ensures form { IsForm (unremarked_by pattern.now) result }
    ensures early { IfOk result IsEarly }
    ensures bounded { IfErr result IsNear }
{
    if is_pattern(pattern) {
        Ok(ExpectLine::Unremarked {
            pattern: Some(pattern),
        })
    } else {
        Err(at_word(2, ExpectCause::Pattern))
    }
}

// What the values of a form say.
fn expectation_said<'t>(
    line: &FormLine<'t, ExpectVerb>,
) -> Result<ExpectLine<'t>, AtWord<ExpectCause>>
    ensures form { IsForm (expectation_said line.now.verb (values_of line.now)) result }
    ensures early { IfOk result IsEarly }
    ensures bounded { IfErr result IsNear }
{
    match line.verb {
        ExpectVerb::Within(how) => rounds_in(how, line, within_said(how, line)),
        ExpectVerb::From(how) => rounds_in(how, line, between_said(how, line)),
        ExpectVerb::State => state_said(line),
        ExpectVerb::Refused => Ok(ExpectLine::Refused {
            label: Some(line.text(2)),
            word: line.text(3),
        }),
        ExpectVerb::RefusedAbove => Ok(ExpectLine::Refused {
            label: None,
            word: line.text(2),
        }),
        ExpectVerb::NoRemark => Ok(ExpectLine::Unremarked { pattern: None }),
        ExpectVerb::NoRemarkOf => unremarked_by(text_from(line, 2)),
    }
}

// The form of a line, and its values.
fn expect_said(line: &[u8]) -> Result<FormLine<'_, ExpectVerb>, AtWord<LineCause>>
    ensures form { said result ≡ expect_said (words_of line.now) }
    ensures bounded { IfErr result (λ fault. fault.word ≤ 9) }
{
    read_line(EXPECT, line)
}

fn expectation_in<'a>(text: &'a [u8]) -> Result<ExpectLine<'a>, AtWord<ExpectCause>>
    ensures form { IsForm (expectation_in (words_of text.now)) result }
    ensures early { IfOk result IsEarly }
    ensures bounded { IfErr result IsNear }
{
    match expect_said(text) {
        Ok(line) => expectation_said(&line),
        Err(fault) => Err(at_word(fault.word, ExpectCause::Word)),
    }
}

/// What a line without its label says.
///
/// # Errors
///
/// The first cause, and the word at fault in the line without its label.
pub fn form_in<'a>(rest: Option<&'a [u8]>) -> Result<ExpectLine<'a>, AtWord<ExpectCause>>
    ensures form { IsForm (form_in (words_after (option_copied rest.entry))) result }
    ensures early { IfOk result IsEarly }
    ensures bounded { IfErr result IsNear }
{
    let Some(text) = rest else {
        return Err(at_word(0, ExpectCause::Word));
    };
    let (_verb, _others) = first_word(text);
    if has_verb(b"expect", rest) {
        expectation_in(text)
    } else {
        Ok(ExpectLine::Other)
    }
}
