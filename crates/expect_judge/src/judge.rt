//! What is found of each line of a script, by what is told of its run.
ghost use Rattle.std.specs.Prelude.{◌≡◌, ◌++◌, [], ℕ, map, nat_eq, IfOk, OnOk};
ghost use Rattle.std.specs.HashMap.{get};
ghost use Rattle.std.specs.Option.{option_copied, option_map};
ghost use Rattle.text_core.specs.Lines.{lines_of};
ghost use Rattle.text_core.specs.Words.{words_after, words_of};
ghost use Rattle.expect_text.specs.Form.{window_of};
ghost use Rattle.expect_judge.specs.Told.{event_as, round_as, told_as};
ghost use Rattle.expect_judge.specs.Judged.{event_instant, failure, finding_as, findings_of, first_state, has_word, has_words, instant_at, is_of_state, is_state_met, is_word, lacks_words, later_states, line_judged, noted, nothing, or_more, other_judged, refusal_at, refused_judged, rounds_judged, span_from, span_of, state_judged, state_words, states_for, unremarked_judged};

use crate::index::Index;
use crate::lines::{EventLine, Told};
use crate::named::is_labelled;
use crate::seen::TimeSpan;
use expect_text::{ExpectLine, ExpectWindow, Labels, Quantity, form_in, onset_in, unlabelled};
use std::alloc::{AllocError, Global};
use std::collections::HashMap;
use text_core::{first_line, first_word};

/// What is found of a line.
#[derive(Clone, Copy, Debug, PartialEq, Eq)]
pub struct Judged {
    /// Whether the expectation holds; `None` of a line that is none.
    pub holds: Option<bool>,
    /// The instant of the line: that at which its event was applied, or the end of the first round that meets the
    /// expectation.
    pub at: Option<u64>,
    /// The span of time in which rounds were looked at.
    pub span: Option<TimeSpan>,
    /// How many of them meet the pattern.
    pub count: u64,
}

/// What is found of a line that expects something.
#[derive(Clone, Copy, Debug)]
pub struct JudgedLine<'a> {
    pub line: u64,
    pub judged: Judged,
    /// What stands below its test of a state or of the audit, where that failed; empty where it is of neither.
    pub below: &'a [u8],
}

// What fails.
fn failure() -> Judged
    ensures { result ≡ failure }
{
    Judged {
        holds: Some(false),
        at: None,
        span: None,
        count: 0,
    }
}

// What is found of a line that expects nothing and has no label.
fn nothing() -> Judged
    ensures { result ≡ nothing }
{
    Judged {
        holds: None,
        at: None,
        span: None,
        count: 0,
    }
}

// The instant of a line.
fn instant_at(instants: &HashMap<u64, u64>, line: Option<u64>) -> Option<u64>
    ensures { result ≡ instant_at (λ number. get nat_eq instants.now number) line }
{
    let line = line?;
    instants.get(&line).copied()
}

fn span_from(duration: u64, at: Option<u64>) -> Option<TimeSpan>
    ensures { result ≡ span_from duration at }
{
    let at = at?;
    Some(TimeSpan {
        from: at,
        to: at.saturating_add(duration),
    })
}

fn span_of(
    labels: &Labels<'_>,
    instants: &HashMap<u64, u64>,
    window: ExpectWindow,
) -> Option<TimeSpan>
    ensures { result ≡ span_of labels.now.script.now (λ number. get nat_eq instants.now number) (window_of window.entry) }
{
    match window {
        ExpectWindow::Within { duration, label } => {
            span_from(duration, instant_at(instants, labels.line_of(label)))
        }
        ExpectWindow::From { from, to } => Some(TimeSpan { from, to }),
    }
}

fn rounds_judged(
    index: &Index<'_>,
    quantity: Quantity,
    pattern: &[u8],
    span: Option<TimeSpan>,
) -> Judged
    ensures { result ≡ rounds_judged (map round_as index.now.told.rounds.now) quantity pattern.now span }
{
    let Some(span) = span else {
        return failure();
    };
    let seen = index.rounds_seen(span, pattern);
    let holds = quantity.allows(seen.count);
    Judged {
        holds: Some(holds),
        at: if holds { seen.first } else { None },
        span: Some(span),
        count: seen.count,
    }
}

fn refusal_at<'a>(index: &Index<'a>, line: Option<u64>) -> Option<&'a [u8]>
    ensures { option_copied result ≡ refusal_at (map event_as index.now.told.events.now) line }
{
    match index.event_at(line?) {
        None => None,
        Some(event) => event.refused,
    }
}

fn is_word(word: &[u8], other: Option<&[u8]>) -> bool
    ensures { result ≡ is_word word.now (option_copied other.entry) }
{
    match other {
        None => false,
        Some(other) => other == word,
    }
}

fn refused_judged(
    labels: &Labels<'_>,
    index: &Index<'_>,
    number: u64,
    label: Option<&[u8]>,
    word: &[u8],
) -> Judged
    ensures { result ≡ refused_judged labels.now.script.now (map event_as index.now.told.events.now) number (option_copied label.entry) word.now }
{
    let line = labels.event_meant(number, label);
    Judged {
        holds: Some(is_word(word, refusal_at(index, line))),
        at: None,
        span: None,
        count: 0,
    }
}

fn has_word(word: &[u8], text: Option<&[u8]>) -> bool
    ensures { result ≡ has_word word.now (words_after (option_copied text.entry)) }
{
    let mut rest = text;
    'words: while let Some(words) = rest {
        let (other, others) = first_word(words);
        if other == word {
            return true;
        }
        rest = others;
    }
    false
}

// Whether each word of a text is among those of another.
fn has_words(text: &[u8], other: Option<&[u8]>) -> bool
    ensures { result ≡ has_words (words_of text.now) (words_after (option_copied other.entry)) }
{
    let mut rest = Some(text);
    'words: while let Some(words) = rest {
        let (word, others) = first_word(words);
        if !has_word(word, other) {
            return false;
        }
        rest = others;
    }
    true
}

// Whether no word of a text is among those of another.
fn lacks_words(text: Option<&[u8]>, other: Option<&[u8]>) -> bool
    ensures { result ≡ lacks_words (words_after (option_copied text.entry)) (words_after (option_copied other.entry)) }
{
    let mut rest = text;
    'words: while let Some(words) = rest {
        let (word, others) = first_word(words);
        if has_word(word, other) {
            return false;
        }
        rest = others;
    }
    true
}

// Whether each of the words is among those of another text; after `not` none is.
fn is_state_met(words: &[u8], other: Option<&[u8]>) -> bool
    ensures { result ≡ is_state_met (words_of words.now) (words_after (option_copied other.entry)) }
{
    let (word, others) = first_word(words);
    if word == b"not".as_slice() {
        lacks_words(others, other)
    } else {
        has_words(words, other)
    }
}

// What the line of a state reports after the device's name.
fn state_words(line: &[u8]) -> Option<&[u8]>
    ensures { words_after (option_copied result) ≡ state_words (words_of line.now) }
{
    let (_verb, rest) = first_word(line);
    let (_device, rest) = first_word(rest?);
    rest
}

fn state_judged(state: &[u8], words: &[u8]) -> Judged
    ensures { result ≡ state_judged state.now (words_of words.now) }
{
    Judged {
        holds: Some(is_state_met(words, state_words(state))),
        at: None,
        span: None,
        count: 0,
    }
}

// The instant at which the event of a line was applied.
fn event_instant(event: Option<EventLine>) -> Option<u64>
    ensures { result ≡ event_instant (option_map event_as event.entry) }
{
    match event {
        None => None,
        Some(event) => Some(event.at),
    }
}

// What is found of a line that has a label and expects nothing.
fn other_judged(index: &Index<'_>, number: u64, onset: Option<u64>) -> Judged
    ensures { result ≡ other_judged (map event_as index.now.told.events.now) number onset }
{
    let at = match onset {
        None => event_instant(index.event_at(number)),
        Some(onset) => Some(onset),
    };
    Judged {
        holds: None,
        at,
        span: None,
        count: 0,
    }
}

// What is found of a line that expects no remark of an audit, by those that are told.
fn unremarked_judged(told: &[u8]) -> Judged
    ensures { result ≡ unremarked_judged told.now }
{
    Judged {
        holds: Some(told.is_empty()),
        at: None,
        span: None,
        count: 0,
    }
}

fn line_judged(
    labels: &Labels<'_>,
    index: &Index<'_>,
    state: &[u8],
    instants: &HashMap<u64, u64>,
    number: u64,
    line: &[u8],
) -> Judged
    ensures { result ≡ line_judged labels.now.script.now (told_as index.now.told) state.now (λ number. get nat_eq instants.now number) number line.now }
{
    match form_in(unlabelled(line).rest) {
        Err(_) => failure(),
        Ok(form) => match form {
            ExpectLine::Other => {
                if is_labelled(line) {
                    other_judged(index, number, onset_in(unlabelled(line).rest))
                } else {
                    nothing()
                }
            }
            ExpectLine::Rounds {
                quantity,
                window,
                pattern,
            } => rounds_judged(index, quantity, pattern, span_of(labels, instants, window)),
            ExpectLine::State { words, .. } => state_judged(state, words),
            ExpectLine::Refused { label, word } => {
                refused_judged(labels, index, number, label, word)
            }
            ExpectLine::Unremarked { .. } => unremarked_judged(state),
        },
    }
}

/// Whether a line speaks of a state or of the audit.
pub fn is_of_state(line: &[u8]) -> bool
    ensures { result ≡ is_of_state line.now }
{
    match form_in(unlabelled(line).rest) {
        Err(_) => false,
        Ok(form) => match form {
            ExpectLine::Other => false,
            ExpectLine::Rounds { .. } => false,
            ExpectLine::State { .. } => true,
            ExpectLine::Refused { .. } => false,
            ExpectLine::Unremarked { .. } => true,
        },
    }
}

// The state line of a line.
fn first_state<'a>(of_state: bool, states: &'a [Vec<u8>]) -> &'a [u8]
    ensures { result.now ≡ first_state of_state (map (λ state. state.items) states.now) }
{
    if !of_state {
        return &[];
    }
    match states {
        [] => &[],
        [state, ..] => state,
    }
}

// The state lines of the lines after it.
fn later_states<'a>(of_state: bool, states: &'a [Vec<u8>]) -> &'a [Vec<u8>]
    ensures { map (λ state. state.items) result.now ≡ later_states of_state (map (λ state. state.items) states.now) }
{
    if !of_state {
        return states;
    }
    match states {
        [] => &[],
        [_, others @ ..] => others,
    }
}

// Notes the instant of a line, where it has one.
#[tactic(auto, using(crate::proofs::Judging::put))]
fn note_instant(
    instants: &mut HashMap<u64, u64>,
    number: u64,
    at: Option<u64>,
) -> Result<(), AllocError>
    ensures { OnOk result ((line : ℕ) → get nat_eq instants.new line ≡ noted (λ number. get nat_eq instants.old number) number at line) }
{
    let Some(at) = at else {
        return Ok(());
    };
    match instants.insert(number, at) {
        Ok(_) => Ok(()),
        Err(_) => Err(AllocError),
    }
}

// Adds what is found of a line, where it expects something.
#[tactic(auto, using(crate::proofs::Judging::none_found, crate::proofs::Judging::one_found))]
fn add_finding<'a>(
    found: &mut Vec<JudgedLine<'a>>,
    line: u64,
    judged: Judged,
    below: &'a [u8],
) -> Result<(), AllocError>
    ensures { OnOk result (map finding_as found.new.items ≡ map finding_as found.old.items ++ or_more line below.now judged judged.holds []) }
{
    let Some(_) = judged.holds else {
        return Ok(());
    };
    found.push(JudgedLine {
        line,
        judged,
        below,
    })?;
    Ok(())
}

// What is found of each line of a script that expects something, in order.
#[tactic(auto, using(crate::proofs::Judging::no_more, crate::proofs::Judging::none_noted))]
fn judged_by<'a>(
    alloc: Global,
    labels: &Labels<'_>,
    index: &Index<'_>,
    states: &[Vec<u8>],
    texts: &'a [Vec<u8>],
) -> Result<Vec<JudgedLine<'a>>, AllocError>
    ensures { IfOk result (λ found. map finding_as found.items ≡ findings_of labels.now.script.now (told_as index.now.told) (states_for (lines_of labels.now.script.now) (map (λ state. state.items) states.now)) (states_for (lines_of labels.now.script.now) (map (λ text. text.items) texts.now))) }
{
    let mut instants = HashMap::new(alloc);
    let mut found = Vec::new(alloc);
    let mut rest = labels.script;
    let mut left = states;
    let mut texts_left = texts;
    let mut number = 1u64;
    'lines: while let Some((line, after)) = first_line(rest) {
        let of_state = is_of_state(line);
        let state = first_state(of_state, left);
        let judged = line_judged(labels, index, state, &instants, number, line);
        note_instant(&mut instants, number, judged.at)?;
        let below = first_state(of_state, texts_left);
        add_finding(&mut found, number, judged, below)?;
        rest = after;
        left = later_states(of_state, left);
        texts_left = later_states(of_state, texts_left);
        number += 1;
    }
    Ok(found)
}

/// What is found of each line of a script that expects something, in order, by what is told of its run and the state lines of the
/// lines that speak of one. `texts` are what stands below the tests of these lines, where they fail.
///
/// # Errors
///
/// Want of memory.
pub fn all_judged<'a>(
    alloc: Global,
    labels: &Labels<'_>,
    told: &Told<'_>,
    states: &[Vec<u8>],
    texts: &'a [Vec<u8>],
) -> Result<Vec<JudgedLine<'a>>, AllocError>
    ensures { IfOk result (λ found. map finding_as found.items ≡ findings_of labels.now.script.now (told_as told.now) (states_for (lines_of labels.now.script.now) (map (λ state. state.items) states.now)) (states_for (lines_of labels.now.script.now) (map (λ text. text.items) texts.now))) }
{
    let index = Index::new(alloc, labels.script, told)?;
    judged_by(alloc, labels, &index, states, texts)
}
