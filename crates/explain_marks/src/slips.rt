//! Slips that make another word of a line at fault than the one that was written wrong.
use crate::expectations::{window_start, without_label};
use crate::fault::InputFault;
use crate::grammar::{REFUSALS, is_event_word, is_script_verb};
use crate::marks::{Mark, is_word};
use device_features::KeyWord;
use expect_text::ExpectCause;
use explain_lists::{word_at, word_count};
use room_script::{ScriptCause, TopologyCause};
use text_core::Kind;

/// What slipped.
#[derive(Clone, Copy, Debug, PartialEq, Eq)]
pub enum WordSlip {
    /// Two spaces stand side by side.
    Gap,
    /// `at` stands before a time that takes none.
    StrayAt,
    /// The time is missing.
    NoTime,
    /// The key stands before the device's name.
    KeyFirst,
    /// The duration is missing.
    NoDuration,
    /// The number of a count is missing.
    NoCount,
    /// The name of a label is missing.
    NoName,
    /// The count of ports stands before the kind.
    PortsFirst,
    /// A word stands between the devices of a `plug` line.
    StrayWord,
}

/// A slip, and its words.
#[derive(Clone, Copy)]
pub struct Slipped {
    pub slip: WordSlip,
    pub mark: Mark,
}

// Words of a line, by their numbers after its label.
fn at_words(slip: WordSlip, first: usize, last: usize) -> Option<Slipped> {
    Some(Slipped {
        slip,
        mark: Mark { first, last },
    })
}

// The first empty word before the first quote.
fn gap_in(line: &str) -> Option<usize> {
    let mut number = 0usize;
    for word in line.split(' ') {
        if word.is_empty() {
            return Some(number);
        }
        if word.contains("\"") {
            return None;
        }
        number = number.saturating_add(1);
    }
    None
}

fn is_key(word: Option<&str>) -> bool {
    match word {
        Some(word) => KeyWord::named(word.as_bytes()).is_some(),
        None => false,
    }
}

fn in_event(line: &str) -> Option<Slipped> {
    if is_event_word(word_at(line, 1).unwrap_or("")) {
        return at_words(WordSlip::NoTime, 1, 1);
    }
    let is_of_key = is_word(line, 2, "press") || is_word(line, 2, "release");
    let has_name = word_at(line, 4).is_some() && !is_key(word_at(line, 4));
    if is_of_key && is_key(word_at(line, 3)) && has_name {
        return at_words(WordSlip::KeyFirst, 3, 4);
    }
    None
}

fn begins_with_letter(word: &str) -> bool {
    match word.as_bytes().first() {
        Some(byte) => byte.is_ascii_lowercase(),
        None => false,
    }
}

// Of `expect state T NAME WORD`.
fn in_state(line: &str) -> Option<Slipped> {
    match word_at(line, 2) {
        Some("at") => at_words(WordSlip::StrayAt, 2, 2),
        Some(word) if begins_with_letter(word) && !begins_with_digit(word_at(line, 3)) => {
            at_words(WordSlip::NoTime, 2, 2)
        }
        _ => None,
    }
}

// Of an expectation of rounds without the number of its count, or without a duration, by the number of the word with which its
// window begins.
fn in_window(line: &str, start: usize) -> Option<Slipped> {
    let before = start.saturating_sub(1);
    let after = start.saturating_add(1);
    if is_word(line, before, "within") || is_word(line, before, "from") {
        at_words(WordSlip::NoCount, before, before)
    } else if is_word(line, start, "within") && is_word(line, after, "of") {
        at_words(WordSlip::NoDuration, after, after)
    } else {
        None
    }
}

// Of `expect refused NAME WORD` without NAME, below no event.
fn in_refusal(line: &str) -> Option<Slipped> {
    let word = word_at(line, 2)?;
    if REFUSALS.contains(&word) && word_count(line) == 3 {
        at_words(WordSlip::NoName, 2, 2)
    } else {
        None
    }
}

fn in_expected(line: &str) -> Option<Slipped> {
    match word_at(line, 1) {
        Some("state") => in_state(line),
        Some("refused") => in_refusal(line),
        _ => in_window(line, window_start(line)),
    }
}

// Of a label without its name.
fn in_label(line: &str) -> Option<Slipped> {
    match (word_at(line, 0), word_at(line, 1)) {
        (Some("label"), Some("at" | "pulse" | "pull" | "pin" | "expect")) => {
            at_words(WordSlip::NoName, 1, 1)
        }
        _ => None,
    }
}

// Of a line without a label, where a word is at fault that may not stand there.
fn in_line(line: &str) -> Option<Slipped> {
    match word_at(line, 0) {
        Some("at") => in_event(line),
        Some("expect") => in_expected(line),
        Some(verb) if is_script_verb(verb) && is_word(line, 1, "at") => {
            at_words(WordSlip::StrayAt, 1, 1)
        }
        _ => None,
    }
}

// The slip of a line of a script that has this word at fault, after its label of so many words.
fn in_script(line: &str, labels: usize, word: usize) -> Option<Slipped> {
    let found = in_line(line)?;
    if found.mark.first > word {
        return None;
    }
    at_words(
        found.slip,
        found.mark.first.saturating_add(labels),
        found.mark.last.saturating_add(labels),
    )
}

// An empty word before the one at fault.
fn before(line: &str, word: usize) -> Option<Slipped> {
    let gap = gap_in(line)?;
    if gap < word {
        at_words(WordSlip::Gap, gap, gap)
    } else {
        None
    }
}

// The first of two.
fn or_slipped(first: Option<Slipped>, second: Option<Slipped>) -> Option<Slipped> {
    match first {
        Some(found) => Some(found),
        None => second,
    }
}

fn is_kind(word: Option<&str>) -> bool {
    match word {
        Some(word) => Kind::named(word.as_bytes()).is_some(),
        None => false,
    }
}

fn begins_with_digit(word: Option<&str>) -> bool {
    matches!(word.unwrap_or("").as_bytes(), [first, ..] if first.is_ascii_digit())
}

fn in_topology(line: &str) -> Option<Slipped> {
    match word_at(line, 0) {
        Some("device") if is_kind(word_at(line, 3)) && begins_with_digit(word_at(line, 2)) => {
            at_words(WordSlip::PortsFirst, 2, 3)
        }
        Some("plug") => match word_at(line, 2) {
            Some("to" | "into" | "in" | "on" | "at") if word_count(line) == 5 => {
                at_words(WordSlip::StrayWord, 2, 2)
            }
            _ => None,
        },
        _ => None,
    }
}

fn of_topology(line: &str, cause: TopologyCause, word: usize) -> Option<Slipped> {
    match cause {
        TopologyCause::Word | TopologyCause::Number | TopologyCause::Name => {
            or_slipped(before(line, word), in_topology(line))
        }
        _ => None,
    }
}

fn of_script(line: &str, cause: ScriptCause, word: usize) -> Option<Slipped> {
    let own = without_label(line);
    let shown = word.saturating_add(own.words);
    match cause {
        ScriptCause::Word | ScriptCause::Number | ScriptCause::Name => or_slipped(
            in_label(line),
            or_slipped(before(line, shown), in_script(own.line, own.words, word)),
        ),
        _ => None,
    }
}

fn of_expectation(line: &str, cause: ExpectCause, word: usize) -> Option<Slipped> {
    let own = without_label(line);
    match cause {
        ExpectCause::Word | ExpectCause::Number | ExpectCause::Name => or_slipped(
            in_label(line),
            or_slipped(
                before(line, word),
                in_script(own.line, own.words, word.saturating_sub(own.words)),
            ),
        ),
        ExpectCause::Label => in_script(own.line, own.words, word.saturating_sub(own.words)),
        _ => None,
    }
}

/// The slip of a fault's line, as it is shown.
pub fn slip_of(fault: InputFault, line: &str) -> Option<Slipped> {
    match fault {
        InputFault::Topology(at) => of_topology(line, at.cause, at.word),
        InputFault::Script(at) => of_script(line, at.cause, at.word),
        InputFault::Expectation(at) => of_expectation(line, at.cause, at.word),
        InputFault::Steps { word, .. } | InputFault::Lay { word, .. } => before(line, word),
        _ => None,
    }
}
