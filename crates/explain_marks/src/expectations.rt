//! The lines of the script of a test: labels and expectations.
use crate::fault::Input;
use crate::form::Lines;
use crate::grammar::{CAPTURE_EXPECTATIONS, EXPECTATIONS};
use crate::marks::{Mark, is_word};
use explain_lists::word_at;

/// A line without its label, and how many words that takes.
#[derive(Clone, Copy)]
pub struct Unlabelled<'a> {
    pub words: usize,
    pub line: &'a str,
}

// The name of a label, and the line after it.
fn label_of(line: &str) -> Option<(&str, &str)> {
    line.strip_prefix("label ")?.split_once(' ')
}

/// A line without its label.
pub fn without_label(line: &str) -> Unlabelled<'_> {
    match label_of(line) {
        Some((_, rest)) => Unlabelled {
            words: 2,
            line: rest,
        },
        None => Unlabelled { words: 0, line },
    }
}

/// A line of a script as it is read, without the label that it may have in a test.
pub fn plain(what: Input, line: &str) -> &str {
    match what {
        Input::Test => without_label(line).line,
        _ => line,
    }
}

/// How many words the label of a script's line takes, which only a test has.
pub fn label_words(what: Input, line: &str) -> usize {
    match what {
        Input::Test => without_label(line).words,
        _ => 0,
    }
}

/// The label that a line has.
pub fn labelled_by(line: &[u8]) -> Option<&str> {
    let (name, _) = label_of(str::from_utf8(line).ok()?)?;
    Some(name)
}

/// The number of the word with which the window of an expectation of rounds begins, by its line without a label.
pub fn window_start(line: &str) -> usize {
    match word_at(line, 1) {
        Some("none" | "once") => 2,
        Some("exactly") => 3,
        Some("at") => 4,
        _ => 1,
    }
}

/// The forms of the lines of expectations, of a script or of a capture.
pub fn forms_of(what: Input) -> &'static [Lines] {
    match what {
        Input::CaptureTest => CAPTURE_EXPECTATIONS,
        _ => EXPECTATIONS,
    }
}

/// The same words of a line with its label before it.
pub fn after_label(words: usize, mark: Option<Mark>) -> Option<Mark> {
    let mark = mark?;
    Some(Mark {
        first: mark.first.saturating_add(words),
        last: mark.last.saturating_add(words),
    })
}

// Whether a line gives an instant of a capture a name.
fn names_instant(what: Input, line: &str) -> bool {
    let rest = without_label(line);
    what == Input::CaptureTest && rest.words > 0 && is_word(rest.line, 0, "at")
}

/// A line of expectations as its form has it: without a label, unless it gives an instant a name.
pub fn as_form(what: Input, line: &str) -> &str {
    if names_instant(what, line) {
        line
    } else {
        without_label(line).line
    }
}
