//! Which words of a line are at fault.
use crate::edges::in_line;
use crate::expectations::{after_label, label_words};
use crate::fault::{Input, InputFault};
use crate::form::most_fitting;
use crate::grammar::SESSION_ALONE;
use crate::slips::slip_of;
use capture_forms::{CaptureForm, Cause};
use expect_text::ExpectCause;
use explain_lists::{Gaps, word_at};
use message_lay::LayCause;
use message_text::AssembleError;
use room_script::ScriptCause;

/// Words side by side in a line, by their numbers from 0.
#[derive(Clone, Copy)]
pub struct Mark {
    pub first: usize,
    pub last: usize,
}

/// One word.
pub fn one(word: usize) -> Option<Mark> {
    Some(Mark {
        first: word,
        last: word,
    })
}

/// All words from one on.
pub fn from(word: usize) -> Option<Mark> {
    Some(Mark {
        first: word,
        last: usize::MAX,
    })
}

/// Whether a word is a decimal number up to a limit, with no sign and no zero before it.
pub fn is_number(word: &str, limit: u64) -> bool {
    let is_plain = !word.starts_with("+") && !word.starts_with("0");
    (is_plain || word == "0") && matches!(word.parse::<u64>(), Ok(number) if number <= limit)
}

/// Whether a line has this word there.
pub fn is_word(line: &str, index: usize, text: &str) -> bool {
    match word_at(line, index) {
        Some(word) => word == text,
        None => false,
    }
}

// The words of a frame's text that are at fault for a cause, from this word of a line on.
fn of_frame(cause: AssembleError, word: usize) -> Option<Mark> {
    match cause {
        AssembleError::Address | AssembleError::Name => one(word),
        AssembleError::Operand | AssembleError::Count | AssembleError::TooLong => from(word),
    }
}

/// The word of a line with which a frame's text begins, by the word that is at fault for a cause.
pub fn frame_start(cause: AssembleError, word: usize) -> usize {
    match cause {
        AssembleError::Address => word,
        AssembleError::Name => word.saturating_sub(1),
        AssembleError::Operand | AssembleError::Count | AssembleError::TooLong => {
            word.saturating_sub(2)
        }
    }
}

// A line that is a frame's text.
fn in_frame(cause: AssembleError) -> Option<Mark> {
    match cause {
        AssembleError::Address => of_frame(cause, 0),
        AssembleError::Name => of_frame(cause, 1),
        AssembleError::Operand | AssembleError::Count | AssembleError::TooLong => {
            of_frame(cause, 2)
        }
    }
}

fn in_script(cause: ScriptCause, word: usize) -> Option<Mark> {
    match cause {
        ScriptCause::Frame(cause) => of_frame(cause, word),
        ScriptCause::Hex => from(word),
        ScriptCause::Word
        | ScriptCause::Number
        | ScriptCause::Name
        | ScriptCause::Width
        | ScriptCause::Order
        | ScriptCause::Close
        | ScriptCause::TooMany
        | ScriptCause::End => one(word),
    }
}

// A line with a frame to lay.
fn in_laid(cause: LayCause, word: usize) -> Option<Mark> {
    match cause {
        LayCause::Frame(cause) => of_frame(cause, word),
        LayCause::Blocks => from(word),
        LayCause::Word
        | LayCause::Number
        | LayCause::Width
        | LayCause::Slot
        | LayCause::Order
        | LayCause::Late => one(word),
    }
}

// A line with a label or an expectation. A pattern is at fault up to its end.
fn in_expectation(cause: ExpectCause, word: usize) -> Option<Mark> {
    match cause {
        ExpectCause::Pattern => from(word),
        ExpectCause::Word
        | ExpectCause::Number
        | ExpectCause::Name
        | ExpectCause::Label
        | ExpectCause::Order
        | ExpectCause::Unmet => one(word),
    }
}

// A line of a capture. Where no name is the signal's, all names are at fault.
fn in_capture(form: CaptureForm, cause: Cause, word: usize, line: &str) -> Option<Mark> {
    match form {
        CaptureForm::Edges if cause == Cause::Line => in_line(line, word),
        CaptureForm::Csv if cause == Cause::Signal => from(word),
        CaptureForm::Edges | CaptureForm::Vcd | CaptureForm::Pin | CaptureForm::Csv => one(word),
    }
}

/// What parts the words of a fault's line.
pub fn gaps_of(fault: InputFault) -> Gaps {
    match fault {
        InputFault::Capture {
            form: CaptureForm::Vcd,
            ..
        } => Gaps::Blanks,
        InputFault::Capture {
            form: CaptureForm::Csv,
            ..
        } => Gaps::Commas,
        _ => Gaps::Spaces,
    }
}

// The word at fault of a line of an EDID's text. A quote and all after it are one word.
fn in_text(line: &str, word: usize) -> Option<Mark> {
    match word_at(line, word) {
        Some(text) if text.starts_with("\"") => from(word),
        _ => one(word),
    }
}

// A line of a session that begins as one of its own does, and has another form: the first word that does not fit.
fn in_session(what: Input, cause: ScriptCause, line: &str) -> Option<Mark> {
    let most = most_fitting(SESSION_ALONE, line);
    if what == Input::Session && cause == ScriptCause::Word && most > 0 {
        one(most)
    } else {
        None
    }
}

// A line of a script, in a test with its label, or in a session.
fn in_line_of_script(what: Input, cause: ScriptCause, word: usize, line: &str) -> Option<Mark> {
    match in_session(what, cause, line) {
        Some(mark) => Some(mark),
        None => after_label(label_words(what, line), in_script(cause, word)),
    }
}

// The words at fault where nothing else slipped.
fn told(what: Input, fault: InputFault, line: &str) -> Option<Mark> {
    match fault {
        InputFault::Topology(at) => one(at.word),
        InputFault::Script(at) => in_line_of_script(what, at.cause, at.word, line),
        InputFault::Past { word, .. } => one(word),
        InputFault::Expectation(at) => in_expectation(at.cause, at.word),
        InputFault::Range(at) => one(at.word),
        InputFault::Steps { word, .. } => one(word),
        InputFault::Frame { cause, .. } => in_frame(cause),
        InputFault::Lay { cause, word, .. } => in_laid(cause, word),
        InputFault::Capture {
            form,
            cause,
            word,
            ..
        } => in_capture(form, cause, word, line),
        InputFault::Edid(_) => from(1),
        InputFault::TextField { word, .. } => in_text(line, word),
        InputFault::TextSyntax { .. } => one(0),
        InputFault::Hex { .. }
        | InputFault::NoPort
        | InputFault::NoParting(_)
        | InputFault::Whole(_) => None,
    }
}

/// The words at fault of a fault's line, as it is shown: those that slipped, or else those that the fault tells.
pub fn marked(what: Input, fault: InputFault, line: &str) -> Option<Mark> {
    match slip_of(fault, line) {
        Some(found) => Some(found.mark),
        None => told(what, fault, line),
    }
}
