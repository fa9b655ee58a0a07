//! Whether a suggestion is taken in its place.
use crate::captures::of_capture;
use crate::changed::{Changed, changed_line};
use crate::expectations::{of_capture_test, of_test};
use crate::lines::{of_frame, of_laid, of_text, of_words};
use crate::scripts::{is_whole_read, of_script, of_session, of_steps, of_topology};
use crate::spot::Spot;
use explain_lists::{Draft, word_count};
use explain_marks::{FaultyLine, Input, InputFault, is_line_end};
use std::alloc::{AllocError, Global};

// The word at which a line of a script, or of expectations, is refused.
fn of_scripted(
    alloc: Global,
    what: Input,
    changed: Changed<'_>,
) -> Result<Option<usize>, AllocError> {
    match what {
        Input::Session => of_session(alloc, changed),
        Input::Test => of_test(alloc, changed),
        Input::CaptureTest => of_capture_test(alloc, changed),
        _ => of_script(alloc, changed),
    }
}

// The word at which a line is refused that stands in the place of a faulty one: by who read that.
fn refused_word(
    alloc: Global,
    at: FaultyLine<'_>,
    line: &[u8],
) -> Result<Option<usize>, AllocError> {
    let changed = Changed::new(at.place, line);
    match at.fault {
        InputFault::Topology(_) => of_topology(alloc, changed),
        InputFault::Script(_) | InputFault::Expectation(_) | InputFault::Range(_) => {
            of_scripted(alloc, at.what, changed)
        }
        InputFault::Steps { .. } => of_steps(alloc, changed),
        InputFault::Frame { .. } => Ok(of_frame(line)),
        InputFault::Lay { .. } => of_laid(alloc, changed),
        InputFault::Capture { form, .. } => of_capture(alloc, form, changed),
        InputFault::TextSyntax { .. } | InputFault::TextField { .. } => match at.what {
            Input::EdidWords => of_words(alloc, changed),
            _ => of_text(alloc, changed),
        },
        InputFault::Past { .. }
        | InputFault::Hex { .. }
        | InputFault::Edid(_)
        | InputFault::NoPort
        | InputFault::NoParting(_)
        | InputFault::Whole(_) => Ok(Some(0)),
    }
}

// The number of the last of a text's words in a line, where the first one stands there.
fn last_word(spot: Spot<'_>, text: &str) -> usize {
    let first = spot.word.saturating_add(spot.at.labels);
    first.saturating_add(word_count(text.trim_ascii_end()).saturating_sub(1))
}

/// How far a line is read with a text in the place of words of it.
#[derive(Clone, Copy)]
enum Reach {
    /// It is refused before the end of the text.
    Refused,
    /// It is refused after the text, or lacks a word there.
    PastText,
    Whole,
}

fn reach_of(alloc: Global, spot: Spot<'_>, words: &str, text: &str) -> Result<Reach, AllocError> {
    let Some(line) = changed_line(alloc, spot, words, text)? else {
        return Ok(Reach::Refused);
    };
    Ok(match refused_word(alloc, spot.at, &line)? {
        None => Reach::Whole,
        Some(word) if word > last_word(spot, text) => Reach::PastText,
        Some(_) => Reach::Refused,
    })
}

// The same; where memory runs out the draft has failed.
fn reached(draft: &mut Draft, spot: Spot<'_>, words: &str, text: &str) -> Reach {
    match reach_of(draft.alloc(), spot, words, text) {
        Ok(reach) => reach,
        Err(AllocError) => {
            draft.fail();
            Reach::Refused
        }
    }
}

/// Whether a text is taken in the place of words of a line: the line is read again, and nothing of it is refused up to the text's
/// end.
pub fn is_taken(draft: &mut Draft, spot: Spot<'_>, words: &str, text: &str) -> bool {
    matches!(
        reached(draft, spot, words, text),
        Reach::PastText | Reach::Whole
    )
}

/// Whether a whole line is read with a text in the place of words of it.
pub fn is_whole_line_read(draft: &mut Draft, spot: Spot<'_>, words: &str, text: &str) -> bool {
    matches!(reached(draft, spot, words, text), Reach::Whole)
}

// ---- ranges

// Whether another line of an input has two points side by side, as a range of instants has.
fn has_other_range(at: FaultyLine<'_>) -> bool {
    let mut number = 0usize;
    for line in at.place.input.split(is_line_end) {
        number = number.saturating_add(1);
        let is_ranged = line.windows(2).any(|pair| pair == b"..".as_slice());
        if is_ranged && number != at.place.number {
            return true;
        }
    }
    false
}

// Whether the whole script is read with a time in the place of a word.
fn is_read_at(alloc: Global, spot: Spot<'_>, word: &str, time: &str) -> Result<bool, AllocError> {
    let Some(line) = changed_line(alloc, spot, word, time)? else {
        return Ok(false);
    };
    is_whole_read(alloc, Changed::new(spot.at.place, &line))
}

// Whether a time is taken in the place of a word, and the whole script is then read.
fn is_taken_whole(draft: &mut Draft, spot: Spot<'_>, word: &str, time: &str) -> bool {
    if !is_taken(draft, spot, word, time) {
        return false;
    }
    match is_read_at(draft.alloc(), spot, word, time) {
        Ok(is_read) => is_read,
        Err(AllocError) => {
            draft.fail();
            false
        }
    }
}

/// Whether a range from one time to another is taken in the place of a word of a test: each of the two is, the whole script is
/// read with each, and it has no other range.
pub fn is_taken_as_range(
    draft: &mut Draft,
    spot: Spot<'_>,
    word: &str,
    from: &str,
    to: &str,
) -> bool {
    spot.at.what == Input::Test
        && !has_other_range(spot.at)
        && is_taken_whole(draft, spot, word, from)
        && is_taken_whole(draft, spot, word, to)
}
