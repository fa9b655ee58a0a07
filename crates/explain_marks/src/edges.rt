//! Which words of an edge file's line are at fault.
use crate::marks::{Mark, from, is_number, one};
use explain_lists::{word_at, word_count};
use line_wave::LATEST_INSTANT;

// Whether a line begins with a time.
fn has_time(line: &str) -> bool {
    match word_at(line, 0) {
        Some(time) => is_number(time, LATEST_INSTANT),
        None => false,
    }
}

/// The words at fault of a line that is no line of an edge file, of which this is the first: all words where the time is none
/// of them, since the line stands after the end; what is too much; the time where nothing stands after it.
pub fn in_line(line: &str, word: usize) -> Option<Mark> {
    match word {
        0 if has_time(line) => from(0),
        1 if word_count(line) < 2 => one(0),
        2 => from(2),
        _ => one(word),
    }
}
