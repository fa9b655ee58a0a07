//! Times that are written as ranges of instants.
use explain_again::{Spot, is_taken_as_range};
use explain_lists::Draft;
use explain_marks::{Input, is_number};
use explain_near::add_enclosed;
use std::alloc::AllocError;

/// What stands between the two times of a range, here and elsewhere.
const MARKS: &[&str] = &["...", "..", "-"];

/// The most instants of a range.
const MOST_INSTANTS: u64 = 1_000_000;

/// Two times with a mark between them.
#[derive(Clone, Copy)]
struct TimeRange<'a> {
    from: &'a str,
    to: &'a str,
}

impl TimeRange<'_> {
    // Whether a test may have it: it does not end before it begins, and is short enough.
    fn is_right(self) -> bool {
        match (self.from.parse::<u64>(), self.to.parse::<u64>()) {
            (Ok(from), Ok(to)) => from <= to && to.saturating_sub(from) < MOST_INSTANTS,
            _ => false,
        }
    }
}

// The range that a word has been written for.
fn range_in(word: &str) -> Option<TimeRange<'_>> {
    for mark in MARKS {
        if let Some((from, to)) = word.split_once(*mark) {
            if is_number(from, u64::MAX) && is_number(to, u64::MAX) {
                return Some(TimeRange { from, to });
            }
        }
    }
    None
}

// Suggests a range in the place of a time of a test, where one may stand there. Returns whether it does.
fn add_instants(draft: &mut Draft, spot: Spot<'_>, word: &str, range: TimeRange<'_>) -> bool {
    let TimeRange { from, to } = range;
    if !range.is_right() || !is_taken_as_range(draft, spot, word, from, to) {
        return false;
    }
    match format!(in draft.alloc(); "  `{word}`: did you mean `{from}..{to}`?\n") {
        Ok(text) => draft.add(text.as_str()),
        Err(AllocError) => draft.fail(),
    }
    true
}

// What is said of a range where none may stand.
fn of_place(what: Input, is_time: bool) -> &'static str {
    match what {
        Input::Test if is_time => {
            "a range reads `T..U` or `T..U/S`, in the place of one time of the script"
        }
        Input::Test => "a range stands in the place of a time alone",
        Input::CaptureTest => "a range of instants is one of a script, and not of a capture",
        _ => "a range of instants, `T..U`, is read by `hdminet check`",
    }
}

/// What a word may have been meant for that is written as a range, in the place of a time or of another number. Returns whether it
/// is one.
pub fn add_range(draft: &mut Draft, spot: Spot<'_>, word: &str, is_time: bool) -> bool {
    let Some(range) = range_in(word) else {
        return false;
    };
    if !is_time || !add_instants(draft, spot, word, range) {
        draft.add_line(of_place(spot.at.what, is_time));
    }
    true
}

/// The two times of a window that stand as one word before this one, after `from`. Returns whether they do.
pub fn add_window(draft: &mut Draft, spot: Spot<'_>) -> bool {
    let times = spot.moved_to(spot.word.saturating_sub(1));
    let from = spot.moved_to(spot.word.saturating_sub(2));
    if spot.word < 2 || from.text() != "from" {
        return false;
    }
    match range_in(times.text()) {
        Some(range) => {
            let word = times.text();
            match format!(in draft.alloc(); "{} to ", range.from) {
                Ok(front) => add_enclosed(draft, times, front.as_str(), range.to, "", word),
                Err(AllocError) => {
                    draft.fail();
                    false
                }
            }
        }
        None => false,
    }
}
