//! What a line may have been meant to be where no word of it is known: it is read with another word, with one more or one less, with
//! words joined or parted, or in another order.
use crate::forms::script_forms;
use capture_forms::Cause;
use expect_text::ExpectCause;
use explain_again::{Spot, is_taken, is_whole_line_read};
use explain_lists::{Draft, word_at, word_count};
use explain_marks::{
    FaultyLine, Form, Input, InputFault, LAID, Lines, STEPS, TOPOLOGY, as_form, fitting, forms_in,
    forms_of, is_number, is_value, slip_of,
};
use explain_near::add_suggestion;
use message_lay::LayCause;
use message_text::AssembleError;
use room_script::{ScriptCause, TopologyCause};
use std::alloc::{AllocError, Global};
use text_core::At;

/// The longest line of which this is tried.
const LONGEST: usize = 120;

/// The most lines above one of which this is tried: each time all of them are read again.
const MOST_ABOVE: usize = 1_000;

/// The most words of a line whose order is changed.
const MOST_MOVED: usize = 8;

/// Marks that stand between words elsewhere.
const MARKS: &[&str] = &[",", ";", ":", "=", ">", "/", "."];

/// What stands between the parts of one word.
const JOINTS: &[&str] = &["-", "=", "+"];

/// Words of a line, from one up to another.
type Run = (usize, usize);

// The forms of the lines of which a faulty one is to be one.
fn forms_at(at: FaultyLine<'_>) -> &'static [Lines] {
    match at.fault {
        InputFault::Topology(_) => TOPOLOGY,
        InputFault::Script(_) => script_forms(at.what),
        InputFault::Expectation(_) => forms_of(at.what),
        InputFault::Steps { .. } => STEPS,
        InputFault::Lay { .. } => LAID,
        _ => &[],
    }
}

// ---- whole lines

// Whether a line is read, but for words that it lacks at its end, with a text in the place of words of it.
fn is_read(draft: &mut Draft, spot: Spot<'_>, words: &str, text: &str) -> bool {
    let tail = spot.tail();
    let rest = tail.strip_prefix(words).unwrap_or("");
    match format!(in draft.alloc(); "{text}{rest}") {
        Ok(line) => is_taken(draft, spot, tail, line.as_str()),
        Err(AllocError) => {
            draft.fail();
            false
        }
    }
}

// Suggests a text in the place of words where the line is then read so. Returns whether it is.
fn add_read(draft: &mut Draft, spot: Spot<'_>, text: &str, words: &str) -> bool {
    is_read(draft, spot, words, text) && add_suggestion(draft, spot, text, words)
}

// Suggests a text in the place of words where the whole line is then read. Returns whether it is.
fn add_whole(draft: &mut Draft, spot: Spot<'_>, text: &str, words: &str) -> bool {
    is_whole_line_read(draft, spot, words, text) && add_suggestion(draft, spot, text, words)
}

// The words of a line in some runs.
fn joined(alloc: Global, line: &str, runs: &[Run]) -> Result<String, AllocError> {
    let mut text = Draft::new(alloc);
    let mut before = "";
    for run in runs {
        let (from, to) = *run;
        for number in from..to {
            if let Some(word) = word_at(line, number) {
                text.add_all(&[before, word]);
                before = " ";
            }
        }
    }
    text.finish()
}

// Whether a line is read whose words stand in some runs.
fn is_read_in(draft: &mut Draft, at: FaultyLine<'_>, runs: &[Run]) -> bool {
    match joined(draft.alloc(), at.text, runs) {
        Ok(text) => is_whole_line_read(draft, Spot { at, word: 0 }, at.text, text.as_str()),
        Err(AllocError) => {
            draft.fail();
            false
        }
    }
}

// ---- other words, and words that are missing

// The word that stands for itself at a place of a form, where a line fits the form up to there.
fn own_word(form: Form, line: &str, place: usize) -> Option<&'static str> {
    if fitting(form, line) < place {
        return None;
    }
    form.word(place).filter(|word| !is_value(word))
}

// Whether the whole line is read with a word in the place of another one.
fn is_read_with(draft: &mut Draft, spot: Spot<'_>, word: &str) -> bool {
    is_whole_line_read(draft, spot, spot.text(), word)
}

// Whether the whole line is read with a word before another one.
fn is_read_after(draft: &mut Draft, spot: Spot<'_>, word: &str) -> bool {
    match format!(in draft.alloc(); "{word} ") {
        Ok(text) => is_whole_line_read(draft, spot, "", text.as_str()),
        Err(AllocError) => {
            draft.fail();
            false
        }
    }
}

// The number that a word has in its line without a label.
fn place_of(spot: Spot<'_>, line: &str) -> usize {
    let labels = word_count(spot.at.text).saturating_sub(word_count(line));
    spot.word.saturating_sub(labels)
}

// Says which word of a form is missing before one, where the line is read with it. Returns whether one is.
fn add_missing_word(draft: &mut Draft, spot: Spot<'_>) -> bool {
    let line = as_form(spot.at.what, spot.at.text);
    let forms = forms_in(forms_at(spot.at));
    for form in forms.as_slice() {
        if let Some(word) = own_word(*form, line, place_of(spot, line)) {
            if is_read_after(draft, spot, word) {
                draft.add_all(&["  `", word, "` is missing before this word\n"]);
                return true;
            }
        }
    }
    false
}

// Suggests the one word of the forms with which the line is read in the place of another. Returns whether there is one alone.
fn add_own_word(draft: &mut Draft, spot: Spot<'_>) -> bool {
    if is_number(spot.text(), u64::MAX) {
        return false;
    }
    let line = as_form(spot.at.what, spot.at.text);
    let forms = forms_in(forms_at(spot.at));
    let mut found = "";
    for form in forms.as_slice() {
        if let Some(word) = own_word(*form, line, place_of(spot, line)) {
            if word != found && is_read_with(draft, spot, word) {
                if !found.is_empty() {
                    return false;
                }
                found = word;
            }
        }
    }
    !found.is_empty() && add_suggestion(draft, spot, found, spot.text())
}

// ---- words that are joined, and that are parted

// Suggests a word with spaces in the place of a mark. Returns whether the line is then read.
fn add_parted_at(draft: &mut Draft, spot: Spot<'_>, mark: &str) -> bool {
    let word = spot.text();
    if !word.contains(mark) {
        return false;
    }
    match word.replace(draft.alloc(), mark, " ") {
        Ok(text) => add_read(draft, spot, text.as_str(), word),
        Err(AllocError) => {
            draft.fail();
            false
        }
    }
}

// Suggests a word with a space before the digits at its end. Returns whether the line is then read.
fn add_digits_parted(draft: &mut Draft, spot: Spot<'_>) -> bool {
    let word = spot.text();
    let front = word.trim_end_matches(|c: char| c.is_ascii_digit());
    let front = front.strip_suffix("x").unwrap_or(front);
    let digits = word.strip_prefix(front).unwrap_or("");
    let digits = digits.strip_prefix("x").unwrap_or(digits);
    if front.is_empty() || digits.is_empty() {
        return false;
    }
    match format!(in draft.alloc(); "{front} {digits}") {
        Ok(text) => add_read(draft, spot, text.as_str(), word),
        Err(AllocError) => {
            draft.fail();
            false
        }
    }
}

fn add_parted_word(draft: &mut Draft, spot: Spot<'_>) -> bool {
    for mark in MARKS {
        if add_parted_at(draft, spot, mark) {
            return true;
        }
    }
    add_digits_parted(draft, spot)
}

// Suggests words in the place of one that stands in parts, the one at fault or one before it. Returns whether there is one.
fn add_parted(draft: &mut Draft, spot: Spot<'_>) -> bool {
    let last = spot.word.min(word_count(spot.at.text).saturating_sub(1));
    for back in 0..last.saturating_add(1) {
        if add_parted_word(draft, spot.moved_to(last.saturating_sub(back))) {
            return true;
        }
    }
    false
}

// Suggests one word in the place of some, with a joint between them. Returns whether the line is then read.
fn add_with_joint(
    draft: &mut Draft,
    spot: Spot<'_>,
    words: &str,
    before: &str,
    joint: &str,
) -> bool {
    let alloc = draft.alloc();
    let Ok(text) = words.replace(alloc, " ", joint) else {
        draft.fail();
        return false;
    };
    match format!(in alloc; "{before}{text}") {
        Ok(text) => add_whole(draft, spot, text.as_str(), words),
        Err(AllocError) => {
            draft.fail();
            false
        }
    }
}

// Suggests one word in the place of some. Returns whether the line is then read.
fn add_joined_words(draft: &mut Draft, spot: Spot<'_>, words: &str) -> bool {
    if !words.contains(" ") {
        return false;
    }
    for joint in JOINTS {
        if add_with_joint(draft, spot, words, "", joint) {
            return true;
        }
    }
    are_bytes(words)
        && (add_with_joint(draft, spot, words, "", "")
            || add_with_joint(draft, spot, words, ":", ""))
}

// Whether words have two characters a byte.
fn are_bytes(words: &str) -> bool {
    words.split(' ').all(|word| word.len() % 2 == 0)
}

// Suggests one word in the place of those from the one at fault on, or from the one before it. Returns whether there is one.
fn add_joined(draft: &mut Draft, spot: Spot<'_>) -> bool {
    add_joined_from(draft, spot)
        || spot.word > 1 && add_joined_from(draft, spot.moved_to(spot.word.saturating_sub(1)))
}

// Suggests one word in the place of all from one on, or of two. Returns whether there is one.
fn add_joined_from(draft: &mut Draft, spot: Spot<'_>) -> bool {
    let next = spot.word.saturating_add(2);
    match joined(draft.alloc(), spot.at.text, &[(spot.word, next)]) {
        Ok(two) => {
            add_joined_words(draft, spot, spot.tail())
                || add_joined_words(draft, spot, two.as_str())
        }
        Err(AllocError) => {
            draft.fail();
            false
        }
    }
}

// ---- words too many

// Says that a line is read without a run of its words, where it is.
fn add_without(draft: &mut Draft, at: FaultyLine<'_>, run: Run) -> bool {
    let (from, to) = run;
    let count = word_count(at.text);
    let is_whole = from == 0 && to >= count;
    if is_whole || !is_read_in(draft, at, &[(0, from), (to, count)]) {
        return false;
    }
    match joined(draft.alloc(), at.text, &[run]) {
        Ok(words) => draft.add_all(&["  this line is read without `", words.as_str(), "`\n"]),
        Err(AllocError) => draft.fail(),
    }
    true
}

// The first word that may be one too many: of a frame an operand.
fn first_dropped(spot: Spot<'_>) -> usize {
    match spot.at.fault {
        InputFault::Frame { .. }
        | InputFault::Script(
            At {
                cause: ScriptCause::Frame(_),
                ..
            },
        ) => { spot.word }
        InputFault::Lay {
            cause: LayCause::Frame(_),
            ..
        } => spot.word,
        _ => 0,
    }
}

// Says without which word a line is read, the one at fault or one before it, or all from there on. Returns whether there is one.
fn add_dropped(draft: &mut Draft, spot: Spot<'_>) -> bool {
    let count = word_count(spot.at.text);
    let first = first_dropped(spot);
    if first >= count {
        return false;
    }
    let last = spot.word.min(count.saturating_sub(1));
    for back in 0..last.saturating_sub(first).saturating_add(1) {
        let number = last.saturating_sub(back);
        if add_without(draft, spot.at, (number, number.saturating_add(1))) {
            return true;
        }
    }
    add_without(draft, spot.at, (last, count))
}

// ---- another order

// Suggests two runs of words, one after the other, in the other order. Returns whether the line is then read.
fn add_turned(draft: &mut Draft, at: FaultyLine<'_>, first: Run, second: Run) -> bool {
    let count = word_count(at.text);
    let (from, _) = first;
    let (_, to) = second;
    if !is_read_in(draft, at, &[(0, from), second, first, (to, count)]) {
        return false;
    }
    let alloc = draft.alloc();
    let (Ok(words), Ok(text)) = (
        joined(alloc, at.text, &[first, second]),
        joined(alloc, at.text, &[second, first]),
    ) else {
        draft.fail();
        return false;
    };
    add_suggestion(
        draft,
        Spot { at, word: from },
        text.as_str(),
        words.as_str(),
    )
}

// The same of so many words from one on.
fn add_turned_within(draft: &mut Draft, at: FaultyLine<'_>, from: usize, size: usize) -> bool {
    let to = from.saturating_add(size);
    for length in 1..size {
        let middle = from.saturating_add(length);
        if add_turned(draft, at, (from, middle), (middle, to)) {
            return true;
        }
    }
    false
}

// The order in which a line is read, two runs of its words exchanged: the shortest. Returns whether there is one.
fn add_moved(draft: &mut Draft, at: FaultyLine<'_>) -> bool {
    let count = word_count(at.text);
    if count > MOST_MOVED {
        return false;
    }
    for size in 2..count.saturating_add(1) {
        for from in 0..count.saturating_sub(size).saturating_add(1) {
            if add_turned_within(draft, at, from, size) {
                return true;
            }
        }
    }
    false
}

// ---- faults

/// What may be wrong with a line, by its fault.
#[derive(Clone, Copy, PartialEq, Eq)]
enum Repair {
    /// Nothing of this.
    Nothing,
    /// The order of its words.
    Order,
    /// The order and the parts of its words.
    Words,
    /// These, and their number.
    All,
}

fn of_frame(cause: AssembleError) -> Repair {
    match cause {
        AssembleError::Address => Repair::Order,
        AssembleError::Count => Repair::All,
        AssembleError::Operand => Repair::Words,
        AssembleError::Name | AssembleError::TooLong => Repair::Nothing,
    }
}

fn of_script(cause: ScriptCause) -> Repair {
    match cause {
        ScriptCause::Word | ScriptCause::Number | ScriptCause::Name => Repair::All,
        ScriptCause::Frame(cause) => of_frame(cause),
        _ => Repair::Nothing,
    }
}

fn repair_of(fault: InputFault) -> Repair {
    match fault {
        InputFault::Topology(at) => match at.cause {
            TopologyCause::Word | TopologyCause::Number | TopologyCause::Name => Repair::All,
            TopologyCause::NotLoose => Repair::Order,
            _ => Repair::Nothing,
        },
        InputFault::Script(at) => of_script(at.cause),
        InputFault::Expectation(at) => match at.cause {
            ExpectCause::Word | ExpectCause::Number => Repair::All,
            _ => Repair::Nothing,
        },
        InputFault::Frame { cause, .. } => of_frame(cause),
        InputFault::Lay { cause, .. } => match cause {
            LayCause::Word | LayCause::Number => Repair::All,
            LayCause::Blocks => Repair::Words,
            LayCause::Frame(cause) => of_frame(cause),
            _ => Repair::Nothing,
        },
        InputFault::Steps { .. }
        | InputFault::Capture {
            cause: Cause::Line | Cause::Word,
            ..
        } => { Repair::All }
        InputFault::TextSyntax { .. } | InputFault::TextField { .. } => Repair::Words,
        _ => Repair::Nothing,
    }
}

// Where words may be joined and parted: in an EDID's text those after the first one.
fn joined_from(spot: Spot<'_>) -> Spot<'_> {
    match spot.at.fault {
        InputFault::TextSyntax { .. } => spot.moved_to(1),
        _ => spot,
    }
}

// Whether a line is tried otherwise: it is not too long, not below too many others, and has no gaps and no bytes that are not shown, of which another line
// speaks, as of a slip.
fn is_tried(at: FaultyLine<'_>) -> bool {
    at.text.len() <= LONGEST
        && at.place.number <= MOST_ABOVE
        && !at.text.split(' ').any(|word| word.is_empty())
        && at.place.line.iter().all(is_shown)
        && slip_of(at.fault, at.text).is_none()
}

// Whether a byte is shown as it is. The carriage return at a line's end is none of it.
fn is_shown(byte: &u8) -> bool {
    *byte == b' ' || *byte == b'\r' || byte.is_ascii_graphic()
}

/// What a line at fault may have been meant to be, where it is then read.
pub fn add_repaired(draft: &mut Draft, spot: Spot<'_>) {
    let repair = repair_of(spot.at.fault);
    let is_remark = spot.text().starts_with("#");
    if repair == Repair::Nothing || is_remark || !is_tried(spot.at) {
        return;
    }
    let is_all = repair == Repair::All;
    let is_of_words = is_all || repair == Repair::Words;
    let words = joined_from(spot);
    let is_said = is_all && (add_missing_word(draft, spot) || add_own_word(draft, spot));
    // Of the lines of a capture's test only those of expectations are read again.
    if is_said || spot.at.what == Input::CaptureTest {
        return;
    }
    let _ = is_of_words && (add_parted(draft, words) || add_joined(draft, words))
        || is_all && add_dropped(draft, spot)
        || add_moved(draft, spot.at);
}
