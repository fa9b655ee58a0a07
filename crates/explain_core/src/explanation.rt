//! What follows the line of a fault.
use crate::edids::{add_edid_fault, add_length, add_line_fault};
use crate::hints::{
    is_shown, of_edid, of_edid_text, of_file, of_line, of_no_dump, of_text, without_return,
};
use crate::right::right;
use edid_core::{EdidCause, EdidError};
use edid_dump::{DumpError, looks_like_dump};
use edid_text_lines::WORD_TEXTS;
use explain_forms::{add_meant, add_right_forms, add_slip, is_right_but_for_return};
use explain_lists::{Draft, Gaps, span_of, word_at};
use explain_marks::{
    FaultyLine, Input, InputFault, InputLine, Mark, Parting, WholeFault, WordSlip, gaps_of,
    is_line_end, label_words, marked, place_in_session, place_of, plain, slip_of,
};
use rules_explain::lacks_line_feed;
use std::alloc::{AllocError, Global};

/// A line is shown up to so many columns.
const COLUMNS: usize = 160;

// A line without a carriage return at its end, `.` for each byte that is not printable, and cut after so many columns.
fn text_of(alloc: Global, line: &[u8]) -> Result<String, AllocError> {
    let mut draft = Draft::new(alloc);
    for byte in without_return(line).iter().take(COLUMNS) {
        draft.add_character(if is_shown(*byte) {
            char::from(*byte)
        } else {
            '.'
        });
    }
    draft.finish()
}

// The same as it is shown: nothing is seen of a carriage return, which is named below the line.
fn add_text(draft: &mut Draft, line: &[u8]) {
    for byte in without_return(line).iter().take(COLUMNS) {
        draft.add_character(match *byte {
            b'\r' => ' ',
            byte if is_shown(byte) => char::from(byte),
            _ => '.',
        });
    }
}

// The columns of a line that are shown.
fn shown_part(line: &[u8]) -> &[u8] {
    line.get(..COLUMNS).unwrap_or(line)
}

// Blanks, and `^` below the marked words.
fn add_mark(draft: &mut Draft, before: usize, line: &[u8], gaps: Gaps, mark: Mark) {
    if let Some(span) = span_of(shown_part(line), gaps, mark.first, mark.last) {
        draft.add_times(before.saturating_add(span.begin), ' ');
        draft.add_times(span.end.saturating_sub(span.begin), '^');
        draft.add("\n");
    }
}

fn add_hints(draft: &mut Draft, hints: &[Option<&'static str>]) {
    for hint in hints {
        if let Some(hint) = hint {
            draft.add_line(hint);
        }
    }
}

// What stands before a line. Returns its length. A line that the fault counts in its part of the input is counted anew.
fn add_head(draft: &mut Draft, place: InputLine<'_>) -> usize {
    let begin = draft.len();
    let number = place.number;
    if place.before > 0 {
        write!(draft, "  line {number} of the input: ");
    } else {
        write!(draft, "  line {number}: ");
    }
    draft.len().saturating_sub(begin)
}

// The number and the text of a line, and the mark below its words.
fn add_shown(draft: &mut Draft, at: FaultyLine<'_>, gaps: Gaps, mark: Option<Mark>) {
    let before = add_head(draft, at.place);
    add_text(draft, at.place.line);
    let is_cut = without_return(at.place.line).len() > COLUMNS;
    draft.add(if is_cut { " ..\n" } else { "\n" });
    if let Some(mark) = mark {
        add_mark(draft, before, at.place.line, gaps, mark);
    }
}

// What there is to say of the word at fault: that it may have been meant for another one, or that no remark begins there.
fn add_word(draft: &mut Draft, at: FaultyLine<'_>, mark: Mark) {
    let labels = match at.fault {
        InputFault::Script(_) => label_words(at.what, at.text),
        _ => 0,
    };
    let text = if labels > 0 {
        plain(at.what, at.text)
    } else {
        at.text
    };
    let own = FaultyLine { text, labels, ..at };
    add_meant(draft, own, mark.first.saturating_sub(labels));
    if gaps_of(at.fault) != Gaps::Spaces {
        return;
    }
    if let Some(word) = word_at(at.text, mark.first) {
        if mark.first > 0 && word.starts_with("#") {
            draft.add_line("`#` begins a remark at the start of a line alone");
        }
    }
}

// A line as it is shown, with its mark, what is odd about it, and what it would have to look like. Returns whether what would be
// right in place of any such fault is of no use then.
fn add_marked(draft: &mut Draft, at: FaultyLine<'_>) -> bool {
    let mark = marked(at.what, at.fault, at.text);
    add_shown(draft, at, gaps_of(at.fault), mark);
    add_hints(draft, of_line(at.place.line, at.text).as_slice());
    if is_right_but_for_return(draft, at) {
        return true;
    }
    let slip = slip_of(at.fault, at.text);
    if let Some(found) = slip {
        add_slip(draft, found.slip);
    }
    let is_said = add_right_forms(draft, at);
    match (mark, slip) {
        (Some(_), Some(found)) if found.slip == WordSlip::NoName => {}
        // What stands between two carriage returns was a line.
        (Some(_), _) if without_return(at.place.line).contains(&b'\r') => {}
        (Some(mark), _) => add_word(draft, at, mark),
        (None, _) => {}
    }
    is_said
}

// Whether all that is wrong with a line of an EDID's text is that no line feed ends it.
fn is_unended(at: FaultyLine<'_>) -> bool {
    let is_last = at.place.number >= at.place.input.split(is_line_end).count();
    let is_known = WORD_TEXTS.contains(&word_at(at.text, 0).unwrap_or(""));
    matches!(at.fault, InputFault::TextSyntax { .. })
        && is_last
        && is_known
        && lacks_line_feed(at.place.input)
}

// What there is to say of a line. Returns whether what would be right in place of any such fault is of no use.
fn add_line(draft: &mut Draft, at: FaultyLine<'_>) -> bool {
    if is_unended(at) {
        add_shown(draft, at, Gaps::Spaces, None);
        return true;
    }
    let is_said = add_marked(draft, at);
    match at.fault {
        InputFault::NoParting(Parting::Script) if !at.text.trim_ascii_start().starts_with("s") => {
            draft.add_line("above this line the line `script` is missing");
        }
        _ => {}
    }
    is_said
}

// The line of a fault. Returns whether what would be right in place of any such fault is of no use.
fn add_place(draft: &mut Draft, what: Input, place: InputLine<'_>, fault: InputFault) -> bool {
    match text_of(draft.alloc(), place.line) {
        Ok(line) => {
            let at = FaultyLine {
                what,
                place,
                fault,
                text: line.as_str(),
                labels: 0,
            };
            add_line(draft, at)
        }
        Err(AllocError) => {
            draft.fail();
            false
        }
    }
}

// What is odd about an input that is to be the bytes of an EDID.
fn add_edid_hints(draft: &mut Draft, fault: InputFault, input: &[u8]) {
    if let InputFault::Edid(cause) = fault {
        add_edid_fault(draft, cause, false, input);
    }
    add_hints(draft, of_edid(input).as_slice());
    if matches!(fault, InputFault::Edid(EdidCause::Edid(EdidError::Length)))
        && !looks_like_dump(input)
    {
        add_length(draft, input.len());
    }
}

// Whether a fault is none of the input, or of too little of it to look at the whole.
fn is_of_program(fault: InputFault) -> bool {
    matches!(
        fault,
        InputFault::NoParting(Parting::Steps) | InputFault::Whole(_)
    )
}

// Whether no line of the input begins the dump of an EDID.
fn is_no_dump(fault: InputFault) -> bool {
    matches!(
        fault,
        InputFault::Whole(WholeFault::Dump(DumpError::NoDump))
    )
}

// Whether a fault stands above the lines of a session.
fn is_of_topology(fault: InputFault) -> bool {
    matches!(
        fault,
        InputFault::Topology(_) | InputFault::Edid(_) | InputFault::NoParting(Parting::Script)
    )
}

// What is odd about the input.
fn add_input_hints(draft: &mut Draft, what: Input, fault: InputFault, input: &[u8]) {
    if what != Input::Session && (is_no_dump(fault) || !is_of_program(fault)) {
        add_hints(draft, &[of_file(input)]);
    }
    match what {
        _ if is_no_dump(fault) && !looks_like_dump(input) => {
            add_hints(draft, of_no_dump(input).as_slice());
        }
        _ if is_of_program(fault) => {}
        Input::Session if !is_of_topology(fault) => {}
        Input::EdidBytes => add_edid_hints(draft, fault, input),
        Input::EdidText | Input::EdidWords => {
            add_hints(draft, of_text(input).as_slice());
            add_hints(draft, of_edid_text(input).as_slice());
        }
        _ => {
            if let (Input::Lines, InputFault::Edid(cause)) = (what, fault) {
                add_edid_fault(draft, cause, true, input);
            }
            add_hints(draft, of_text(input).as_slice());
        }
    }
}

/// The indented lines that follow the line of a fault: the line of the input with its number, the word marked, what would be
/// right, and what often goes wrong so.
///
/// # Errors
///
/// Where memory runs out.
pub fn explain(
    alloc: Global,
    what: Input,
    fault: InputFault,
    input: &[u8],
) -> Result<String, AllocError> {
    let mut draft = Draft::new(alloc);
    let place = place_of(input, what, fault);
    let is_said = match place {
        Some(place) => add_place(&mut draft, what, place, fault),
        None => false,
    };
    if !is_said {
        draft.add_line(right(fault));
    }
    if let (InputFault::Edid(cause), Some(place)) = (fault, place) {
        add_line_fault(&mut draft, cause, place);
    }
    add_input_hints(&mut draft, what, fault, input);
    draft.finish()
}

/// The indented lines that follow a refused line of a session, the one of this number after the line `script`, with the topology above
/// it: the line, the word marked, and what would be right.
///
/// # Errors
///
/// Where memory runs out.
pub fn explain_line(
    alloc: Global,
    fault: InputFault,
    topology: &[u8],
    number: u64,
    line: &[u8],
) -> Result<String, AllocError> {
    let mut draft = Draft::new(alloc);
    let place = place_in_session(topology, number, line);
    if !add_place(&mut draft, Input::Session, place, fault) {
        draft.add_line(right(fault));
    }
    draft.finish()
}

/// The line that follows a run: its rounds, those of them that were complete, and the events that were refused.
pub fn counts(
    alloc: Global,
    rounds: u64,
    complete: u64,
    refused: u64,
) -> Result<String, AllocError> {
    format!(in alloc; "  rounds {rounds}, complete rounds {complete}, refused events {refused}\n")
}
