//! What a line of a capture would have to look like.
use capture_forms::{CaptureForm, Cause};
use explain_again::{Spot, is_whole_line_read};
use explain_lists::Draft;
use explain_marks::{FaultyLine, is_line_end, length_of_lines};
use std::alloc::AllocError;

/// The lines of a dump.
const OF_DUMP: &str =
    "above `$enddefinitions $end` stand `$timescale 1 us $end` and `$var wire 1 ! CEC $end`; below it `#T`, `0!` and `1!`, where `!` is what `$var` has before the name";

/// The lines of pin events.
const OF_PIN: &str =
    "a line here reads `S.NNNNNNNNN CODE`, as `81234.567890123 0`: seconds with nine decimals, and 0 for low, 1 for high, or 2 to 5 for another pin";

/// The lines of comma-separated values.
const OF_VALUES: &str =
    "a row here reads `TIME,LEVEL`, as `0.012000000,0`, with a level for each wire: TIME is decimal, LEVEL is 0, 1, Low, High or volts as `3.3`, and nothing stands in quotes";

/// What stands in the place of commas elsewhere.
const OTHER_COMMAS: &[&str] = &[";", " ", "\t", "|"];

// The word of a form for `--from`, and what its captures are called.
fn called(form: CaptureForm) -> (&'static str, &'static str) {
    match form {
        CaptureForm::Edges => ("edges", "an edge file"),
        CaptureForm::Vcd => ("vcd", "a dump"),
        CaptureForm::Pin => ("pin", "a file of pin events"),
        CaptureForm::Csv => ("csv", "comma-separated values"),
    }
}

// The part of the input that is the capture.
fn capture_of(at: FaultyLine<'_>) -> &[u8] {
    let length = length_of_lines(at.place.input, at.place.before);
    at.place.input.get(length..).unwrap_or(&[])
}

// Says which form the first line has, where it is another one than that in which the capture is read.
fn add_form_of_first(draft: &mut Draft, at: FaultyLine<'_>, form: CaptureForm) {
    let first = CaptureForm::of(capture_of(at));
    if first != form && first != CaptureForm::Edges {
        let (word, name) = called(first);
        draft.add_all(&[
            "  by its first line this is ",
            name,
            ", which `--from ",
            word,
            "` reads\n",
        ]);
    }
}

// Says how captures of other forms begin, at a first line that begins with no time.
fn add_beginnings(draft: &mut Draft, at: FaultyLine<'_>) {
    let is_first = at.place.number == at.place.before.saturating_add(1);
    let has_time = matches!(at.text.as_bytes(), [first, ..] if first.is_ascii_digit());
    if is_first && !has_time {
        draft.add_line(
            "comma-separated values begin with names, as `Time [s],CEC`, a dump with `$`, pin events with `# cec-ctl --store-pin`",
        );
    }
}

/// What the lines of a capture in a form are, and the form that its first line has.
pub fn add_capture(draft: &mut Draft, at: FaultyLine<'_>, form: CaptureForm, cause: Cause) {
    add_form_of_first(draft, at, form);
    match (form, cause) {
        (CaptureForm::Edges, Cause::Line) => add_beginnings(draft, at),
        (CaptureForm::Vcd, Cause::Word) => draft.add_line(OF_DUMP),
        (CaptureForm::Pin, Cause::Word) => draft.add_line(OF_PIN),
        (CaptureForm::Csv, Cause::Word) => draft.add_line(OF_VALUES),
        (CaptureForm::Vcd, Cause::Signal) => add_wires(draft, at),
        _ => {}
    }
}

// ---- wires of a dump

// The name of the wire of one bit that a line of a dump declares.
fn wire_of(line: &[u8]) -> Option<&str> {
    let words = str::from_utf8(line)
        .ok()?
        .trim_ascii()
        .strip_prefix("$var ")?;
    let (_, words) = words.split_once(" ")?;
    let name = words.strip_prefix("1 ")?.split(' ').nth(1)?;
    (name != "$end").then_some(name)
}

// What stands before a wire of a list.
fn before_wire(is_first: bool) -> &'static str {
    if is_first {
        "  the dump has the wires `"
    } else {
        "`, `"
    }
}

// The wires of one bit that a dump has.
fn add_wires(draft: &mut Draft, at: FaultyLine<'_>) {
    let mut is_first = true;
    for line in capture_of(at).split(is_line_end) {
        if let Some(name) = wire_of(line) {
            draft.add(before_wire(is_first));
            draft.add(name);
            is_first = false;
        }
    }
    if !is_first {
        draft.add("`\n");
    } else {
        draft.add_line("the dump has no wire of one bit, as `$var wire 1 ! CEC $end` declares one");
    }
}

// ---- rows

// A row with commas in the place of what parts its fields. Returns whether it is taken.
fn add_commas(draft: &mut Draft, row: Spot<'_>, mark: &str) -> bool {
    match row.at.text.replace(draft.alloc(), mark, ",") {
        Ok(text) => add_row(draft, row, text.as_str()),
        Err(AllocError) => {
            draft.fail();
            false
        }
    }
}

// A row in the place of another. Returns whether it is taken.
fn add_row(draft: &mut Draft, row: Spot<'_>, text: &str) -> bool {
    let words = row.at.text;
    let is_right = text != words && is_whole_line_read(draft, row, words, text);
    if is_right {
        draft.add_all(&["  `", words, "`: did you mean `", text, "`?\n"]);
    }
    is_right
}

/// What a row of comma-separated values may have been meant for.
pub fn add_row_meant(draft: &mut Draft, at: FaultyLine<'_>) {
    let row = Spot { at, word: 0 };
    for mark in OTHER_COMMAS {
        if add_commas(draft, row, mark) {
            return;
        }
    }
    match at.text.replace(draft.alloc(), "\"", "") {
        Ok(text) => {
            let _ = add_row(draft, row, text.as_str());
        }
        Err(AllocError) => draft.fail(),
    }
}
