//! Where in an input a fault stands.
use crate::fault::{Input, InputFault, Parting};
use text_core::At;

/// A line of an input, with its number from 1.
#[derive(Clone, Copy)]
pub struct InputLine<'a> {
    pub input: &'a [u8],
    /// How many lines stand before the part in which the line is.
    pub before: usize,
    /// Its number in the whole input.
    pub number: usize,
    pub line: &'a [u8],
}

/// A line with a fault, as it is explained.
#[derive(Clone, Copy)]
pub struct FaultyLine<'a> {
    /// What the input is to be.
    pub what: Input,
    pub place: InputLine<'a>,
    pub fault: InputFault,
    /// The line's text, or without the label that it has in a test. `.` stands for each byte that is not printable.
    pub text: &'a str,
    /// How many words stand before it in the line: those of the label.
    pub labels: usize,
}

/// Whether a byte ends a line, or parts it from the next one.
pub fn is_line_end(byte: &u8) -> bool {
    *byte == b'\n'
}

/// How many bytes so many lines of a text have, each with its end.
pub fn length_of_lines(text: &[u8], count: usize) -> usize {
    let mut length = 0usize;
    for line in text.split(is_line_end).take(count) {
        length = length.saturating_add(line.len()).saturating_add(1);
    }
    length.min(text.len())
}

// The line of this number, from 1, after some others.
fn line_of(input: &[u8], before: usize, line: u64) -> Option<InputLine<'_>> {
    let number = before.saturating_add(usize::try_from(line).ok()?);
    let index = number.checked_sub(1)?;
    let line = input.split(is_line_end).nth(index)?;
    Some(InputLine {
        input,
        before,
        number,
        line,
    })
}

fn is_like(line: &[u8], text: &str) -> bool {
    match line.split_at_checked(text.len()) {
        Some((front, _)) => front.eq_ignore_ascii_case(text.as_bytes()),
        None => false,
    }
}

// Whether a line begins like one of some texts, blanks and case aside.
fn is_like_any(line: &[u8], texts: &[&str]) -> bool {
    let line = line.trim_ascii();
    for text in texts {
        if is_like(line, text) {
            return true;
        }
    }
    false
}

// The first line that begins like one of some texts.
fn find_like<'a>(input: &'a [u8], texts: &[&str]) -> Option<InputLine<'a>> {
    let mut number = 0usize;
    for line in input.split(is_line_end) {
        number = number.saturating_add(1);
        if is_like_any(line, texts) {
            return Some(InputLine {
                input,
                before: 0,
                number,
                line,
            });
        }
    }
    None
}

// The line that was meant to part an input, or else the first line that stands after it in other inputs.
fn find_parting<'a>(input: &'a [u8], parting: &str, later: &[&str]) -> Option<InputLine<'a>> {
    match find_like(input, &[parting]) {
        Some(place) => Some(place),
        None => find_like(input, later),
    }
}

// The line that was meant to part an input so, or that stands in its place.
fn parting_line(input: &[u8], parting: Parting) -> Option<InputLine<'_>> {
    match parting {
        Parting::Script => find_parting(
            input,
            "script",
            &[
                "at ", "pulse ", "pull ", "pin ", "end ", "label ", "expect ",
            ],
        ),
        Parting::Steps => find_parting(input, "steps", &["edge", "round", "until ", "show "]),
        Parting::Capture => find_parting(input, "capture", &[]),
    }
}

// How many lines there are up to the first one after some others that reads so; none where there is no such line.
fn lines_to(input: &[u8], after: usize, text: &str) -> usize {
    let mut number = 0usize;
    for line in input.split(is_line_end) {
        number = number.saturating_add(1);
        if number > after && line == text.as_bytes() {
            return number;
        }
    }
    0
}

/// How many lines stand before those of a script, the line `script` among them.
pub fn before_script(input: &[u8]) -> usize {
    lines_to(input, 0, "script")
}

// How many stand before those of the steps.
fn before_steps(input: &[u8]) -> usize {
    lines_to(input, before_script(input), "steps")
}

// How many stand before those of a capture.
fn before_capture(what: Input, input: &[u8]) -> usize {
    match what {
        Input::CaptureTest => lines_to(input, 0, "capture"),
        _ => 0,
    }
}

// How many stand before those with expectations.
fn before_expectations(what: Input, input: &[u8]) -> usize {
    match what {
        Input::CaptureTest => 0,
        _ => before_script(input),
    }
}

// The `edid` line of a topology.
fn edid_line(what: Input, input: &[u8]) -> Option<InputLine<'_>> {
    match what {
        Input::Network | Input::Test => find_like(input, &["edid "]),
        _ => None,
    }
}

/// A line of a session, the one of this number after the line `script`. Of what came before only the topology is known.
pub fn place_in_session<'a>(topology: &'a [u8], number: u64, line: &'a [u8]) -> InputLine<'a> {
    // The topology's last line has an end, so that there is one more than it has lines: for the line `script`.
    let before = topology.split(is_line_end).count();
    InputLine {
        input: topology,
        before,
        number: before.saturating_add(usize::try_from(number).unwrap_or(usize::MAX)),
        line,
    }
}

// Where a fault stands in a whole input.
fn place_in_whole(input: &[u8], what: Input, fault: InputFault) -> Option<InputLine<'_>> {
    match fault {
        InputFault::Topology(
            At {
                cause: room_script::TopologyCause::NoRoot,
                ..
            },
        ) => None,
        InputFault::Topology(at) => line_of(input, 0, at.line),
        InputFault::Script(At { line, .. })
        | InputFault::Range(At { line, .. })
        | InputFault::Past { line, .. } => { line_of(input, before_script(input), line) }
        InputFault::Expectation(at) => line_of(input, before_expectations(what, input), at.line),
        InputFault::Steps { line, .. } => line_of(input, before_steps(input), line),
        InputFault::Capture { line, .. } => line_of(input, before_capture(what, input), line),
        InputFault::Frame { line, .. }
        | InputFault::Hex { line, .. }
        | InputFault::Lay { line, .. }
        | InputFault::TextSyntax { line }
        | InputFault::TextField { line, .. } => line_of(input, 0, line),
        InputFault::Edid(_) => edid_line(what, input),
        InputFault::NoParting(parting) => parting_line(input, parting),
        InputFault::NoPort | InputFault::Whole(_) => None,
    }
}

/// Where a fault stands in a whole input, or in what a session has read before its first answer: the topology.
pub fn place_of(input: &[u8], what: Input, fault: InputFault) -> Option<InputLine<'_>> {
    match (what, fault) {
        (
            Input::Session,
            InputFault::Topology(_) | InputFault::Edid(_) | InputFault::NoParting(Parting::Script),
        ) => place_in_whole(input, Input::Network, fault),
        (Input::Session, _) => None,
        _ => place_in_whole(input, what, fault),
    }
}

/// The words of a line that declares a device, after `device`.
fn declaration(line: &[u8]) -> Option<&str> {
    str::from_utf8(line).ok()?.strip_prefix("device ")
}

/// The name of the device that a line declares.
pub fn declared_by(line: &[u8]) -> Option<&str> {
    let (name, _) = declaration(line)?.split_once(' ')?;
    Some(name)
}

/// The PORTS of a device that a line above a place declares.
pub fn ports_of<'a>(place: InputLine<'a>, name: &str) -> Option<&'a str> {
    let above = place.number.saturating_sub(1);
    for line in place.input.split(is_line_end).take(above) {
        if declared_by(line) == Some(name) {
            return declaration(line)?.split(' ').nth(2);
        }
    }
    None
}

/// The word of the kind of a device that a line above a place declares.
pub fn kind_of<'a>(place: InputLine<'a>, name: &str) -> Option<&'a str> {
    let above = place.number.saturating_sub(1);
    for line in place.input.split(is_line_end).take(above) {
        if declared_by(line) == Some(name) {
            return declaration(line)?.split(' ').nth(1);
        }
    }
    None
}
