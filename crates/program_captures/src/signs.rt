//! The wires of a capture, which are named where nothing was read on the first.

use capture_advice::complete_by;
use capture_core::Capture;
use capture_forms::CaptureForm;
use std::alloc::{AllocError, Global};
use text_core::{Sink, after, before, byte_at, first_line, first_word, len_before, put_all};

/// What a capture looks like that may have another wire.
#[derive(Clone, Copy, Debug)]
pub struct Signs {
    /// Whether the wire has an edge.
    has_edge: bool,
    /// Whether the wire is the first of several, and nothing complete was read on it.
    is_other: bool,
}

/// What a capture looks like; `is_first` of several wires of which none was named.
pub fn signs_of(capture: &Capture, is_first: bool) -> Signs {
    Signs {
        has_edge: !capture.edges().is_empty(),
        is_other: is_first && complete_by(capture, 0) == 0,
    }
}

// ---- names of wires

// The name that a line of a dump gives a wire: `$var TYPE WIDTH ID NAME ..`.
fn declared(line: &[u8]) -> Option<&[u8]> {
    let (verb, rest) = first_word(line);
    let (_kind, rest) = first_word(rest?);
    let (_width, rest) = first_word(rest?);
    let (_id, rest) = first_word(rest?);
    let rest = rest?;
    let (name, _words) = first_word(rest);
    if verb == b"$var".as_slice() && !rest.is_empty() {
        Some(name)
    } else {
        None
    }
}

// Adds a name after those before it.
fn add_name(names: &mut Vec<u8>, name: &[u8]) -> Result<(), AllocError> {
    if !names.is_empty() {
        names.extend_from_slice(b", ")?;
    }
    names.extend_from_slice(name)
}

// The names of the wires of a dump, up to the end of its declarations, and how many there are.
fn dump_names(alloc: Global, input: &[u8]) -> Result<(Vec<u8>, u64), AllocError> {
    let mut names = Vec::new(alloc);
    let mut count = 0u64;
    let mut rest = input;
    'lines: while let Some((line, after)) = first_line(rest) {
        let (verb, _words) = first_word(line);
        if verb == b"$enddefinitions".as_slice() {
            return Ok((names, count));
        }
        if let Some(name) = declared(line) {
            add_name(&mut names, name)?;
            count = count.saturating_add(1);
        }
        rest = after;
    }
    Ok((names, count))
}

// A line without the carriage return at its end.
fn without_return(line: &[u8]) -> &[u8] {
    let last = line.len().saturating_sub(1);
    if byte_at(line, last) == b'\r' {
        before(line, last)
    } else {
        line
    }
}

// A field without the space before it.
fn without_space(field: &[u8]) -> &[u8] {
    if byte_at(field, 0) == b' ' {
        after(field, 1)
    } else {
        field
    }
}

// The same of comma-separated values: what stands in the line of names after the time.
fn column_names(alloc: Global, input: &[u8]) -> Result<(Vec<u8>, u64), AllocError> {
    let mut names = Vec::new(alloc);
    let Some((line, _)) = first_line(input) else {
        return Ok((names, 0));
    };
    let mut count = 0u64;
    let line = without_return(line);
    let rest = after(line, len_before(line, b',') + 1);
    for field in rest.split(|byte| *byte == b',') {
        add_name(&mut names, without_space(field))?;
        count = count.saturating_add(1);
    }
    Ok((names, count))
}

// The names of the wires of a capture, and how many there are.
fn names_in(alloc: Global, form: CaptureForm, input: &[u8]) -> Result<(Vec<u8>, u64), AllocError> {
    match form {
        CaptureForm::Vcd => dump_names(alloc, input),
        CaptureForm::Csv => column_names(alloc, input),
        CaptureForm::Edges | CaptureForm::Pin => Ok((Vec::new(alloc), 0)),
    }
}

/// Whether a capture has several wires.
pub fn has_several(alloc: Global, form: CaptureForm, input: &[u8]) -> bool {
    match names_in(alloc, form, input) {
        Ok((_, count)) => count > 1,
        Err(AllocError) => false,
    }
}

// ---- what is said

// What is wrong with the first wire.
fn lack_of(has_edge: bool) -> &'static str {
    if has_edge {
        "nothing complete was read on the first wire"
    } else {
        "the first wire has no edge"
    }
}

/// Names the wires of a capture of which the first was read, where nothing complete was read on it.
pub fn name_wires<E: Sink>(
    alloc: Global,
    form: CaptureForm,
    signs: Signs,
    input: &[u8],
    err: &mut E,
) {
    if !signs.is_other {
        return;
    }
    let Ok((names, _)) = names_in(alloc, form, input) else {
        return;
    };
    let _ = put_all(err, b"hdminet: ");
    let _ = put_all(err, lack_of(signs.has_edge).as_bytes());
    let _ = put_all(err, b", --signal takes one of ");
    let _ = put_all(err, &names);
    let _ = put_all(err, b"\n");
}
