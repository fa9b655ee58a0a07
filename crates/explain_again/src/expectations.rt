//! Lines with labels and expectations, read again.
use crate::changed::{Changed, word_of};
use crate::scripts::of_event;
use expect_text::{exact_number, first_fault, has_verb, unlabelled};
use explain_marks::{REMARKS, is_line_end, is_word};
use std::alloc::{AllocError, Global};

// The lines above one, of which an expectation without a label says nothing of it, and the line.
fn labels_above(alloc: Global, changed: Changed<'_>) -> Result<Vec<u8>, AllocError> {
    let mut text = Vec::new(alloc);
    let above = changed.number_in_part().saturating_sub(1);
    for line in changed.above_in_part().split(is_line_end).take(above) {
        if !has_verb(b"expect", Some(line)) {
            text.extend_from_slice(line)?;
        }
        text.push(b'\n')?;
    }
    text.extend_from_slice(changed.line)?;
    text.push(b'\n')?;
    Ok(text)
}

// The word of a line at which its label or its expectation is refused, for a topology.
fn of_expectation(
    alloc: Global,
    topology: &[u8],
    changed: Changed<'_>,
) -> Result<Option<usize>, AllocError> {
    let text = labels_above(alloc, changed)?;
    match first_fault(alloc, topology, &text)? {
        Some(fault) => Ok(word_of(changed.number_in_part(), fault.line, fault.word)),
        None => Ok(None),
    }
}

/// The word at which a line of a test's script is refused.
pub fn of_test(alloc: Global, changed: Changed<'_>) -> Result<Option<usize>, AllocError> {
    match of_expectation(alloc, changed.topology(), changed)? {
        Some(word) => Ok(Some(word)),
        None => of_event(alloc, changed),
    }
}

// ---- captures

/// How the line of an expectation of a capture is read.
#[derive(Clone, Copy)]
enum CaptureLine {
    /// As that of a run.
    Reading,
    /// It is refused at this word.
    Refused(usize),
    /// It is read.
    Read,
}

// Of `expect remark PATTERN` and `expect no-remark PATTERN`: a kind of remarks stands first.
fn of_remark(line: &str) -> CaptureLine {
    let is_kind = REMARKS.iter().any(|kind| is_word(line, 2, kind));
    if is_kind {
        CaptureLine::Read
    } else {
        CaptureLine::Refused(2)
    }
}

// Of `at T` after a label of so many words.
fn of_instant(line: &str, labels: usize) -> CaptureLine {
    let is_time = match line.split(' ').nth(1) {
        Some(time) => exact_number(time.as_bytes()).is_some(),
        None => false,
    };
    if is_time && labels > 0 {
        CaptureLine::Read
    } else {
        CaptureLine::Refused(labels.saturating_add(1))
    }
}

// How a line without its label, of so many words, is read.
fn line_of_capture(line: &str, labels: usize) -> CaptureLine {
    let verb = if is_word(line, 0, "expect") {
        line.split(' ').nth(1)
    } else {
        line.split(' ').next()
    };
    match verb {
        Some("at") if !is_word(line, 0, "expect") => of_instant(line, labels),
        Some("state" | "refused") => CaptureLine::Refused(labels.saturating_add(1)),
        Some("no-remark") if labels > 0 => CaptureLine::Refused(labels.saturating_add(1)),
        Some("no-remark") if line == "expect no-remark" => CaptureLine::Read,
        Some("remark" | "no-remark") if labels == 0 => of_remark(line),
        _ => CaptureLine::Reading,
    }
}

/// The word at which a line of the expectations of a capture is refused.
pub fn of_capture_test(alloc: Global, changed: Changed<'_>) -> Result<Option<usize>, AllocError> {
    let own = unlabelled(changed.line);
    let labels = if own.label.is_some() { 2usize } else { 0 };
    let line = str::from_utf8(own.rest.unwrap_or(&[])).unwrap_or("");
    match line_of_capture(line, labels) {
        CaptureLine::Reading => of_expectation(alloc, &[], changed),
        CaptureLine::Refused(word) => Ok(Some(word)),
        CaptureLine::Read => Ok(None),
    }
}
