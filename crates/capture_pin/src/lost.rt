//! Events that were lost.
ghost use Rattle.std.specs.Prelude.{◌≡◌, ◌+◌, ◌++◌, ◌∷◌, [], if◌then◌else◌, IfOk};
ghost use Rattle.text_core.specs.Lines.{lines_of};
ghost use Rattle.capture_pin.specs.Lost.{is_lost, lost_in};

use std::alloc::{AllocError, Global};
use text_core::{after, first_line, is_skipped, len_before, number_in};

// Whether a line is an event before which others were lost.
fn is_lost(line: &[u8]) -> bool
    ensures { result ≡ is_lost line.now }
{
    if is_skipped(line) {
        return false;
    }
    let dot = len_before(line, b'.');
    match number_in(after(after(line, dot), 11)) {
        Some(code) => 65_536 <= code && code <= 65_541,
        None => false,
    }
}

// Adds the number of a line, where events were lost before it.
fn note(lost: &mut Vec<u64>, number: u64, line: &[u8]) -> Result<(), AllocError>
    ensures { IfOk result (λ _. lost.new.items ≡ lost.old.items ++ (if is_lost line.now then number ∷ [] else [])) }
{
    if is_lost(line) {
        lost.push(number)?;
    }
    Ok(())
}

/// The lines of the events before which others were lost, counted from 1: those whose code has 65,536 added. A reading that
/// runs over such a line is not to be trusted. Lines that are no events are passed over.
///
/// # Errors
///
/// No memory.
pub fn lost_lines(alloc: Global, text: &[u8]) -> Result<Vec<u64>, AllocError>
    ensures { IfOk result (λ lines. lines.items ≡ lost_in 1 (lines_of text.now)) }
{
    let mut lost = Vec::new(alloc);
    let mut number = 1;
    let mut rest = text;
    'lines: while let Some((line, after)) = first_line(rest) {
        note(&mut lost, number, line)?;
        rest = after;
        number += 1;
    }
    Ok(lost)
}
