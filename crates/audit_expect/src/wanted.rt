//! Expectations of remarks, the first of them at fault, and the other lines.
ghost use Rattle.std.specs.Prelude.{◌≡◌, ◌++◌, codes, is_some, IfOk, OnOk};
ghost use Rattle.std.specs.Option.{option_map};
ghost use Rattle.text_core.specs.Lines.{lines_of};
ghost use Rattle.audit_expect.specs.Wanted.{is_any_wanted, pattern_fault, plain_line, plain_text, unremarked_fault, wanted_as, wanted_by, wanted_fault, wanted_faults, wanted_of};

use expect_remarks::text_left;
use expect_text::{ExpectCause, is_pattern, is_remark_called};
use std::alloc::{AllocError, Global};
use text_core::{At, AtWord, at_word, first_line, first_word};

/// What a line expects of the remarks of an audit.
#[derive(Clone, Copy, Debug)]
pub(crate) enum WantedRemarks<'a> {
    /// That no remark meets a pattern; where it is empty, that there is none.
    NoRemark(&'a [u8]),
    /// That some remark meets a pattern.
    Remark(&'a [u8]),
}

fn wanted_by<'a>(how: &[u8], rest: &'a [u8]) -> Option<WantedRemarks<'a>>
    ensures { option_map wanted_as result ≡ wanted_by how.now rest.now }
{
    if how == b"no-remark".as_slice() {
        Some(WantedRemarks::NoRemark(rest))
    } else if how == b"remark".as_slice() {
        Some(WantedRemarks::Remark(rest))
    } else {
        None
    }
}

/// What a line expects of remarks.
pub(crate) fn wanted_of(line: &[u8]) -> Option<WantedRemarks<'_>>
    ensures { option_map wanted_as result ≡ wanted_of line.now }
{
    let (verb, rest) = first_word(line);
    let (how, others) = first_word(rest?);
    if verb == b"expect".as_slice() {
        wanted_by(how, text_left(others))
    } else {
        None
    }
}

fn is_wanted(line: &[u8]) -> bool
    ensures { result ≡ is_some (wanted_of line.now) }
{
    match wanted_of(line) {
        None => false,
        Some(_) => true,
    }
}

/// Whether some line expects something of remarks.
pub(crate) fn is_any_wanted(text: &[u8]) -> bool
    ensures { result ≡ is_any_wanted (lines_of text.now) }
{
    let mut rest = text;
    'lines: while let Some((line, after)) = first_line(rest) {
        if is_wanted(line) {
            return true;
        }
        rest = after;
    }
    false
}

// ---- the other lines

fn plain_line(line: &[u8]) -> &[u8]
    ensures { result.now ≡ plain_line line.now }
{
    if is_wanted(line) { b"" } else { line }
}

// Appends a line.
fn push_line(text: &mut Vec<u8>, line: &[u8]) -> Result<(), AllocError>
    ensures { OnOk result (text.new.items ≡ text.old.items ++ (line.now ++ codes "\n")) }
{
    text.extend_from_slice(line)?;
    text.push(b'\n')?;
    Ok(())
}

/// The expectations without those of remarks, line for line: their lines are empty.
///
/// # Errors
///
/// Want of memory.
pub(crate) fn plain_text(alloc: Global, text: &[u8]) -> Result<Vec<u8>, AllocError>
    ensures { IfOk result (λ plain. plain.items ≡ plain_text text.now) }
{
    let mut plain = Vec::new(alloc);
    let mut rest = text;
    'lines: while let Some((line, after)) = first_line(rest) {
        push_line(&mut plain, plain_line(line))?;
        rest = after;
    }
    Ok(plain)
}

// ---- faults

fn pattern_fault(pattern: &[u8]) -> Option<AtWord<ExpectCause>>
    ensures { result ≡ pattern_fault pattern.now }
{
    if pattern.is_empty() {
        Some(at_word(2, ExpectCause::Word))
    } else if !is_pattern(pattern) {
        Some(at_word(2, ExpectCause::Pattern))
    } else if is_remark_called(pattern) {
        None
    } else {
        Some(at_word(2, ExpectCause::Unmet))
    }
}

// Whether nothing or a pattern stands after `no-remark`.
fn unremarked_fault(line: &[u8], pattern: &[u8]) -> Option<AtWord<ExpectCause>>
    ensures { result ≡ unremarked_fault line.now pattern.now }
{
    if line == b"expect no-remark".as_slice() {
        None
    } else {
        pattern_fault(pattern)
    }
}

fn wanted_fault(line: &[u8]) -> Option<AtWord<ExpectCause>>
    ensures { result ≡ wanted_fault line.now (wanted_of line.now) }
{
    match wanted_of(line) {
        None => None,
        Some(wanted) => match wanted {
            WantedRemarks::NoRemark(pattern) => unremarked_fault(line, pattern),
            WantedRemarks::Remark(pattern) => pattern_fault(pattern),
        },
    }
}

/// The first line that expects something of remarks and is at fault.
pub(crate) fn wanted_fault_in(text: &[u8]) -> Option<At<ExpectCause>>
    ensures { result ≡ wanted_faults 1 (lines_of text.now) }
{
    let mut rest = text;
    let mut number = 1u64;
    'lines: while let Some((line, after)) = first_line(rest) {
        if let Some(fault) = wanted_fault(line) {
            return Some(fault.on_line(number));
        }
        rest = after;
        number += 1;
    }
    None
}
