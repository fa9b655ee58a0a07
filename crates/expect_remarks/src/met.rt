//! Which remarks meet a pattern, and how they are shown.
ghost use Rattle.std.specs.Prelude.{◌≡◌, ◌-◌, ◌∷◌, ◌++◌, OnOk, IfOk, [], codes, filter, length, take};
ghost use Rattle.std.specs.List.{flat_map, list_any};
ghost use Rattle.std.specs.Option.{option_copied};
ghost use Rattle.text_core.specs.Cut.{WritesText};
ghost use Rattle.text_core.specs.Held.{held_bytes};
ghost use Rattle.text_core.specs.Words.{text_of, words_after};
ghost use Rattle.record_core.specs.Cells.{line_only};
ghost use Rattle.record_core.specs.Records.{record_text};
ghost use Rattle.record_core.specs.Values.{string};
ghost use Rattle.record_core.specs.declared.cell.Form.TheVariants.{Text};
ghost use Rattle.audit_notes.specs.Lines.{lines_text};
ghost use Rattle.audit_notes.specs.Lines.AuditLine.{Note};
ghost use Rattle.expect_remarks.specs.Met.{is_met, is_met_by, is_rest_met, remarks_met, said_of, shown_remark, shown_remarks};

use crate::appended::append_record;
use audit_notes::{AuditNote, LineHearer};
use expect_text::fits;
use record_core::{Form, Value, cells};
use std::alloc::{AllocError, Global};
use text_core::{Counted, Held, Sink, WriteFault, after, before, first_word};

/// How many remarks are shown, at most.
const SHOWN_MOST: usize = 8;

// Writes the line of a remark.
fn write_remark<S: Sink>(note: AuditNote, out: &mut S) -> Result<(), WriteFault>
    ensures { WritesText (S.contents out.old) (S.contents out.new) (S.is_stuck out.old) (S.is_stuck out.new) (lines_text Text (Note note ∷ [])) result }
{
    let mut text = Counted::new(out);
    text.note(note);
    let written = text.written();
    // No effect at run time. The proof reads what `out` holds from the sink that comes back.
    let _below = text.into_sink();
    match written {
        Ok(_) => Ok(()),
        Err(fault) => Err(fault),
    }
}

// The line of a remark.
fn line_of(alloc: Global, note: AuditNote) -> Result<Held, AllocError>
    ensures { IfOk result (λ held. held_bytes held ≡ lines_text Text (Note note ∷ [])) }
{
    let mut held = Held::new(alloc);
    match write_remark(note, &mut held) {
        Ok(()) => Ok(held),
        Err(_) => Err(AllocError),
    }
}

fn without_end(line: &[u8]) -> &[u8]
    ensures { result.now ≡ take (length line.now - 1) line.now }
{
    before(line, line.len().saturating_sub(1))
}

// What a remark says, of its line.
fn said_in(note: AuditNote, line: &[u8]) -> &[u8]
    requires { line.now ≡ lines_text Text (Note note ∷ []) }
    ensures { result.now ≡ said_of note }
{
    without_end(line)
}

/// The text of the words that are left.
#[tactic(auto, using(crate::proofs::Shown::left_again))]
pub fn text_left(rest: Option<&[u8]>) -> &[u8]
    ensures { result.now ≡ text_of (words_after (option_copied rest.entry)) }
{
    match rest {
        None => b"",
        Some(rest) => rest,
    }
}

fn is_rest_met(rest: &[u8], said: &[u8]) -> bool
    ensures { result ≡ is_rest_met rest.now said.now }
{
    rest.is_empty() || fits(rest, after(said, 2))
}

// Whether a remark meets a pattern, by what it says.
fn is_met_by(pattern: &[u8], note: AuditNote, said: &[u8]) -> bool
    ensures { result ≡ is_met_by pattern.now note said.now }
{
    let (kind, rest) = first_word(pattern);
    fits(kind, note.kind().name().as_bytes()) && is_rest_met(text_left(rest), said)
}

fn is_met(alloc: Global, pattern: &[u8], note: AuditNote) -> Result<bool, AllocError>
    ensures { IfOk result (λ met. met ≡ is_met pattern.now note) }
{
    let line = line_of(alloc, note)?;
    let said = said_in(note, line.bytes());
    Ok(is_met_by(pattern, note, said))
}

/// Whether some remark meets a pattern.
///
/// # Errors
///
/// Want of memory.
pub fn is_any_met(alloc: Global, remarks: &[AuditNote], pattern: &[u8]) -> Result<bool, AllocError>
    ensures { IfOk result (λ met. met ≡ list_any (is_met pattern.now) remarks.now) }
{
    let mut rest = remarks;
    'remarks: while let [note, others @ ..] = rest {
        if is_met(alloc, pattern, *note)? {
            return Ok(true);
        }
        rest = others;
    }
    Ok(false)
}

fn all_of(alloc: Global, remarks: &[AuditNote]) -> Result<Vec<AuditNote>, AllocError>
    ensures { IfOk result (λ all. all.items ≡ remarks.now) }
{
    let mut all = Vec::new(alloc);
    all.extend_from_slice(remarks)?;
    Ok(all)
}

// The remarks that meet a pattern.
#[tactic(auto, using(crate::proofs::Shown::more_met))]
fn those_met(
    alloc: Global,
    remarks: &[AuditNote],
    pattern: &[u8],
) -> Result<Vec<AuditNote>, AllocError>
    ensures { IfOk result (λ met. met.items ≡ filter (is_met pattern.now) remarks.now) }
{
    let mut met = Vec::new(alloc);
    let mut rest = remarks;
    'remarks: while let [note, others @ ..] = rest {
        if is_met(alloc, pattern, *note)? {
            met.push(*note)?;
        }
        rest = others;
    }
    Ok(met)
}

/// The remarks that meet a pattern, in order; without one all of them.
///
/// # Errors
///
/// Want of memory.
pub fn remarks_met(
    alloc: Global,
    remarks: &[AuditNote],
    pattern: Option<&[u8]>,
) -> Result<Vec<AuditNote>, AllocError>
    ensures { IfOk result (λ met. met.items ≡ remarks_met (option_copied pattern.entry) remarks.now) }
{
    match pattern {
        None => all_of(alloc, remarks),
        Some(pattern) => those_met(alloc, remarks, pattern),
    }
}

fn first_remarks(remarks: &[AuditNote]) -> &[AuditNote]
    ensures { result.now ≡ take 8 remarks.now }
{
    if SHOWN_MOST < remarks.len() {
        &remarks[..SHOWN_MOST]
    } else {
        remarks
    }
}

// Appends what a remark says.
fn append_said(out: &mut Held, form: Form, said: &[u8]) -> Result<(), AllocError>
    ensures { OnOk result (held_bytes out.new ≡ held_bytes out.old ++ record_text form (codes "other") (line_only (codes "# ") (string said.now) ∷ [])) }
{
    let cells = cells![line("# ", Value::String(said))];
    append_record(out, form, "other", &cells)
}

#[tactic(auto, using(crate::proofs::Shown::shown_as))]
fn append_remark(
    alloc: Global,
    out: &mut Held,
    form: Form,
    note: AuditNote,
) -> Result<(), AllocError>
    ensures { OnOk result (held_bytes out.new ≡ held_bytes out.old ++ shown_remark form note) }
{
    let line = line_of(alloc, note)?;
    let said = said_in(note, line.bytes());
    append_said(out, form, said)?;
    Ok(())
}

// Appends these.
fn append_each(
    alloc: Global,
    out: &mut Held,
    form: Form,
    remarks: &[AuditNote],
) -> Result<(), AllocError>
    ensures { OnOk result (held_bytes out.new ≡ held_bytes out.old ++ flat_map (shown_remark form) remarks.now) }
{
    let mut rest = remarks;
    'remarks: while let [note, others @ ..] = rest {
        append_remark(alloc, out, form, *note)?;
        rest = others;
    }
    Ok(())
}

/// Appends the first eight remarks, a line each, or their objects.
///
/// # Errors
///
/// Want of memory.
pub fn append_remarks(
    alloc: Global,
    out: &mut Held,
    form: Form,
    remarks: &[AuditNote],
) -> Result<(), AllocError>
    ensures { OnOk result (held_bytes out.new ≡ held_bytes out.old ++ shown_remarks form remarks.now) }
{
    append_each(alloc, out, form, first_remarks(remarks))
}
