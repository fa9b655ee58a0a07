//! What is found of expectations of remarks.
ghost use Rattle.std.specs.Prelude.{◌≡◌, OnOk, Some, [], false};
ghost use Rattle.std.specs.Option.{option_copied};
ghost use Rattle.text_core.specs.Lines.{lines_of};
ghost use Rattle.expect_run.specs.Report.{report_as, with_remarks, with_test};
ghost use Rattle.expect_remarks.specs.Kept.{audit_remarks};
ghost use Rattle.expect_remarks.specs.Met.{shown_remarks};
ghost use Rattle.audit_expect.specs.Wanted.{pattern_in, wanted_as, wanted_of, with_wanted, with_wanted_lines};

use crate::wanted::{WantedRemarks, is_any_wanted, wanted_of};
use audit_notes::AuditNote;
use capture_core::Capture;
use expect_remarks::{append_remarks, audit_remarks, is_any_met, remarks_met};
use expect_run::{ReportDraft, add_test};
use record_core::Form;
use std::alloc::{AllocError, Global};
use text_core::first_line;

// The pattern of `no-remark`, where one stands there.
fn pattern_in(pattern: &[u8]) -> Option<&[u8]>
    ensures { option_copied result ≡ pattern_in pattern.now }
{
    match pattern {
        [] => None,
        [_, ..] => Some(pattern),
    }
}

// Appends the test of a line, and below it, where it failed, the first eight of these remarks.
fn add_shown(
    alloc: Global,
    draft: &mut ReportDraft,
    form: Form,
    holds: bool,
    number: u64,
    line: &[u8],
    remarks: &[AuditNote],
) -> Result<(), AllocError>
    ensures { OnOk result (report_as draft.new ≡ with_remarks (with_test form (report_as draft.old) holds number line.now) holds (shown_remarks form remarks.now)) }
{
    add_test(draft, form, holds, number, line)?;
    if holds {
        return Ok(());
    }
    append_remarks(alloc, &mut draft.text, form, remarks)
}

// The same of what a line expects.
fn add_test_of(
    alloc: Global,
    draft: &mut ReportDraft,
    form: Form,
    remarks: &[AuditNote],
    number: u64,
    line: &[u8],
    wanted: WantedRemarks,
) -> Result<(), AllocError>
    ensures { OnOk result (report_as draft.new ≡ with_wanted form remarks.now (report_as draft.old) number line.now (Some (wanted_as wanted.entry))) }
{
    match wanted {
        WantedRemarks::NoRemark(pattern) => {
            let met = remarks_met(alloc, remarks, pattern_in(pattern))?;
            add_shown(alloc, draft, form, met.is_empty(), number, line, &met)
        }
        WantedRemarks::Remark(pattern) => {
            let holds = is_any_met(alloc, remarks, pattern)?;
            add_shown(alloc, draft, form, holds, number, line, remarks)
        }
    }
}

// Appends the test of a line, where it expects something of remarks.
fn add_line(
    alloc: Global,
    draft: &mut ReportDraft,
    form: Form,
    remarks: &[AuditNote],
    number: u64,
    line: &[u8],
) -> Result<(), AllocError>
    ensures { OnOk result (report_as draft.new ≡ with_wanted form remarks.now (report_as draft.old) number line.now (wanted_of line.now)) }
{
    let Some(wanted) = wanted_of(line) else {
        return Ok(());
    };
    add_test_of(alloc, draft, form, remarks, number, line, wanted)
}

// Appends the tests of the lines that expect something of remarks.
fn add_lines(
    alloc: Global,
    draft: &mut ReportDraft,
    form: Form,
    remarks: &[AuditNote],
    text: &[u8],
) -> Result<(), AllocError>
    ensures { OnOk result (report_as draft.new ≡ with_wanted_lines form remarks.now (report_as draft.old) 1 (lines_of text.now)) }
{
    let mut rest = text;
    let mut number = 1u64;
    'lines: while let Some((line, after)) = first_line(rest) {
        add_line(alloc, draft, form, remarks, number, line)?;
        rest = after;
        number += 1;
    }
    Ok(())
}

/// Appends the tests of the lines that expect something of the remarks of a capture's audit. Where there are none it is not made.
///
/// # Errors
///
/// Want of memory.
pub(crate) fn add_wanted(
    alloc: Global,
    draft: &mut ReportDraft,
    form: Form,
    text: &[u8],
    capture: &Capture,
) -> Result<(), AllocError>
    ensures { OnOk result (report_as draft.new ≡ with_wanted_lines form (audit_remarks capture.now) (report_as draft.old) 1 (lines_of text.now)) }
{
    if !is_any_wanted(text) {
        return Ok(());
    }
    let remarks = audit_remarks(alloc, capture)?;
    add_lines(alloc, draft, form, &remarks, text)
}
