//! From expectations and a capture to their report.
ghost use Rattle.std.specs.Prelude.{◌≡◌, ◌↔◌, false, map, IfOk, IfErr, IsTrue};
ghost use Rattle.audit_expect.specs.Check.{IsCaptureChecked, IsCaptureCut, IsCaptureReported, capture_report, is_write, reading_tests};
ghost use Rattle.audit_expect.specs.Marks.{no_states};
ghost use Rattle.audit_expect.specs.Wanted.{plain_text};
ghost use Rattle.expect_judge.specs.Told.{event_as, kept_as};
ghost use Rattle.expect_run.specs.Report.{report_as, tests};

use crate::faults::first_fault;
use crate::marks::marks;
use crate::readings::rounds_told;
use crate::remarks::add_wanted;
use crate::wanted::plain_text;
use capture_core::Capture;
use expect_judge::{EventLine, KeptRound, Told, rounds_kept};
use expect_run::{ReportDraft, Tally, add_plan, open_report, tally_of};
use expect_text::ExpectCause;
use record_core::Form;
use std::alloc::{AllocError, Global};
use text_core::{At, Sink, put_all};
use thiserror::Error;

/// Why there is no report of a capture, or not all of it.
#[derive(Debug, Drop, Error)]
pub enum CaptureCheckError {
    /// The first line of the expectations at fault.
    #[error("expectations {0}")]
    Expect(At<ExpectCause>),
    /// A `put` took none. So many bytes of the report were written.
    #[error("write fault after {0} bytes")]
    Write(u128),
    #[error("no memory")]
    Memory,
}

// The tests of expectations of readings, by these rounds and events.
fn tests_of<'a>(
    alloc: Global,
    form: Form,
    expectations: &[u8],
    kept: &'a [KeptRound],
    events: &'a [EventLine<'static>],
) -> Result<ReportDraft, AllocError>
    ensures { IfOk result (λ draft. report_as draft ≡ tests form expectations.now (record { rounds = map kept_as kept.now; events = map event_as events.now }) (no_states expectations.now) (no_states expectations.now)) }
{
    let rounds = rounds_kept(alloc, kept)?;
    let told = Told {
        rounds: &rounds,
        events,
    };
    let draft = open_report(alloc, form, expectations, &told, &[], &[])?;
    Ok(draft)
}

// The tests of expectations of readings.
fn reading_tests(
    alloc: Global,
    form: Form,
    expectations: &[u8],
    capture: &Capture,
) -> Result<ReportDraft, AllocError>
    ensures { IfOk result (λ draft. report_as draft ≡ reading_tests form expectations.now capture.now) }
{
    let kept = rounds_told(alloc, form, capture)?;
    let events = marks(alloc, expectations)?;
    let draft = tests_of(alloc, form, expectations, &kept, &events)?;
    Ok(draft)
}

// The report; `plain` are the expectations of readings.
fn report_of(
    alloc: Global,
    form: Form,
    expectations: &[u8],
    plain: &[u8],
    capture: &Capture,
) -> Result<ReportDraft, AllocError>
    requires { plain.now ≡ plain_text expectations.now }
    ensures { IfOk result (λ draft. report_as draft ≡ capture_report form expectations.now capture.now) }
{
    let mut draft = reading_tests(alloc, form, plain, capture)?;
    add_wanted(alloc, &mut draft, form, expectations, capture)?;
    add_plan(&mut draft, form)?;
    Ok(draft)
}

/// Writes the report of whether the readings of a capture are as the expectations have it, or its objects, as `check` writes that of a
/// run. The lines of the expectations are those of a script, with `label NAME at T` in place of events: it names an instant. After them stand
/// the tests of the remarks of its audit, `expect no-remark` and `expect remark PATTERN`. The report, what the readings say and,
/// where they are spoken of, the remarks are held in memory.
///
/// # Errors
///
/// The first line at fault: then nothing was written. A failed write: then the front of the report was written, as long as it
/// reports.
pub fn check_capture<S: Sink>(
    alloc: Global,
    form: Form,
    expectations: &[u8],
    capture: &Capture,
    out: &mut S,
) -> Result<Tally, CaptureCheckError>
    ensures ok { IfOk result (IsCaptureChecked form expectations.now capture.now (S.contents out.old) (S.contents out.new)) }
    ensures reported { IfErr result (IsCaptureReported expectations.now) }
    ensures write { S.is_stuck out.old ≡ false → (IsTrue (is_write result) ↔ IsTrue (S.is_stuck out.new)) }
    ensures cut { IfErr result (IsCaptureCut form expectations.now capture.now (S.contents out.old) (S.contents out.new)) }
{
    let Ok(plain) = plain_text(alloc, expectations) else {
        return Err(CaptureCheckError::Memory);
    };
    let Ok(fault) = first_fault(alloc, expectations, &plain) else {
        return Err(CaptureCheckError::Memory);
    };
    match fault {
        Some(fault) => return Err(CaptureCheckError::Expect(fault)),
        None => {}
    }
    let Ok(report) = report_of(alloc, form, expectations, &plain, capture) else {
        return Err(CaptureCheckError::Memory);
    };
    match put_all(out, report.text.bytes()) {
        Ok(()) => Ok(tally_of(&report.verdicts)),
        Err(fault) => Err(CaptureCheckError::Write(fault.count)),
    }
}
