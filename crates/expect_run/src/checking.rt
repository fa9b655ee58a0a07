//! From the texts of a topology and a script with expectations to their report.
ghost use Rattle.std.specs.Prelude.{◌≡◌, ◌↔◌, not, false, length, filter, None, IfOk, IfErr, IfSome, IsTrue, OnOk};
ghost use Rattle.text_core.specs.Lines.{lines_of};
ghost use Rattle.expect_text.specs.Line.{plain_script};
ghost use Rattle.expect_text.specs.Faults.{first_fault};
ghost use Rattle.expect_judge.specs.Judged.{states_for};
ghost use Rattle.expect_run.specs.States.{AreStates, IsTraced, said_in, shown_in};
ghost use Rattle.expect_run.specs.States.StateView.{Below, Said};
ghost use Rattle.expect_run.specs.Check.{AreVerdictsOf, IsCheckCut, IsCheckReported, IsChecked, IsHeardSo, IsReportOf, IsVerdictReported, is_write, tally_of};
ghost use Rattle.expect_run.specs.Report.{report_as};
ghost use Rattle.expect_run.specs.Sifted.{told_kept};

use crate::needs::Needs;
use crate::plain::PlainScriptLines;
use crate::report::{ReportDraft, report_of_few, report_of_told};
use crate::run::run_told;
use crate::states::{StateTexts, all_states};
use crate::told::{KeptTold, RunTold};
use expect_text::{ExpectCause, Labels, fault_among, has_names};
use record_core::Form;
use room_run::emulate::EmulateError;
use std::alloc::Global;
use text_core::{At, Sink, put_all};
use thiserror::Error;

/// How many tests a report has.
#[derive(Clone, Copy, Debug, PartialEq, Eq)]
pub struct Tally {
    /// All of them, one for each expectation and for each refused event that none expects.
    pub count: u64,
    /// Those that failed.
    pub failed: u64,
}

/// Why there is no report, or not all of it.
#[derive(Debug, Drop, Error)]
pub enum CheckError {
    /// The run of the script without labels and expectations is refused.
    #[error(transparent)]
    Emulate(EmulateError),
    /// The first line of the script whose label or expectation is at fault.
    #[error("script {0}")]
    Expect(At<ExpectCause>),
    /// A `put` took none. So many bytes of the report were written.
    #[error("write fault after {0} bytes")]
    Write(u128),
    #[error("no memory")]
    Memory,
}

// How many tests failed.
fn failed_in(verdicts: &[bool]) -> u64
    ensures { result ≡ length (filter not verdicts.now) }
{
    let mut rest = verdicts;
    let mut count = 0u64;
    'verdicts: while let [holds, others @ ..] = rest {
        if !*holds {
            count += 1;
        }
        rest = others;
    }
    count
}

/// How many tests have these verdicts, and how many of them failed.
pub fn tally_of(verdicts: &[bool]) -> Tally
    ensures { result ≡ tally_of verdicts.now }
{
    Tally {
        count: verdicts.len() as u64,
        failed: failed_in(verdicts),
    }
}

// Hears a script's run, and keeps of it what its report needs, or all. `None` where a labelled event was not applied about when the
// script has it.
fn hear_run(
    alloc: Global,
    form: Form,
    topology: &[u8],
    script: &[u8],
    all: bool,
) -> Result<Option<KeptTold>, CheckError>
    ensures traced { OnOk result (IsTraced topology.now (plain_script script.now)) }
    ensures kept { IfOk result (λ told. IfSome told (λ told. IsHeardSo form all topology.now script.now (told_kept told))) }
    ensures reported { IfErr result (IsVerdictReported topology.now script.now) }
{
    let Ok(needs) = Needs::new(alloc, script) else {
        return Err(CheckError::Memory);
    };
    let mut told = RunTold::new(alloc, needs, all, has_names(script), form);
    match run_told(alloc, topology, &PlainScriptLines { script }, &mut told) {
        Ok(_) => {}
        Err(error) => return Err(CheckError::Emulate(error)),
    }
    if told.late {
        return Ok(None);
    }
    if told.lost {
        return Err(CheckError::Memory);
    }
    let RunTold { rounds, events, .. } = told;
    Ok(Some(KeptTold { rounds, events }))
}

// The report of a script, by all that is told of its run.
#[tactic(auto, using(crate::proofs::Checked::reported))]
fn report_by_all(
    alloc: Global,
    form: Form,
    topology: &[u8],
    labels: &Labels<'_>,
    states: &StateTexts,
) -> Result<ReportDraft, CheckError>
    requires accepted { first_fault topology.now labels.now.script.now ≡ None }
    requires said { AreStates Said topology.now (plain_script labels.now.script.now) (lines_of labels.now.script.now) (states_for (lines_of labels.now.script.now) (said_in states.now)) }
    requires shown { AreStates (Below form) topology.now (plain_script labels.now.script.now) (lines_of labels.now.script.now) (states_for (lines_of labels.now.script.now) (shown_in states.now)) }
    ensures ok { IfOk result (λ draft. IsReportOf form topology.now labels.now.script.now (report_as draft)) }
    ensures reported { IfErr result (IsVerdictReported topology.now labels.now.script.now) }
{
    match hear_run(alloc, form, topology, labels.script, true)? {
        None => Err(CheckError::Memory),
        Some(told) => match report_of_told(alloc, form, labels, &told, states) {
            Ok(report) => Ok(report),
            Err(_) => Err(CheckError::Memory),
        },
    }
}

// The report of a script whose labels these are, by what it needs of its run. The run is made again where that is not enough, or where
// a test failed whose window no round meets: then the first rounds in the window are shown.
#[tactic(auto, using(crate::proofs::Checked::reported_few))]
fn report_by_few(
    alloc: Global,
    form: Form,
    topology: &[u8],
    labels: &Labels<'_>,
    few: Option<KeptTold>,
    states: &StateTexts,
) -> Result<ReportDraft, CheckError>
    requires kept { IfSome few (λ few. IsHeardSo form false topology.now labels.now.script.now (told_kept few)) }
    requires accepted { first_fault topology.now labels.now.script.now ≡ None }
    requires said { AreStates Said topology.now (plain_script labels.now.script.now) (lines_of labels.now.script.now) (states_for (lines_of labels.now.script.now) (said_in states.now)) }
    requires shown { AreStates (Below form) topology.now (plain_script labels.now.script.now) (lines_of labels.now.script.now) (states_for (lines_of labels.now.script.now) (shown_in states.now)) }
    ensures ok { IfOk result (λ draft. IsReportOf form topology.now labels.now.script.now (report_as draft)) }
    ensures reported { IfErr result (IsVerdictReported topology.now labels.now.script.now) }
{
    let Some(few) = few else {
        return report_by_all(alloc, form, topology, labels, states);
    };
    let Ok(report) = report_of_few(alloc, form, labels, &few, states) else {
        return Err(CheckError::Memory);
    };
    match report {
        Some(report) => Ok(report),
        None => report_by_all(alloc, form, topology, labels, states),
    }
}

// The report of a script.
#[tactic(auto, using(crate::proofs::Checked::faulty, crate::proofs::Checked::faultless))]
fn report_of(
    alloc: Global,
    form: Form,
    topology: &[u8],
    script: &[u8],
) -> Result<ReportDraft, CheckError>
    ensures ok { IfOk result (λ draft. IsReportOf form topology.now script.now (report_as draft)) }
    ensures reported { IfErr result (IsVerdictReported topology.now script.now) }
{
    let few = match hear_run(alloc, form, topology, script, false) {
        Ok(few) => few,
        Err(error) => return Err(error),
    };
    let Ok(labels) = Labels::new(alloc, script) else {
        return Err(CheckError::Memory);
    };
    match fault_among(topology, &labels) {
        Some(fault) => return Err(CheckError::Expect(fault)),
        None => {}
    }
    let Ok(states) = all_states(alloc, form, topology, script) else {
        return Err(CheckError::Memory);
    };
    report_by_few(alloc, form, topology, &labels, few, &states)
}

/// Runs a script without its labels and expectations on a topology, and writes the report of whether the run is as they have
/// it, as the Test Anything Protocol has it, or the objects of its lines: a line for each expectation, in order, and one for each
/// refused event that none expects. Of the run the events that have a label or are refused, and the rounds that meet an expectation, are held in memory, by a
/// wider window where it hangs from a label; all of them only where a test failed whose window no round meets. Where a pattern has
/// names, each round says who holds which address.
///
/// # Errors
///
/// Those of `emulate` for the plain script, and then the first line of the script whose label or expectation is at fault: then
/// nothing was written. A failed write: then the front of the report was written, as long as it reports.
#[tactic(auto, using(crate::proofs::Checked::in_each_form))]
pub fn check<S: Sink>(
    alloc: Global,
    form: Form,
    topology: &[u8],
    script: &[u8],
    out: &mut S,
) -> Result<Tally, CheckError>
    ensures ok { IfOk result (IsChecked form topology.now script.now (S.contents out.old) (S.contents out.new)) }
    ensures reported { IfErr result (IsCheckReported form topology.now script.now) }
    ensures write { S.is_stuck out.old ≡ false → (IsTrue (is_write result) ↔ IsTrue (S.is_stuck out.new)) }
    ensures cut { IfErr result (IsCheckCut form topology.now script.now (S.contents out.old) (S.contents out.new)) }
{
    let report = match report_of(alloc, form, topology, script) {
        Ok(report) => report,
        Err(error) => return Err(error),
    };
    match put_all(out, report.text.bytes()) {
        Ok(()) => Ok(tally_of(&report.verdicts)),
        Err(fault) => Err(CheckError::Write(fault.count)),
    }
}

/// Whether each test of the report that [`check`] writes of a script holds, in order. What [`check`] keeps of the trace and the
/// report are held in memory meanwhile.
///
/// # Errors
///
/// Those of [`check`], except that nothing is written.
pub fn verdicts(alloc: Global, topology: &[u8], script: &[u8]) -> Result<Vec<bool>, CheckError>
    ensures ok { IfOk result (λ verdicts. AreVerdictsOf topology.now script.now verdicts.items) }
    ensures reported { IfErr result (IsVerdictReported topology.now script.now) }
{
    Ok(report_of(alloc, Form::Text, topology, script)?.verdicts)
}
