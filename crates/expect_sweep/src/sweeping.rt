//! From the texts of a topology and a script with a range to the stretches of its instants.
ghost use Rattle.std.specs.Prelude.{◌≡◌, ◌↔◌, false, Ok, Some, IfOk, IfErr, IsTrue};
ghost use Rattle.expect_sweep.specs.Order.{ordered_range};
ghost use Rattle.expect_sweep.specs.Progress.{IsHeardAll, IsHeardSome, IsSweepHeard};
ghost use Rattle.expect_sweep.specs.Script.{script_at};
ghost use Rattle.expect_sweep.specs.Stretches.{draft_as};
ghost use Rattle.expect_sweep.specs.Sweep.{AreVerdictsAt, IsRefusalAt, IsSweepCut, IsSweepReported, IsSwept, IsSweptDraft, IsSeriesReported, is_write};

use crate::order::ordered_range;
use crate::progress::{ProgressHearer, tell};
use crate::script::script_at;
use crate::series::InstantSeries;
use crate::stretches::StretchesDraft;
use expect_run::{CheckError, verdicts};
use expect_text::RangeCause;
use record_core::Form;
use std::alloc::Global;
use text_core::{At, Sink, put_all};
use thiserror::Error;

/// Why there is no sweep of a script, or not all of it.
#[derive(Debug, Drop, Error)]
pub enum SweepError {
    /// The script has no range.
    #[error("no range")]
    NoRange,
    /// The first line of the script whose range is none, or is the second one; the line of the range, where an instant of it breaks
    /// the order of the script.
    #[error("script {0}")]
    Range(At<RangeCause>),
    /// The first instant of the range with which the script is refused.
    #[error("{error} at {instant}")]
    At { instant: u64, error: CheckError },
    /// A `put` took none. So many bytes of the lines were written.
    #[error("write fault after {0} bytes")]
    Write(u128),
    #[error("no memory")]
    Memory,
}

// The verdicts of the script at an instant.
fn verdicts_at(
    alloc: Global,
    topology: &[u8],
    script: &[u8],
    instant: u64,
) -> Result<Vec<bool>, SweepError>
    ensures ok { IfOk result (λ found. AreVerdictsAt topology.now script.now instant found.items) }
    ensures reported { IfErr result (IsRefusalAt topology.now script.now instant) }
{
    let Ok(text) = script_at(alloc, script, instant) else {
        return Err(SweepError::Memory);
    };
    match verdicts(alloc, topology, &text) {
        Ok(found) => Ok(found),
        Err(CheckError::Memory) => Err(SweepError::Memory),
        Err(error) => Err(SweepError::At { instant, error }),
    }
}

// The stretches of a series.
fn swept<H: ProgressHearer>(
    alloc: Global,
    form: Form,
    topology: &[u8],
    script: &[u8],
    series: &InstantSeries,
    hearer: &mut H,
) -> Result<StretchesDraft, SweepError>
    ensures ok { IfOk result (λ draft. IsSweptDraft form topology.now script.now series.now (draft_as draft)) }
    ensures reported { IfErr result (IsSeriesReported topology.now script.now series.now) }
    ensures heard { IfOk result (λ draft. IsHeardAll H.hears (AreVerdictsAt topology.now script.now) series.now hearer.old hearer.new) }
    ensures heard_some { IfErr result (λ error. IsHeardSome H.hears (AreVerdictsAt topology.now script.now) series.now hearer.old hearer.new) }
{
    let to = series.to();
    let step = series.step();
    let count = series.count();
    let mut at = series.from();
    let first = match verdicts_at(alloc, topology, script, at) {
        Err(error) => return Err(error),
        Ok(first) => first,
    };
    let mut draft = StretchesDraft::new(alloc, form, at, first);
    'instants: while step <= to - at {
        tell(hearer, draft.done, count, draft.stretches);
        at += step;
        let found = match verdicts_at(alloc, topology, script, at) {
            Err(error) => return Err(error),
            Ok(found) => found,
        };
        match draft.add(at, found) {
            Err(_) => return Err(SweepError::Memory),
            Ok(()) => {}
        }
    }
    match draft.end() {
        Err(_) => Err(SweepError::Memory),
        Ok(()) => Ok(draft),
    }
}

/// Checks a script with each instant of its range in the place of one of its times, `T..U` or `T..U/S`, and writes a line for
/// each longest stretch of instants in a row whose verdicts are the same: its first and its last instant, and the verdicts; or the
/// objects of these lines. Returns whether all of them are ok. The lines are held in memory. After each 1,000 instants, as long as there are more, the
/// hearer hears how far the sweep is.
///
/// # Errors
///
/// No range, or the first line whose range is refused, before the first run; the first instant at which the script is refused, and why: then nothing
/// was written. A failed write: then the front of the lines was written, as long as it reports.
pub fn sweep<S: Sink, H: ProgressHearer>(
    alloc: Global,
    form: Form,
    topology: &[u8],
    script: &[u8],
    out: &mut S,
    hearer: &mut H,
) -> Result<bool, SweepError>
    ensures ok { IfOk result (IsSwept form topology.now script.now (S.contents out.old) (S.contents out.new)) }
    ensures reported { IfErr result (IsSweepReported topology.now script.now) }
    ensures write { S.is_stuck out.old ≡ false → (IsTrue (is_write result) ↔ IsTrue (S.is_stuck out.new)) }
    ensures cut { IfErr result (IsSweepCut form topology.now script.now (S.contents out.old) (S.contents out.new)) }
    ensures heard { IsSweepHeard H.hears topology.now script.now result hearer.old hearer.new }
{
    let series = match ordered_range(script) {
        Err(fault) => return Err(SweepError::Range(fault)),
        Ok(None) => return Err(SweepError::NoRange),
        Ok(Some(series)) => series,
    };
    let draft = match swept(alloc, form, topology, script, &series, hearer) {
        Err(error) => return Err(error),
        Ok(draft) => draft,
    };
    match put_all(out, draft.text.bytes()) {
        Ok(()) => Ok(draft.holds),
        Err(fault) => Err(SweepError::Write(fault.count)),
    }
}
