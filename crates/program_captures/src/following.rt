//! What is reported of a capture as its lines come.
ghost use Rattle.std.specs.Prelude.{◌≡◌, IfErr, OnOk, false, true};
ghost use Rattle.cli_choice.specs.declared.choice.FollowReport.TheVariants as reports;
ghost use Rattle.text_core.specs.Buffered.{below, pending};
ghost use Rattle.program_captures.specs.Following.{FollowsTo, IsCauseOf, IsOfRemark, StopsAs, StopsAudit, StopsSo, fault_of, reception_of};
ghost use Rattle.line_reading.specs.Windows.{AreWindows};

use crate::capture::{fails, within_most};
use crate::fault::MonitorFault;
use cli_choice::{CaptureReport, FollowChoice, FollowReport};
use follow_audit::{AuditView, FollowAuditError, follow_audit};
use follow_core::{FollowError, ReadingView, Reception, follow};
use line_reading::Windows;
use std::alloc::{AllocError, Global};
use std::io::Read;
use text_core::{Buffered, Sink, WriteFault};

fn fault_of(error: FollowError) -> MonitorFault
    ensures { result ≡ fault_of error }
{
    match error {
        FollowError::Read => MonitorFault::Read,
        FollowError::TooLong => MonitorFault::TooLong,
        FollowError::Capture(fault) => MonitorFault::Line(fault),
        FollowError::Write(count) => MonitorFault::Write(WriteFault { count }),
    }
}

fn audit_fault_of(error: FollowAuditError) -> MonitorFault
    ensures { IsCauseOf error result }
{
    match error {
        FollowAuditError::Read => MonitorFault::Read,
        FollowAuditError::TooLong | FollowAuditError::Waiting => MonitorFault::TooLong,
        FollowAuditError::Capture(fault) => MonitorFault::Line(fault),
        FollowAuditError::Write(count) => MonitorFault::Write(WriteFault { count }),
        FollowAuditError::Memory => MonitorFault::Memory(AllocError),
    }
}

// How a capture is read.
fn reception_of(choice: FollowChoice) -> Reception
    ensures same { result ≡ reception_of choice }
    ensures windows { AreWindows result.windows }
{
    Reception {
        windows: Windows::wider(within_most(choice.margin)),
        inverted: choice.inverted,
        glitch: choice.glitch,
    }
}

// Writes the readings, or those from where the line was first idle. Where a line is at fault, what is shown of the lines before it is
// written and handed on.
fn follow_readings<R: Read, W: Sink>(
    choice: FollowChoice,
    from_idle: bool,
    folded: bool,
    signal: &[u8],
    input: &mut R,
    out: &mut Buffered<W>,
) -> Result<(), MonitorFault>
    ensures done { OnOk result (FollowsTo (record choice { report = reports.Readings from_idle folded }) signal.now (R.remaining input.old) (⟦<Buffered<W> as Sink>⟧.contents out.old) (W.contents (below out.new))) }
    ensures stops { IfErr result (StopsSo choice from_idle folded signal.now (R.remaining input.old) (⟦<Buffered<W> as Sink>⟧.contents out.old) (⟦<Buffered<W> as Sink>⟧.contents out.new) (pending out.old) (pending out.new)) }
{
    let written = choice.written;
    let view = ReadingView {
        written,
        from_idle,
        folds: folded,
    };
    match follow(choice.form, signal, view, reception_of(choice), input, out) {
        Ok(()) => Ok(()),
        Err(error) => Err(fault_of(error)),
    }
}

// Fails where a remark makes a strict audit a fault. All of it is written then.
fn end_audit(timing: bool, strict: bool, remarked: bool) -> Result<(), MonitorFault>
    ensures done { OnOk result (strict ≡ true → remarked ≡ false) }
    ensures stops { IfErr result (λ fault. IsOfRemark strict remarked fault) }
{
    if fails(CaptureReport::Audit { timing, strict }, remarked) {
        return Err(MonitorFault::Remarked);
    }
    Ok(())
}

// Writes the audit.
fn follow_remarks<R: Read, W: Sink>(
    alloc: Global,
    choice: FollowChoice,
    timing: bool,
    strict: bool,
    signal: &[u8],
    input: &mut R,
    out: &mut Buffered<W>,
) -> Result<(), MonitorFault>
    ensures done { OnOk result (FollowsTo (record choice { report = reports.Audit timing strict }) signal.now (R.remaining input.old) (⟦<Buffered<W> as Sink>⟧.contents out.old) (W.contents (below out.new))) }
    ensures stops { IfErr result (StopsAudit choice timing strict signal.now (R.remaining input.old) (⟦<Buffered<W> as Sink>⟧.contents out.old) (⟦<Buffered<W> as Sink>⟧.contents out.new) (pending out.old) (pending out.new)) }
{
    let view = AuditView {
        timing,
        written: choice.written,
    };
    match follow_audit(
        alloc,
        choice.form,
        signal,
        reception_of(choice),
        view,
        input,
        out,
    ) {
        Ok(remarked) => end_audit(timing, strict, remarked),
        Err(error) => Err(audit_fault_of(error)),
    }
}

/// Writes each reading of a capture as soon as it is over by the lines that have come, of the wire of a name, or of the first where
/// that is empty, as windows read it that are `margin` wider at either side, 300 at most: its line, or its object; from where the line
/// was first idle with one line for those that begin before, as soon as that is known. It hands that on before the next line is read;
/// of an audit also what there is to remark, as soon as the edges that have come say all of it, and the
/// summary at the end. Where a line is at fault, what was written by the lines before it stays; where a remark is one, all is written.
pub fn follow_capture<R: Read, W: Sink>(
    alloc: Global,
    choice: FollowChoice,
    signal: &[u8],
    input: &mut R,
    out: &mut Buffered<W>,
) -> Result<(), MonitorFault>
    ensures done { OnOk result (FollowsTo choice signal.now (R.remaining input.old) (⟦<Buffered<W> as Sink>⟧.contents out.old) (W.contents (below out.new))) }
    ensures stops { IfErr result (StopsAs choice.report choice signal.now (R.remaining input.old) (⟦<Buffered<W> as Sink>⟧.contents out.old) (⟦<Buffered<W> as Sink>⟧.contents out.new) (pending out.old) (pending out.new)) }
{
    match choice.report {
        FollowReport::Readings { from_idle, folded } => {
            follow_readings(choice, from_idle, folded, signal, input, out)
        }
        FollowReport::Audit { timing, strict } => {
            follow_remarks(alloc, choice, timing, strict, signal, input, out)
        }
    }
}
