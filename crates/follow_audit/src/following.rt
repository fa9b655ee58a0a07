//! A capture that is followed over a reader and a sink, with what there is to remark.
ghost use Rattle.std.specs.Prelude.{◌≡◌, [], List, OnOk, ℕ};
ghost use Rattle.std.specs.Io.KnownBytes.{Keeps};
ghost use Rattle.text_core.specs.Buffered.{pending};
ghost use Rattle.line_reading.specs.Windows.{AreWindows};
ghost use Rattle.follow_audit.specs.Follow.{Ends, Follows, Hears, HoldsNothing, IsReady, LeavesAlone, kind_of, line_error};

use crate::error::FollowAuditError;
use crate::follower::AuditFollower;
use crate::view::AuditView;
use arrayvec::ArrayVec;
use follow_core::{LineForm, Reception, long_lines_are_too_much};
use live_incoming::{IncomingFault, Lines};
use std::alloc::Global;
use std::io::Read;
use text_core::{Buffered, Sink};

/// The most lines of a capture.
const MOST_LINES: u64 = 18_446_744_073_709_551_615;

// What stopped it, after what was put with it is handed on: how many bytes were, where a `put` took none.
fn stopped<S: Sink>(error: FollowAuditError, out: &mut Buffered<S>) -> FollowAuditError
    ensures same { kind_of result ≡ kind_of error }
    ensures bytes { Keeps (⟦<Buffered<S> as Sink>⟧.contents out.old) (⟦<Buffered<S> as Sink>⟧.contents out.new) }
    ensures alone { (start : List ℕ) → LeavesAlone error start (pending out.old) → LeavesAlone result start (pending out.new) }
{
    match error {
        FollowAuditError::Read | FollowAuditError::TooLong | FollowAuditError::Capture(_) => error,
        FollowAuditError::Waiting | FollowAuditError::Memory => {
            let _ = out.flush();
            error
        }
        FollowAuditError::Write(count) => match out.flush() {
            Ok(()) => FollowAuditError::Write(count),
            Err(fault) => FollowAuditError::Write(fault.count),
        },
    }
}

// Why no line could be read.
fn line_error(fault: IncomingFault) -> FollowAuditError
    ensures { result ≡ line_error fault }
{
    match fault {
        IncomingFault::Read => FollowAuditError::Read,
        IncomingFault::TooLong => FollowAuditError::TooLong,
    }
}

// Takes a line, writes what there is to say by it, and hands that on.
fn hear<S: Sink>(
    follower: &mut AuditFollower,
    alloc: Global,
    signal: &[u8],
    number: u64,
    line: &[u8],
    out: &mut Buffered<S>,
) -> Result<(), FollowAuditError>
    requires ready { IsReady follower.old }
    ensures hears { Hears signal.now number line.now follower.old follower.new (⟦<Buffered<S> as Sink>⟧.contents out.old) (⟦<Buffered<S> as Sink>⟧.contents out.new) result }
    ensures ready { OnOk result (IsReady follower.new) }
    ensures handed { OnOk result (pending out.new ≡ []) }
    ensures kept { HoldsNothing result (pending out.old) (pending out.new) }
{
    match follower.line(alloc, signal, number, line, out) {
        Err(error) => Err(stopped(error, out)),
        Ok(()) => match out.flush() {
            Ok(()) => Ok(()),
            Err(fault) => Err(FollowAuditError::Write(fault.count)),
        },
    }
}

// No line is left: writes what is left to say. Returns whether the standard has something of the audit otherwise.
fn finish<S: Sink>(
    follower: AuditFollower,
    alloc: Global,
    number: u64,
    out: &mut Buffered<S>,
) -> Result<bool, FollowAuditError>
    requires ready { IsReady follower }
    ensures ends { Ends number follower (⟦<Buffered<S> as Sink>⟧.contents out.old) (⟦<Buffered<S> as Sink>⟧.contents out.new) result }
    ensures handed { OnOk result (pending out.new ≡ []) }
    ensures kept { HoldsNothing result (pending out.old) (pending out.new) }
{
    match follower.end(alloc, number, out) {
        Err(error) => Err(stopped(error, out)),
        Ok(remarked) => match out.flush() {
            Ok(()) => Ok(remarked),
            Err(fault) => Err(FollowAuditError::Write(fault.count)),
        },
    }
}

/// Follows a capture: reads it line by line, and writes each reading of the wire of a name, or of the first where that is empty, as
/// soon as it is over by what has come, as it is read, and below it what there is to remark, as soon as the edges that have
/// come say all of that; at the end what there is to say of all readings. It hands on what was written before it reads the next line.
/// At the end it has written the audit of the whole, as it is looked at: with the widths of each reading or without, its lines or
/// their objects. It returns whether the standard has something of it otherwise.
///
/// # Errors
///
/// The first line at fault, counted from 1; a line has more than 4,096 bytes; two readings wait; no memory; a read or a write failed.
/// What was written before stays written: the front of the text of each capture that begins with the lines before, and, where a line
/// is at fault or too long or a read failed, all of it that these say.
pub fn follow_audit<R: Read, S: Sink>(
    alloc: Global,
    form: LineForm,
    signal: &[u8],
    how: Reception,
    view: AuditView,
    input: &mut R,
    out: &mut Buffered<S>,
) -> Result<bool, FollowAuditError>
    requires { AreWindows how.windows }
    ensures follows { Follows form signal.now how view (R.remaining input.old) (⟦<Buffered<S> as Sink>⟧.contents out.old) (⟦<Buffered<S> as Sink>⟧.contents out.new) result }
    ensures handed { OnOk result (pending out.new ≡ []) }
    ensures kept { HoldsNothing result (pending out.old) (pending out.new) }
{
    // No effect at run time. The proof reads from it when a line is too long.
    long_lines_are_too_much();
    let mut lines = Lines::new();
    let mut line = ArrayVec::new();
    let mut follower = AuditFollower::new(alloc, form, how, view);
    for read in 0..MOST_LINES {
        match lines.next(input, &mut line) {
            Err(fault) => return Err(line_error(fault)),
            Ok(more) => {
                if !more {
                    return finish(follower, alloc, read + 1, out);
                }
                match hear(&mut follower, alloc, signal, read + 1, line.as_slice(), out) {
                    Ok(()) => {}
                    Err(error) => return Err(error),
                }
            }
        }
    }
    Err(FollowAuditError::TooLong)
}
