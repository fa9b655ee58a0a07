//! A capture that is followed over a reader and a sink.
ghost use Rattle.std.specs.Prelude.{◌≡◌, [], Err, List, OnOk, Option, Some, ℕ};
ghost use Rattle.std.specs.Io.KnownBytes.{Keeps};
ghost use Rattle.text_core.specs.Buffered.{pending};
ghost use Rattle.line_reading.specs.Windows.{AreWindows};
ghost use Rattle.follow_core.specs.Follow.{Ends, Follows, HoldsNothing, Hears, IsOfWriting, IsReady, line_error};
ghost use Rattle.follow_core.specs.Shown.{Puts, start_by};

use crate::error::FollowError;
use crate::follower::Follower;
use crate::lines::LineForm;
use crate::reception::Reception;
use crate::shown::{Starts, write_ended, write_last};
use crate::view::ReadingView;
use arrayvec::ArrayVec;
use live_incoming::{IncomingFault, Lines};
use std::io::Read;
use text_core::{Buffered, Sink, WriteFault};

/// The most lines of a capture.
const MOST_LINES: u64 = 18_446_744_073_709_551_615;

// How many bytes were handed on, where a `put` took none.
fn stopped<S: Sink>(fault: WriteFault, out: &mut Buffered<S>) -> FollowError
    ensures writing { IsOfWriting (Err result) }
    ensures bytes { Keeps (⟦<Buffered<S> as Sink>⟧.contents out.old) (⟦<Buffered<S> as Sink>⟧.contents out.new) }
{
    match out.flush() {
        Ok(()) => FollowError::Write(fault.count),
        Err(handed) => FollowError::Write(handed.count),
    }
}

// Hands on what was written, up to a fault.
fn hand_on<S: Sink>(done: Result<(), WriteFault>, out: &mut Buffered<S>) -> Result<(), FollowError>
    ensures put { (before : Option (List ℕ)) (text : List ℕ) → Puts before (⟦<Buffered<S> as Sink>⟧.contents out.old) text done → Puts before (⟦<Buffered<S> as Sink>⟧.contents out.new) text result }
    ensures handed { OnOk result (pending out.new ≡ []) }
    ensures writing { IsOfWriting result }
{
    match done {
        Err(fault) => Err(stopped(fault, out)),
        Ok(()) => match out.flush() {
            Ok(()) => Ok(()),
            Err(fault) => Err(FollowError::Write(fault.count)),
        },
    }
}

// Why no line could be read.
fn line_error(fault: IncomingFault) -> FollowError
    ensures { result ≡ line_error fault }
{
    match fault {
        IncomingFault::Read => FollowError::Read,
        IncomingFault::TooLong => FollowError::TooLong,
    }
}

// Takes a line, writes what has ended by it, and hands that on.
fn hear<S: Sink>(
    follower: &mut Follower,
    view: ReadingView,
    signal: &[u8],
    number: u64,
    line: &[u8],
    out: &mut Buffered<S>,
) -> Result<(), FollowError>
    requires ready { IsReady follower.old }
    ensures hears { Hears view signal.now number line.now follower.old follower.new (⟦<Buffered<S> as Sink>⟧.contents out.old) (⟦<Buffered<S> as Sink>⟧.contents out.new) result }
    ensures ready { OnOk result (IsReady follower.new) }
    ensures handed { OnOk result (pending out.new ≡ []) }
    ensures kept { HoldsNothing result (pending out.old) (pending out.new) }
{
    let before = follower.start(view.from_idle);
    match follower.line(signal, number, line) {
        Err(fault) => Err(FollowError::Capture(fault)),
        Ok(heard) => {
            let now = follower.start(view.from_idle);
            let starts = Starts { before, now };
            let done = write_ended(view, starts, &mut follower.shown, &heard, out);
            hand_on(done, out)
        }
    }
}

// From which instant readings are by themselves, where the end is known.
fn start_at_end(from_idle: bool, idle: u64) -> Option<u64>
    ensures { result ≡ start_by from_idle (Some idle) }
{
    if from_idle { Some(idle) } else { Some(0) }
}

// No line is left: writes what is left of the readings.
fn finish<S: Sink>(
    follower: Follower,
    view: ReadingView,
    number: u64,
    out: &mut Buffered<S>,
) -> Result<(), FollowError>
    requires ready { IsReady follower }
    ensures ends { Ends view number follower (⟦<Buffered<S> as Sink>⟧.contents out.old) (⟦<Buffered<S> as Sink>⟧.contents out.new) result }
    ensures handed { OnOk result (pending out.new ≡ []) }
    ensures kept { HoldsNothing result (pending out.old) (pending out.new) }
{
    let before = follower.start(view.from_idle);
    match follower.end(number) {
        Err(fault) => Err(FollowError::Capture(fault)),
        Ok(last) => {
            let now = start_at_end(view.from_idle, last.idle);
            let starts = Starts { before, now };
            let done = write_last(view, starts, last.shown, &last.ended, out);
            hand_on(done, out)
        }
    }
}

/// Follows a capture: reads it line by line, and writes what is shown of the readings of the wire of a name, or of the first where that
/// is empty, as soon as they are over by what has come: lines, or their objects. What was written is handed on before the next line is
/// read. At the end it has written what is shown of the whole. Where one line stands for the readings before the line of the bus is
/// first idle, nothing is written until then; bad starts one after another that are one line are held back until another reading ends.
///
/// # Errors
///
/// The first line at fault, counted from 1; a line has more than 4,096 bytes; a read or a write failed. What is over by the lines
/// before is shown and stays: the front of what is shown of each capture that begins with them.
pub fn follow<R: Read, S: Sink>(
    form: LineForm,
    signal: &[u8],
    view: ReadingView,
    how: Reception,
    input: &mut R,
    out: &mut Buffered<S>,
) -> Result<(), FollowError>
    requires { AreWindows how.windows }
    ensures follows { Follows form signal.now view how (R.remaining input.old) (⟦<Buffered<S> as Sink>⟧.contents out.old) (⟦<Buffered<S> as Sink>⟧.contents out.new) result }
    ensures handed { OnOk result (pending out.new ≡ []) }
    ensures kept { HoldsNothing result (pending out.old) (pending out.new) }
{
    let mut lines = Lines::new();
    let mut line = ArrayVec::new();
    let mut follower = Follower::new(form, how);
    for read in 0..MOST_LINES {
        match lines.next(input, &mut line) {
            Err(fault) => return Err(line_error(fault)),
            Ok(more) => {
                if !more {
                    return finish(follower, view, read + 1, out);
                }
                match hear(&mut follower, view, signal, read + 1, line.as_slice(), out) {
                    Ok(()) => {}
                    Err(error) => return Err(error),
                }
            }
        }
    }
    Err(FollowError::TooLong)
}
