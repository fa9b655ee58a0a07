//! Lines that are answered as they come.
ghost use Rattle.std.specs.Prelude.{◌≡◌, ℕ, List, Option, None};
ghost use Rattle.std.specs.Io.KnownBytes.{Keeps};
ghost use Rattle.live_dialogue.specs.Dialogue.{AreHanded, IsAnswering, IsFirstPut, IsFlushed, IsInLimits, IsLineAnswered, IsScriptLine, IsSession};

use crate::error::{ScriptEnd, SessionError};
use crate::hearing::{RefusalHearer, Refusals, SilentRefusals};
use crate::incoming::Incoming;
use crate::limits::MOST_LINES;
use crate::opening::{begin, topology_text};
use live_incoming::IncomingFault;
use live_session::{Live, LiveError};
use record_core::Form;
use std::alloc::Global;
use std::io::Read;
use text_core::{Buffered, Sink};

// Hands on what was put.
fn hand_on<S: Sink>(out: &mut Buffered<S>) -> Result<(), SessionError>
    ensures bytes { Keeps (⟦<Buffered<S> as Sink>⟧.contents out.old) (⟦<Buffered<S> as Sink>⟧.contents out.new) }
    ensures flushed { IsFlushed ⟦<Buffered<S> as Sink>⟧.is_stuck out.old out.new result }
{
    match out.flush() {
        Ok(()) => Ok(()),
        Err(fault) => Err(SessionError::Write(fault.count)),
    }
}

// Writes what stands before the first answer.
fn put_first<S: Sink>(live: &Live, out: &mut Buffered<S>) -> Result<(), SessionError>
    ensures first { IsFirstPut live.now (⟦<Buffered<S> as Sink>⟧.contents out.old) (⟦<Buffered<S> as Sink>⟧.contents out.new) result }
    ensures handed { AreHanded ⟦<Buffered<S> as Sink>⟧.is_stuck out.old out.new result }
{
    // Where this fails, so does the other.
    let _ = live.write_start(out);
    hand_on(out)
}

// Reads the next line of the script, the one of this number.
fn next_line<R: Read>(incoming: &mut Incoming<'_, R>, number: u64) -> Result<(), SessionError>
    ensures { IsScriptLine incoming.old.rest incoming.new.rest incoming.new.line number result }
{
    match incoming.next() {
        Ok(more) => {
            if more {
                Ok(())
            } else {
                Err(SessionError::Script {
                    line: number,
                    cause: ScriptEnd::End,
                })
            }
        }
        Err(IncomingFault::TooLong) => Err(SessionError::Script {
            line: number,
            cause: ScriptEnd::TooLong,
        }),
        Err(IncomingFault::Read) => Err(SessionError::Read),
    }
}

// Answers a line, the one of this number, and hands the answer on; then a refusal is heard of.
fn answer_line<S: Sink, H: RefusalHearer>(
    live: &mut Live,
    number: u64,
    line: &[u8],
    out: &mut Buffered<S>,
    refusals: &mut Refusals<'_, '_, H>,
) -> Result<(), SessionError>
    requires going { live.old.notes.end ≡ None }
    ensures answered { IsLineAnswered live.old line.now live.new (⟦<Buffered<S> as Sink>⟧.contents out.old) (⟦<Buffered<S> as Sink>⟧.contents out.new) result }
    ensures handed { AreHanded ⟦<Buffered<S> as Sink>⟧.is_stuck out.old out.new result }
{
    match live.line(line, out) {
        Ok(answered) => {
            let handed = hand_on(out);
            refusals.tell(answered.step, number, line);
            handed
        }
        Err(error) => match error {
            LiveError::Write(_count) => hand_on(out),
            LiveError::Memory => Err(SessionError::Memory),
        },
    }
}

// Answers line after line, up to the end of the script, to which it has not come.
fn answer<R: Read, S: Sink, H: RefusalHearer>(
    live: &mut Live,
    incoming: &mut Incoming<'_, R>,
    out: &mut Buffered<S>,
    refusals: &mut Refusals<'_, '_, H>,
) -> Result<(), SessionError>
    requires going { live.old.notes.end ≡ None }
    ensures answered { IsAnswering incoming.old.rest incoming.new.rest live.old (⟦<Buffered<S> as Sink>⟧.contents out.old) (⟦<Buffered<S> as Sink>⟧.contents out.new) result }
    ensures handed { AreHanded ⟦<Buffered<S> as Sink>⟧.is_stuck out.old out.new result }
{
    for answered in 0..MOST_LINES {
        next_line(incoming, answered + 1)?;
        answer_line(live, answered + 1, incoming.last(), out, refusals)?;
        if live.is_over() {
            return Ok(());
        }
    }
    Err(SessionError::TooLong)
}

/// Runs a session: reads a topology and a line `script`, and answers each line after it before it reads on, up to a line
/// `end T`. It says lines or objects. Each answer is handed on before the next line is read.
///
/// # Errors
///
/// As the topology and its EDID are refused; the input ends before the line `script` or a line `end`, has a line of more
/// than 4,096 bytes, a topology of more than 1,048,576 bytes or more than 18,446,744,073,709,551,615 lines; a read or a
/// write failed; no memory. What was answered before stays written.
pub fn session<R: Read, S: Sink>(
    alloc: Global,
    form: Form,
    input: &mut R,
    out: &mut Buffered<S>,
) -> Result<(), SessionError>
    ensures limits { IsInLimits (R.remaining input.old) result }
    ensures session { (after : Option (List ℕ)) × IsSession form (R.remaining input.old) after (⟦<Buffered<S> as Sink>⟧.contents out.old) (⟦<Buffered<S> as Sink>⟧.contents out.new) result }
    ensures handed { AreHanded ⟦<Buffered<S> as Sink>⟧.is_stuck out.old out.new result }
{
    session_heard(alloc, form, input, out, &mut SilentRefusals)
}

/// [`session`], of which each line of the topology is heard of as it is read, and each refused line once its answer is handed on.
///
/// # Errors
///
/// Those of [`session`].
pub fn session_heard<R: Read, S: Sink, H: RefusalHearer>(
    alloc: Global,
    form: Form,
    input: &mut R,
    out: &mut Buffered<S>,
    hearer: &mut H,
) -> Result<(), SessionError>
    ensures limits { IsInLimits (R.remaining input.old) result }
    ensures session { (after : Option (List ℕ)) × IsSession form (R.remaining input.old) after (⟦<Buffered<S> as Sink>⟧.contents out.old) (⟦<Buffered<S> as Sink>⟧.contents out.new) result }
    ensures handed { AreHanded ⟦<Buffered<S> as Sink>⟧.is_stuck out.old out.new result }
{
    let mut incoming = Incoming::new(input);
    let topology = topology_text(alloc, &mut incoming, hearer)?;
    // The run is large, and `?` would move it once more.
    let mut live = match begin(alloc, form, topology.as_slice()) {
        Ok(live) => live,
        Err(error) => return Err(error),
    };
    put_first(&live, out)?;
    let mut refusals = Refusals {
        topology: topology.as_slice(),
        hearer,
    };
    answer(&mut live, &mut incoming, out, &mut refusals)
}
