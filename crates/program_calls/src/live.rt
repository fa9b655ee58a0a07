//! A session: the lines of an input, answered as they come.
ghost use Rattle.std.specs.Prelude.{◌≡◌, OnOk};
ghost use Rattle.text_core.specs.Buffered.{below};
ghost use Rattle.cli_choice.specs.Form.{form_by};
ghost use Rattle.program_calls.specs.Live.{Lives};

use crate::fault::ProgramFault;
use explain_core::explain_line;
use explain_marks::InputFault;
use live_dialogue::{RefusalHearer, session_heard};
use live_session::{Refusal, RefusalCause};
use record_core::Form;
use std::alloc::{AllocError, Global};
use std::io::Read;
use text_core::{At, Buffered, Sink, put_all};

/// Explains refused lines, where that is asked for, and keeps the topology, of which a fault may have to be explained.
#[derive(Drop)]
pub(crate) struct Explainer<'e, E: Sink> {
    alloc: Global,
    explains: bool,
    /// What came of the topology, or nothing where memory ran out.
    pub topology: Vec<u8>,
    pub err: &'e mut E,
}

impl<'e, E: Sink> Explainer<'e, E> {
    /// Nothing has come yet.
    pub(crate) fn new(alloc: Global, explains: bool, err: &'e mut E) -> Self {
        Explainer {
            alloc,
            explains,
            topology: Vec::new(alloc),
            err,
        }
    }
}

// Adds a line with its end to a text.
fn add_line(text: &mut Vec<u8>, line: &[u8]) -> Result<(), AllocError> {
    text.extend_from_slice(line)?;
    text.push(b'\n')?;
    Ok(())
}

fn fault_of(line: u64, refusal: Refusal) -> InputFault {
    let word = refusal.word;
    match refusal.cause {
        RefusalCause::Script(cause) => InputFault::Script(At { line, cause, word }),
        RefusalCause::Past => InputFault::Past { line, word },
    }
}

// The line of a refusal, as that of a script which is refused, and what would be right.
fn explained(
    alloc: Global,
    topology: &[u8],
    number: u64,
    line: &[u8],
    refusal: Refusal,
) -> Result<String, AllocError> {
    let mut text = match refusal.cause {
        RefusalCause::Script(cause) => format!(in alloc;
            "hdminet: script line {number}: {cause}\n"
        )?,
        RefusalCause::Past => format!(in alloc; "hdminet: script line {number}: past\n")?,
    };
    let fault = fault_of(number, refusal);
    text.push_str(explain_line(alloc, fault, topology, number, line)?.as_str())?;
    Ok(text)
}

impl<E: Sink> RefusalHearer for Explainer<'_, E> {
    fn note(&mut self, line: &[u8]) {
        if self.explains && add_line(&mut self.topology, line).is_err() {
            self.topology.clear();
        }
    }

    fn hear(&mut self, topology: &[u8], number: u64, line: &[u8], refusal: Refusal) {
        if !self.explains {
            return;
        }
        // Where memory runs out the answer stands alone.
        if let Ok(text) = explained(self.alloc, topology, number, line, refusal) {
            let _ = put_all(self.err, text.as_bytes());
        }
    }
}

/// Whether a session is answered in lines or in objects.
pub(crate) fn form_by(json: bool) -> Form
    ensures { result ≡ form_by json }
{
    if json { Form::Json } else { Form::Text }
}

/// Answers each line of an input before it reads the next one, in lines or in objects. What was put to the sink before is handed on
/// first. A refused line is explained where that is asked for.
#[inline(never)]
pub(crate) fn live<R: Read, W: Sink, E: Sink>(
    alloc: Global,
    form: Form,
    input: &mut R,
    out: &mut Buffered<W>,
    explainer: &mut Explainer<'_, E>,
) -> Result<(), ProgramFault>
    ensures { OnOk result (Lives form (R.remaining input.old) (⟦<Buffered<W> as Sink>⟧.contents out.old) (W.contents (below out.new))) }
{
    out.flush()?;
    session_heard(alloc, form, input, out, explainer)?;
    Ok(())
}
