//! A session, and what its last line was answered.
ghost use Rattle.std.specs.Prelude.{◌≡◌, ◌==◌};
ghost use Rattle.library_live.specs.Live.{IsTalkBegun, IsLineHeard, fault_code, has_end, is_fit, open_answer};

use library_answers::{Answer, Code, refused};
use library_run::run_refused;
use live_dialogue::{SessionError, begin};
use live_incoming::LONGEST_LINE;
use live_session::Live;
use record_core::Form;
use room_run::emulate::EmulateError;
use std::alloc::Global;
use text_core::Held;

/// A session, and what its last line was answered, or before its first line what stands before the first answer.
#[derive(Drop)]
pub(crate) struct Talk {
    pub live: Live,
    pub said: Held,
}

/// Why a line is not answered.
#[derive(Clone, Copy, Debug, PartialEq, Eq)]
pub(crate) enum LineFault {
    /// No session is open, or its script has ended.
    Closed,
    /// It has an end in it, or is too long.
    Line,
    /// Memory ran out: the session is over.
    Memory,
}

impl LineFault {
    /// Its number.
    pub(crate) fn code(self) -> Code
        ensures { result ≡ fault_code self }
    {
        match self {
            LineFault::Closed => Code::Closed,
            LineFault::Line => Code::Line,
            LineFault::Memory => Code::Memory,
        }
    }
}

/// The answer where no session begins, for this cause.
pub(crate) fn open_refused(error: SessionError) -> Answer
    ensures { result ≡ open_answer error }
{
    match error {
        SessionError::Topology { line, cause, word } => {
            run_refused(&EmulateError::Topology { line, cause, word })
        }
        SessionError::Edid(cause) => run_refused(&EmulateError::Edid(cause)),
        _ => refused(Code::Memory, 0),
    }
}

// Whether a byte is a line's end.
fn is_end(byte: u8) -> bool
    ensures { result ≡ (byte == 10) }
{
    byte == b'\n'
}

fn has_end(line: &[u8]) -> bool
    ensures { result ≡ has_end line.now }
{
    line.iter().any(|byte| is_end(*byte))
}

// Whether a line is one, and not too long.
fn is_fit(line: &[u8]) -> bool
    ensures { result ≡ is_fit line.now }
{
    line.len() <= LONGEST_LINE && !has_end(line)
}

impl Talk {
    /// A session of this topology before its first line.
    ///
    /// # Errors
    ///
    /// As the topology and its EDID are refused; no memory.
    pub(crate) fn begin(alloc: Global, topology: &[u8]) -> Result<Talk, SessionError>
        ensures { IsTalkBegun topology.now result }
    {
        let live = match begin(alloc, Form::Text, topology) {
            Ok(live) => live,
            Err(error) => return Err(error),
        };
        let mut said = Held::new(alloc);
        match live.write_start(&mut said) {
            Ok(_) => Ok(Talk { live, said }),
            Err(_) => Err(SessionError::Memory),
        }
    }

    /// Answers a line.
    ///
    /// # Errors
    ///
    /// The script has ended; the line has an end in it or is too long: then nothing has changed. No memory: then the session is
    /// over.
    pub(crate) fn answer(&mut self, alloc: Global, line: &[u8]) -> Result<(), LineFault>
        ensures { IsLineHeard self.old line.now self.new result }
    {
        if self.live.is_over() {
            return Err(LineFault::Closed);
        }
        if !is_fit(line) {
            return Err(LineFault::Line);
        }
        let mut said = Held::new(alloc);
        match self.live.line(line, &mut said) {
            Ok(_) => {
                self.said = said;
                Ok(())
            }
            Err(_) => Err(LineFault::Memory),
        }
    }
}
