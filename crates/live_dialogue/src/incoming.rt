//! The input of a session, line by line.
ghost use Rattle.std.specs.Prelude.{◌≡◌, ◌≤◌, length, OnOk};
ghost use Rattle.live_incoming.specs.Incoming.{IsNext, IsWhole, longest_line};

use crate::limits::LONGEST_LINE;
use arrayvec::ArrayVec;
use live_incoming::{IncomingFault, Lines};
use std::io::Read;
use std::marker::Model;

/// An input: what is still to come of it, and the line that came last.
#[derive(Drop)]
pub(crate) struct Incoming<'i, R: Read> {
    input: &'i mut R,
    lines: Lines,
    line: ArrayVec<u8, LONGEST_LINE>,
}

impl<'i, R: Read> Model for Incoming<'i, R> {
    ghost use Rattle.live_incoming.specs.Incoming.{to_come};
    ghost use Rattle.live_dialogue.specs.Dialogue.{InputState};

    ghost Value = { InputState };

    ghost view = { λ i. record { rest = to_come i.lines (R.remaining i.input.now); line = i.line.items } };
}

impl<'i, R: Read> Incoming<'i, R> {
    /// Nothing has come yet.
    // It is large: where this stood inside its caller, the caller's frame would hold its parts twice.
    #[inline(never)]
    pub(crate) fn new(input: &'i mut R) -> Self
        ensures { result.rest ≡ R.remaining input.old }
    {
        Incoming {
            input,
            lines: Lines::new(),
            line: ArrayVec::new(),
        }
    }

    /// Reads the next line. Returns whether there was one.
    ///
    /// # Errors
    ///
    /// Those of [`Lines::next`].
    pub(crate) fn next(&mut self) -> Result<bool, IncomingFault>
        ensures whole { OnOk result (IsWhole self.new.line) }
        ensures next { IsNext self.old.rest self.new.rest self.new.line result }
    {
        self.lines.next(&mut *self.input, &mut self.line)
    }

    /// The line that came last.
    pub(crate) fn last(&self) -> &[u8]
        ensures value { result.now ≡ self.now.line }
        ensures short { length result.now ≤ longest_line }
    {
        self.line.as_slice()
    }
}
