//! Lines as they come.
ghost use Rattle.std.specs.Prelude.{◌≡◌, ◌+◌, ◌≤◌, [], ◌++◌, drop, length, OnOk};
ghost use Rattle.live_incoming.specs.Incoming.{IsFilled, IsNext, IsPiece, IsWhole, bytes_left, to_come, longest_line};

use arrayvec::ArrayVec;
use std::io::Read;
use text_core::{after, before, len_before};
use thiserror::Error;

/// The most bytes of a line, without its end.
pub const LONGEST_LINE: usize = 4096;

// So many bytes are read at a time, at most.
const READ: usize = 4096;

/// Why no line could be read.
#[derive(Clone, Copy, Debug, Drop, PartialEq, Eq, Error)]
pub enum IncomingFault {
    #[error("read fault")]
    Read,
    /// More than 4,096 bytes before the line's end.
    #[error("line too long")]
    TooLong,
}

/// What was handed out of the bytes that are left.
enum LinePiece {
    /// Nothing, since none are left.
    Nothing,
    /// All of them, and no end among them.
    Part,
    /// The line's last bytes and its end.
    End,
    /// More than the line has room for.
    Over,
}

/// Parts what a reader gives into lines. It reads no further than it has to: a line is handed out as soon as its end was
/// read.
#[derive(Drop)]
pub struct Lines {
    /// What the last read gave stands first.
    pending: [u8; READ],
    /// How many bytes it gave.
    given: usize,
    /// How many of these bytes were handed out.
    handed: usize,
}

// Adds bytes to a line that has room for them.
fn add(line: &mut ArrayVec<u8, LONGEST_LINE>, bytes: &[u8])
    requires { length line.old.items + length bytes.now ≤ longest_line }
    ensures { line.new.items ≡ line.old.items ++ bytes.now }
{
    let _ = line.try_extend_from_slice(bytes);
}

impl Lines {
    /// Nothing is read yet.
    pub fn new() -> Lines
        ensures { bytes_left result ≡ [] }
    {
        Lines {
            pending: [0; READ],
            given: 0,
            handed: 0,
        }
    }

    // What was read and is not handed out.
    fn left(&self) -> &[u8]
        ensures { result.now ≡ bytes_left self.now }
    {
        after(before(self.pending.as_slice(), self.given), self.handed)
    }

    // Reads some more.
    fn fill<R: Read>(&mut self, input: &mut R) -> Result<(), IncomingFault>
        ensures { IsFilled (R.remaining input.old) (to_come self.new (R.remaining input.new)) (bytes_left self.new) result }
    {
        match input.read(&mut self.pending) {
            Ok(count) => {
                self.given = count;
                self.handed = 0;
                Ok(())
            }
            Err(_) => Err(IncomingFault::Read),
        }
    }

    // Reads some more where all was handed out.
    fn ready<R: Read>(&mut self, input: &mut R) -> Result<(), IncomingFault>
        ensures { IsFilled (to_come self.old (R.remaining input.old)) (to_come self.new (R.remaining input.new)) (bytes_left self.new) result }
    {
        if !self.left().is_empty() {
            return Ok(());
        }
        self.fill(input)
    }

    // Hands out so many bytes.
    fn hand_out(&mut self, count: usize)
        requires { count ≤ length (bytes_left self.old) }
        ensures { bytes_left self.new ≡ drop count (bytes_left self.old) }
    {
        self.handed += count;
    }

    // Hands out what is left of the line, as far as it was read.
    fn piece(&mut self, line: &mut ArrayVec<u8, LONGEST_LINE>) -> LinePiece
        ensures { IsPiece (bytes_left self.old) (bytes_left self.new) line.old.items line.new.items result }
    {
        let left = self.left();
        let all = left.len();
        if all == 0 {
            return LinePiece::Nothing;
        }
        let count = len_before(left, b'\n');
        let room = line.remaining_capacity();
        if count > room {
            self.hand_out(room + 1);
            return LinePiece::Over;
        }
        add(line, before(left, count));
        if count == all {
            self.hand_out(count);
            return LinePiece::Part;
        }
        self.hand_out(count + 1);
        LinePiece::End
    }

    /// Reads the next line, without its end. Returns whether there was one.
    ///
    /// # Errors
    ///
    /// A read failed, or the line is longer than 4,096 bytes.
    pub fn next<R: Read>(
        &mut self,
        input: &mut R,
        line: &mut ArrayVec<u8, LONGEST_LINE>,
    ) -> Result<bool, IncomingFault>
        ensures whole { OnOk result (IsWhole line.new.items) }
        ensures next { IsNext (to_come self.old (R.remaining input.old)) (to_come self.new (R.remaining input.new)) line.new.items result }
    {
        line.clear();
        'pieces: loop {
            let Ok(_) = self.ready(input) else {
                return Err(IncomingFault::Read);
            };
            match self.piece(line) {
                LinePiece::Nothing => return Ok(!line.is_empty()),
                LinePiece::Part => {}
                LinePiece::End => return Ok(true),
                LinePiece::Over => return Err(IncomingFault::TooLong),
            }
        }
    }
}
