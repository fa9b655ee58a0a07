//! Where a text is at fault, and why.
ghost use Rattle.std.specs.Prelude.{◌≡◌};
ghost use Rattle.text_core.specs.At.{at_line, at_word};

use std::fmt::{Debug, Display};
use thiserror::Error;

/// Why a line is refused, and the word at fault, counted from 0; where a word is missing, the number that it would have.
#[derive(Clone, Copy, Debug, Drop, PartialEq, Eq)]
pub struct AtWord<C> {
    pub cause: C,
    pub word: usize,
}

impl<C> AtWord<C> {
    /// The fault of the line of this number, counted from 1.
    pub fn on_line(self, line: u64) -> At<C>
        ensures { result ≡ at_line line self }
    {
        At {
            line,
            cause: self.cause,
            word: self.word,
        }
    }
}

/// The first line of a text at fault, counted from 1, why, and the word at fault, counted from 0; where a word is missing, the
/// number that it would have.
#[derive(Clone, Copy, Debug, Drop, PartialEq, Eq, Error)]
#[error_bound(C: Debug + Display)]
#[error("line {line}: {cause}")]
pub struct At<C> {
    pub line: u64,
    pub cause: C,
    pub word: usize,
}

/// A word at fault.
pub fn at_word<C>(word: usize, cause: C) -> AtWord<C>
    ensures { result ≡ at_word word cause }
{
    AtWord { cause, word }
}
