//! From frame texts to frames.
ghost use Rattle.std.specs.Prelude.{◌≡◌, ℕ, List, IfOk, IfErr, IsTrue};
ghost use Rattle.message_text.specs.Causes.{frame_word};
ghost use Rattle.message_text.specs.FrameReading.{is_frame};
ghost use Rattle.message_text.specs.FrameText.{frame_text};
ghost use Rattle.message_text.specs.Refusals.{IsRefused};

use crate::reading::{candidate, is_same};
use crate::refusal::cause;
use crate::spelling::frame_text;
use line_frames::Frame;
use std::fmt::{self, Write};

/// Why a text is no frame's.
#[derive(Clone, Copy, Debug, Drop, PartialEq, Eq)]
pub enum AssembleError {
    /// What follows the addresses is no opcode's name.
    Name,
    /// The operands are no words of the opcode's row.
    Operand,
    /// The operands are not as many as the row has.
    Count,
    /// The text does not begin with two addresses.
    Address,
    /// There are more than fourteen raw operands.
    TooLong,
}

impl fmt::Display for AssembleError {
    ghost use Rattle.std.specs.Prelude.{Some};
    ghost use Rattle.message_text.specs.Causes.{assemble_cause};

    ghost output = { λ e. Some (assemble_cause e) };

    fn fmt<W: Write>(&self, f: &mut fmt::Formatter<W>) -> fmt::Result {
        f.write_str(match self {
            AssembleError::Name => "name",
            AssembleError::Operand => "operand",
            AssembleError::Count => "count",
            AssembleError::Address => "address",
            AssembleError::TooLong => "too-long",
        })
    }
}

impl std::error::Error for AssembleError {}

/// The word of a text from which on it is no frame's, counted from 0: its addresses, its name, or what stands after.
pub fn frame_word(cause: AssembleError) -> usize
    ensures { result ≡ frame_word cause }
{
    match cause {
        AssembleError::Address => 0,
        AssembleError::Name => 1,
        AssembleError::Operand | AssembleError::Count | AssembleError::TooLong => 2,
    }
}

/// The frame of a text: the one whose text it is.
///
/// # Errors
///
/// The first that applies of `Address`, `Name`, `TooLong`, `Count` and `Operand`, where the text is no frame's.
pub fn assemble(text: &[u8]) -> Result<Frame, AssembleError>
    ensures ok { IfOk result (λ frame. frame_text frame ≡ text.now) }
    ensures only { (frame : List ℕ) → IsTrue (is_frame frame) → text.now ≡ frame_text frame → result ≡ Ok frame }
    ensures refused { IfErr result (λ e. IsRefused text.now e) }
{
    match candidate(text) {
        Some(frame) if is_same(&frame_text(&frame), text) => Ok(frame),
        _ => Err(cause(text)),
    }
}
