//! Why a text is not laid.

use message_text::AssembleError;
use std::fmt::{self, Write};
use text_core::{At, WriteFault};
use thiserror::Error;

/// Why a line is not laid.
#[derive(Clone, Copy, Debug, Drop, PartialEq, Eq)]
pub enum LayCause {
    /// A word is missing.
    Word,
    /// An ill-formed number, a bit that is neither 0 nor 1, or an instant past 1,000,000,000,000.
    Number,
    /// A low of 0 or of more than 10,000,000 microseconds, a total that is not more than its low or is more than 10,000,000, a
    /// glitch that begins more than 10,000,000 after its fall, or one that joins lows to more than 10,000,000.
    Width,
    /// No text of a frame, and why.
    Frame(AssembleError),
    /// Blocks that are not 1 to 64 bytes in lower-case hex.
    Blocks,
    /// The frame has no such slot, or no such block.
    Slot,
    /// A frame that does not begin after the end of the last pull above.
    Order,
    /// A pull would begin after 1,000,000,000,000.
    Late,
}

impl fmt::Display for LayCause {
    ghost use Rattle.std.specs.Prelude.{Some};
    ghost use Rattle.message_lay.specs.Causes.{lay_cause};

    ghost output = { λ cause. Some (lay_cause cause) };

    fn fmt<W: Write>(&self, f: &mut fmt::Formatter<W>) -> fmt::Result {
        match self {
            LayCause::Word => f.write_str("word"),
            LayCause::Number => f.write_str("number"),
            LayCause::Width => f.write_str("width"),
            LayCause::Frame(cause) => write!(f, "frame {cause}"),
            LayCause::Blocks => f.write_str("blocks"),
            LayCause::Slot => f.write_str("slot"),
            LayCause::Order => f.write_str("order"),
            LayCause::Late => f.write_str("late"),
        }
    }
}

/// Why pulls are not written.
#[derive(Clone, Copy, Debug, Drop, PartialEq, Eq, Error)]
pub enum LayError {
    /// A line is not laid. Nothing was written.
    #[error(transparent)]
    Line(At<LayCause>),
    /// The sink took no more than the first bytes.
    #[error(transparent)]
    Write(WriteFault),
}
