//! Writing what an ELD says.
ghost use Rattle.std.specs.Prelude.{◌≡◌};
ghost use Rattle.edid_eld.specs.Eld.{parts_of};
ghost use Rattle.meaning_eld.specs.Records.{eld_text};
ghost use Rattle.meaning_eld.specs.Written.{AreFieldsWritten, hex_line};
ghost use Rattle.text_core.specs.Cut.{WrittenText};

use crate::records::add_eld;
use edid_eld::{Eld, EldError, read_eld};
use record_core::Form;
use text_core::{Counted, Piece, Sink, WriteFault};
use thiserror::Error;

/// Why the fields of an ELD were not written.
#[derive(Clone, Copy, Debug, PartialEq, Eq, Error)]
pub enum EldFault {
    /// The bytes are no ELD. Nothing was written.
    #[error("{0}")]
    Eld(EldError),
    /// A `put` took none. The front of the records was written, as long as the fault's count says.
    #[error("{0}")]
    Write(WriteFault),
}

/// Writes the records of an ELD: its fields, its speakers, and each short audio descriptor, a line each or its object of JSON.
///
/// # Errors
///
/// A `put` took none. The front of the records was written, as long as the fault's count says.
pub fn write_eld<S: Sink>(eld: &Eld, form: Form, out: &mut S) -> Result<u128, WriteFault>
    ensures { WrittenText (S.contents out.old) (S.contents out.new) (S.is_stuck out.old) (S.is_stuck out.new) (eld_text form (parts_of eld.now)) result }
{
    let mut text = Counted::new(out);
    add_eld(&mut text, form, eld);
    let written = text.written();
    // No effect at run time. The proof reads what `out` holds from the sink that comes back.
    let _below = text.into_sink();
    written
}

/// Writes bytes as one line of hex, two digits a byte.
///
/// # Errors
///
/// A `put` took none. The front of the line was written, as long as the fault's count says.
pub fn write_eld_hex<S: Sink>(bytes: &[u8], out: &mut S) -> Result<u128, WriteFault>
    ensures { WrittenText (S.contents out.old) (S.contents out.new) (S.is_stuck out.old) (S.is_stuck out.new) (hex_line bytes.now) result }
{
    let mut text = Counted::new(out);
    text.add_line(&[Piece::Hex(bytes), Piece::Text("\n")]);
    let written = text.written();
    // No effect at run time. The proof reads what `out` holds from the sink that comes back.
    let _below = text.into_sink();
    written
}

/// Writes the records of the ELD that bytes begin with.
///
/// # Errors
///
/// The bytes are no ELD, and nothing was written; or a `put` took none.
pub fn write_eld_fields<S: Sink>(bytes: &[u8], form: Form, out: &mut S) -> Result<u128, EldFault>
    ensures { AreFieldsWritten (S.contents out.old) (S.contents out.new) (S.is_stuck out.old) (S.is_stuck out.new) form bytes.now result }
{
    match read_eld(bytes) {
        Err(error) => Err(EldFault::Eld(error)),
        Ok(eld) => match write_eld(&eld, form, out) {
            Ok(count) => Ok(count),
            Err(fault) => Err(EldFault::Write(fault)),
        },
    }
}
