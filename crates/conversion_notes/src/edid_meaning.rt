//! EDIDs from bytes to a text with what it means.
ghost use Rattle.std.specs.Prelude.{◌≡◌, ◌↔◌, false, IsTrue};
ghost use Rattle.conversion_calls.specs.EdidText.{is_text_cut};
ghost use Rattle.conversion_notes.specs.EdidMeaning.{MeaningAnswers};

use crate::writing::write_meaning;
use arrayvec::ArrayVec;
use conversion_calls::EdidToTextError;
use edid_core::read_parts;
use text_core::Sink;

/// Writes the text of the EDID that some bytes spell, and below each line, after two spaces, what it means.
///
/// # Errors
///
/// `Edid` with the first reason why they spell none: then nothing was written. `Write` where the sink takes no more:
/// then the front of the text was written, as long as it reports.
// An EDID and its text are large: the frame of the caller is kept free of them.
#[inline(never)]
pub fn edid_to_meaning<S: Sink>(bytes: &[u8], out: &mut S) -> Result<(), EdidToTextError>
    ensures answers { MeaningAnswers (S.contents out.old) (S.contents out.new) (S.is_stuck out.old) (S.is_stuck out.new) bytes.now result }
    ensures write { S.is_stuck out.old ≡ false → (IsTrue (is_text_cut result) ↔ IsTrue (S.is_stuck out.new)) }
{
    // The parts stay where they are read, since an EDID is large.
    let mut extensions = ArrayVec::new();
    match &read_parts(bytes, &mut extensions) {
        Err(cause) => Err(EdidToTextError::Edid(*cause)),
        Ok(base) => match write_meaning(base, &extensions, out) {
            Ok(()) => Ok(()),
            Err(fault) => Err(EdidToTextError::Write(fault.count)),
        },
    }
}
