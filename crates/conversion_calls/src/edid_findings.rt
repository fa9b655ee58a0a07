//! What is wrong with an EDID, as lines.
ghost use Rattle.std.specs.Prelude.{◌≡◌, ◌↔◌, false, IsTrue};
ghost use Rattle.conversion_calls.specs.EdidFindings.{FindingAnswers, is_finding_cut};

use crate::edid_text::EdidToTextError;
use arrayvec::ArrayVec;
use edid_core::read_parts;
use rules_check::{Origin, check, has_failure, write_findings};
use text_core::Sink;

/// Writes a line for each rule that the EDID that some bytes spell breaks: those of the EDID in their order, and then,
/// timing by timing, those of detailed timings. Returns whether one of them is a failure, and not a warning alone.
///
/// # Errors
///
/// `Edid` with the first reason why the bytes spell none: then nothing was written. `Write` where the sink takes no
/// more: then the front of the lines was written, as long as it reports.
// An EDID and what is found are large: the frame of the caller is kept free of them.
#[inline(never)]
pub fn edid_to_findings<S: Sink>(bytes: &[u8], out: &mut S) -> Result<bool, EdidToTextError>
    ensures answers { FindingAnswers (S.contents out.old) (S.contents out.new) (S.is_stuck out.old) (S.is_stuck out.new) bytes.now result }
    ensures write { S.is_stuck out.old ≡ false → (IsTrue (is_finding_cut result) ↔ IsTrue (S.is_stuck out.new)) }
{
    let mut extensions = ArrayVec::new();
    match &read_parts(bytes, &mut extensions) {
        Err(cause) => Err(EdidToTextError::Edid(*cause)),
        Ok(base) => {
            let found = check(Origin::Display, base, extensions.as_slice());
            match write_findings(out, found.as_slice()) {
                Ok(()) => Ok(has_failure(found.as_slice())),
                Err(fault) => Err(EdidToTextError::Write(fault.count)),
            }
        }
    }
}
