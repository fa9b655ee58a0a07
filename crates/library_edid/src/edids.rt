//! EDIDs of their texts, what is wrong with them, and what they mean.
ghost use Rattle.std.specs.Prelude.{◌≡◌, ◌≤◌, ◌<◌};
ghost use Rattle.library_edid.specs.Edids.{AreFindingsPut, AreFindingsRefused, IsEdidPut, IsMeaningPut, IsMeaningRefused, IsTextRefused, edid_answer, text_answer};

use conversion_calls::{EdidForm, EdidToTextError, TextToHexError, edid_to_findings, text_to_edid};
use conversion_notes::edid_to_meaning;
use library_answers::{Answer, Code, edid_code, put, refused};
use std::alloc::Global;
use text_core::Held;

/// The answer where a text is no EDID's, for this cause. What is written stands in memory, so that only want of it ends a write.
pub fn text_refused(error: &TextToHexError) -> Answer
    ensures { result ≡ text_answer error.now }
{
    match error {
        TextToHexError::Syntax(line) => refused(Code::EdidTextSyntax, *line as u64),
        TextToHexError::Field { line, .. } => refused(Code::EdidTextField, *line as u64),
        TextToHexError::Write(_) | TextToHexError::Memory => refused(Code::Memory, 0),
    }
}

/// The answer where bytes are no EDID, for this cause. What is written stands in memory, so that only want of it ends a write.
pub fn edid_refused(error: &EdidToTextError) -> Answer
    ensures { result ≡ edid_answer error.now }
{
    match error {
        EdidToTextError::Edid(cause) => refused(edid_code(*cause), 0),
        EdidToTextError::Write(_) => refused(Code::Memory, 0),
    }
}

/// Puts the bytes of the EDID into the room that has exactly this text.
///
/// Refused with the first line that no EDID's text has there, or where memory ran out.
pub fn put_edid_bytes(alloc: Global, text: &[u8], room: &mut [u8]) -> Answer
    ensures done { result.code ≤ 1 → IsEdidPut text.now room.old room.new result }
    ensures refused { 1 < result.code → IsTextRefused text.now room.old room.new result }
{
    let mut edid = Held::new(alloc);
    match text_to_edid(alloc, text, EdidForm::Bytes, &mut edid) {
        Ok(()) => put(edid.bytes(), room),
        Err(error) => text_refused(&error),
    }
}

/// Puts a line into the room for each rule that the EDID of a display breaks, and says whether one of them is a failure and no
/// warning alone. That is said also where the room is too small.
///
/// Refused with the first reason why the bytes are no EDID, or where memory ran out.
pub fn put_edid_findings(alloc: Global, bytes: &[u8], room: &mut [u8], fails: &mut bool) -> Answer
    ensures done { result.code ≤ 1 → AreFindingsPut bytes.now room.old room.new fails.new result }
    ensures refused { 1 < result.code → AreFindingsRefused bytes.now room.old room.new fails.old fails.new result }
{
    let mut lines = Held::new(alloc);
    match edid_to_findings(bytes, &mut lines) {
        Ok(some) => {
            *fails = some;
            put(lines.bytes(), room)
        }
        Err(error) => edid_refused(&error),
    }
}

/// Puts the text of an EDID into the room, and below each line, after two spaces, what it means.
///
/// Refused as `put_edid_findings`.
pub fn put_edid_meaning(alloc: Global, bytes: &[u8], room: &mut [u8]) -> Answer
    ensures done { result.code ≤ 1 → IsMeaningPut bytes.now room.old room.new result }
    ensures refused { 1 < result.code → IsMeaningRefused bytes.now room.old room.new result }
{
    let mut text = Held::new(alloc);
    match edid_to_meaning(bytes, &mut text) {
        Ok(()) => put(text.bytes(), room),
        Err(error) => edid_refused(&error),
    }
}
