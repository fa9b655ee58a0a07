//! EDIDs of their texts, what is wrong with them, and what they mean.
ghost use Rattle.std.specs.Prelude.{◌≤◌, ◌<◌};
ghost use Rattle.library_edid.specs.Edids.{AreFindingsPut, AreFindingsRefused, IsEdidPut, IsMeaningPut, IsMeaningRefused, IsTextRefused};

use library_answers::Answer;
use library_edid::{put_edid_bytes, put_edid_findings, put_edid_meaning};
use std::alloc::Global;

/// Puts the bytes of the EDID into the room that has exactly this text.
///
/// Refused with the first line that no EDID's text has there, or where memory ran out.
#[unsafe(no_mangle)]
pub extern "C" fn hdminet_edid_bytes(alloc: Global, text: &[u8], room: &mut [u8]) -> Answer
    ensures done { result.code ≤ 1 → IsEdidPut text.now room.old room.new result }
    ensures refused { 1 < result.code → IsTextRefused text.now room.old room.new result }
{
    put_edid_bytes(alloc, text, room)
}

/// Puts a line into the room for each rule that the EDID of a display breaks, and says whether one of them is a failure and no
/// warning alone. That is said also where the room is too small.
///
/// Refused with the first reason why the bytes are no EDID, or where memory ran out.
#[unsafe(no_mangle)]
pub extern "C" fn hdminet_edid_check(
    alloc: Global,
    bytes: &[u8],
    room: &mut [u8],
    fails: &mut bool,
) -> Answer
    ensures done { result.code ≤ 1 → AreFindingsPut bytes.now room.old room.new fails.new result }
    ensures refused { 1 < result.code → AreFindingsRefused bytes.now room.old room.new fails.old fails.new result }
{
    put_edid_findings(alloc, bytes, room, fails)
}

/// Puts the text of an EDID into the room, and below each line, after two spaces, what it means.
///
/// Refused as `hdminet_edid_check`.
#[unsafe(no_mangle)]
pub extern "C" fn hdminet_edid_meaning(alloc: Global, bytes: &[u8], room: &mut [u8]) -> Answer
    ensures done { result.code ≤ 1 → IsMeaningPut bytes.now room.old room.new result }
    ensures refused { 1 < result.code → IsMeaningRefused bytes.now room.old room.new result }
{
    put_edid_meaning(alloc, bytes, room)
}
