//! EDIDs: what is wrong with them, their texts, what a port passes on, and what is read of them over DDC.
ghost use Rattle.std.specs.Prelude.{◌≡◌, ◌≢◌, ◌≤◌, ◌<◌, Some, None, true, false};
ghost use Rattle.edid_core.specs.Address.{edid_address};
ghost use Rattle.edid_core.specs.Bytes.{edid_bytes, has_length};
ghost use Rattle.edid_core.specs.Passing.{passed_on_bytes};
ghost use Rattle.edid_core.specs.declared.edid.Edid.{Edid as EdidValue};
ghost use Rattle.text_core.specs.declared.phys.Phys.{Phys as PhysValue};
ghost use Rattle.edid_ddc.specs.Bus.{has_segment};
ghost use Rattle.edid_texts.specs.Lines.{edid_text};
ghost use Rattle.library_answers.specs.Codes.{number_of};
ghost use Rattle.library_answers.specs.Room.{IsPut, IsRefused};
ghost use Rattle.library_answers.specs.declared.code.Code.TheVariants.{Absent, EdidLength, EdidNoHdmiBlock};
ghost use Rattle.library_wire.specs.Edids.{IsEdidFound, IsEdidRefused, IsReadOver, audio_of, phys_of};

use library_answers::Answer;
use library_wire::{edid_fault, put_edid_port, put_edid_text, read_edid};

/// Why bytes are no EDID, as the number of a `Code`: 0 where they are one, of one block to four.
#[unsafe(no_mangle)]
pub extern "C" fn hdminet_edid_fault(bytes: &[u8]) -> u32
    ensures found { result ≡ 0 → (e : EdidValue) × (edid_bytes e ≡ bytes.now) }
    ensures only { (e : EdidValue) → bytes.now ≡ edid_bytes e → result ≡ 0 }
    ensures refused { result ≢ 0 → IsEdidFound bytes.now result }
{
    edid_fault(bytes)
}

/// Puts the text of an EDID into the room, a line for each part of it: at most 119,400 bytes, mostly some 2,000.
///
/// Refused with the first reason why the bytes are no EDID.
#[unsafe(no_mangle)]
pub extern "C" fn hdminet_edid_text(bytes: &[u8], room: &mut [u8]) -> Answer
    ensures put { (e : EdidValue) → bytes.now ≡ edid_bytes e → IsPut (edid_text e) room.old room.new result }
    ensures found { result.code ≤ 1 → (e : EdidValue) × (edid_bytes e ≡ bytes.now) }
    ensures refused { 1 < result.code → IsEdidRefused bytes.now room.old room.new result }
{
    put_edid_text(bytes, room)
}

/// Puts the EDID into the room that a port with this physical address passes on of one: as 0x1200 for 1.2.0.0, with the
/// audio of an amplifier where one is on the way (HDMI 1.4, section 8.7.3). It is as long as the one that is read.
///
/// Refused with the first reason why the bytes are no EDID, or then where it has no HDMI block.
#[unsafe(no_mangle)]
pub extern "C" fn hdminet_edid_port(
    bytes: &[u8],
    address: u16,
    from_amplifier: bool,
    room: &mut [u8],
) -> Answer
    ensures put { (e : EdidValue) → (a : PhysValue) → bytes.now ≡ edid_bytes e → edid_address e ≡ Some a
        → IsPut (passed_on_bytes (audio_of from_amplifier) (phys_of address) e) room.old room.new result }
    ensures absent { (e : EdidValue) → bytes.now ≡ edid_bytes e → edid_address e ≡ None → IsRefused EdidNoHdmiBlock 0 room.old room.new result }
    ensures found { result.code ≤ 1 → (e : EdidValue) × (edid_bytes e ≡ bytes.now) }
    ensures refused { 1 < result.code → result.code ≢ number_of EdidNoHdmiBlock → IsEdidRefused bytes.now room.old room.new result }
{
    put_edid_port(bytes, address, from_amplifier, room)
}

/// Fills the room with what a reader of these bytes reads over DDC, from an offset of a segment of 256 bytes on. After offset
/// 255 comes offset 0 of the same segment; what is missing in a segment with a block is FF (E-DDC, section 2.2). What the bytes
/// spell does not count.
///
/// Refused where they are not one block to four, and then where the segment has no block, and is not acknowledged.
#[unsafe(no_mangle)]
pub extern "C" fn hdminet_edid_read(
    bytes: &[u8],
    segment: u8,
    offset: u8,
    room: &mut [u8],
) -> Answer
    ensures read { has_length bytes.now ≡ true → has_segment bytes.now segment ≡ true → IsReadOver bytes.now segment offset room.old room.new result }
    ensures unacknowledged { has_length bytes.now ≡ true → has_segment bytes.now segment ≡ false → IsRefused Absent 0 room.old room.new result }
    ensures length { has_length bytes.now ≡ false → IsRefused EdidLength 0 room.old room.new result }
{
    read_edid(bytes, segment, offset, room)
}
