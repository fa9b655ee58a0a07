//! EDIDs: what is wrong with them, their texts, what a port passes on, and what is read of them over DDC.
ghost use Rattle.std.specs.Prelude.{◌≡◌, ◌≢◌, ◌≤◌, ◌<◌, ◌+◌, ◌++◌, ◌/◌, ◌%◌, Some, None, true, false, length, take, drop};
ghost use Rattle.edid_base.specs.Base.{base_bytes};
ghost use Rattle.edid_core.specs.Address.{edid_address, first_address};
ghost use Rattle.edid_core.specs.Bytes.{edid_bytes, has_length};
ghost use Rattle.edid_core.specs.Passing.{passed_extensions, passed_on_bytes};
ghost use Rattle.edid_core.specs.declared.edid.Edid.{Edid as EdidValue};
ghost use Rattle.text_core.specs.declared.phys.Phys.{Phys as PhysValue};
ghost use Rattle.edid_ddc.specs.Bus.{has_segment};
ghost use Rattle.edid_texts.specs.Lines.{edid_text, part_text};
ghost use Rattle.library_answers.specs.Codes.{number_of};
ghost use Rattle.library_answers.specs.Room.{IsPut, IsRefused};
ghost use Rattle.library_answers.specs.declared.code.Code.TheVariants.{Absent, EdidLength, EdidNoHdmiBlock};
ghost use Rattle.library_wire.specs.Edids.{IsEdidFound, IsEdidRefused, IsReadOver, audio_of, phys_of};

use arrayvec::ArrayVec;
use edid_base::Base;
use edid_core::{AudioFrom, read_parts, write_passed_parts};
use edid_cta::Ext;
use edid_ddc::Ddc;
use edid_texts::line_at;
use library_answers::{Answer, Code, edid_code, put, refused};
use text_core::Phys;

/// Why bytes are no EDID, as the number of a `Code`: 0 where they are one, of one block to four.
pub fn edid_fault(bytes: &[u8]) -> u32
    ensures found { result ≡ 0 → (e : EdidValue) × (edid_bytes e ≡ bytes.now) }
    ensures only { (e : EdidValue) → bytes.now ≡ edid_bytes e → result ≡ 0 }
    ensures refused { result ≢ 0 → IsEdidFound bytes.now result }
{
    let mut extensions = ArrayVec::new();
    match read_parts(bytes, &mut extensions) {
        Ok(_base) => Code::Done.number(),
        Err(error) => edid_code(error).number(),
    }
}

// How long the text is of a base block and the extensions after it.
fn text_length(base: &Base, extensions: &[Ext]) -> usize
    requires { length extensions.now ≤ 3 }
    ensures { result ≡ length (part_text base.now extensions.now) }
{
    let mut length = 0;
    let mut number = 0;
    'lines: while let Some(line) = line_at(base, extensions, number) {
        length += line.write().len();
        number += 1;
    }
    length
}

// Puts a text into a room at a place.
fn put_at(text: &[u8], room: &mut [u8], at: usize)
    requires { at + length text.now ≤ length room.old }
    ensures { room.new ≡ take at room.old ++ (text.now ++ drop (at + length text.now) room.old) }
{
    room[at..at + text.len()].copy_from_slice(text);
}

// Puts that text at the front of a room that is long enough.
fn put_lines(base: &Base, extensions: &[Ext], room: &mut [u8])
    requires few { length extensions.now ≤ 3 }
    requires fits { length (part_text base.now extensions.now) ≤ length room.old }
    ensures { room.new ≡ part_text base.now extensions.now ++ drop (length (part_text base.now extensions.now)) room.old }
{
    let mut length = 0;
    let mut number = 0;
    'lines: while let Some(line) = line_at(base, extensions, number) {
        let text = line.write();
        put_at(text.as_slice(), room, length);
        length += text.len();
        number += 1;
    }
}

// Puts it where it fits.
fn put_text(base: &Base, extensions: &[Ext], room: &mut [u8]) -> Answer
    requires { length extensions.now ≤ 3 }
    ensures { IsPut (part_text base.now extensions.now) room.old room.new result }
{
    let length = text_length(base, extensions);
    if length > room.len() {
        return Answer {
            code: Code::Room.number(),
            line: 0,
            length,
        };
    }
    put_lines(base, extensions, room);
    Answer {
        code: Code::Done.number(),
        line: 0,
        length,
    }
}

/// Puts the text of an EDID into the room, a line for each part of it: at most 119,400 bytes, mostly some 2,000.
///
/// Refused with the first reason why the bytes are no EDID.
pub fn put_edid_text(bytes: &[u8], room: &mut [u8]) -> Answer
    ensures put { (e : EdidValue) → bytes.now ≡ edid_bytes e → IsPut (edid_text e) room.old room.new result }
    ensures found { result.code ≤ 1 → (e : EdidValue) × (edid_bytes e ≡ bytes.now) }
    ensures refused { 1 < result.code → IsEdidRefused bytes.now room.old room.new result }
{
    let mut extensions = ArrayVec::new();
    match read_parts(bytes, &mut extensions) {
        Ok(base) => put_text(&base, extensions.as_slice(), room),
        Err(error) => refused(edid_code(error), 0),
    }
}

fn phys_of(address: u16) -> Phys
    ensures { result ≡ phys_of address }
{
    Phys {
        high: (address / 256) as u8,
        low: (address % 256) as u8,
    }
}

fn audio_of(from_amplifier: bool) -> AudioFrom
    ensures { result ≡ audio_of from_amplifier }
{
    if from_amplifier {
        AudioFrom::Amplifier
    } else {
        AudioFrom::Television
    }
}

// Puts what a port passes on of the EDID with this base block and these extensions, where it has an HDMI block.
fn put_passed(
    base: &Base,
    extensions: &[Ext],
    audio: AudioFrom,
    address: Phys,
    room: &mut [u8],
) -> Answer
    requires { length extensions.now ≤ 3 }
    ensures put { first_address extensions.now ≢ None → IsPut (base_bytes base.now ++ passed_extensions audio address extensions.now) room.old room.new result }
    ensures absent { first_address extensions.now ≡ None → IsRefused EdidNoHdmiBlock 0 room.old room.new result }
{
    match write_passed_parts(base, extensions, audio, address) {
        Ok(passed) => put(passed.as_slice(), room),
        Err(_) => refused(Code::EdidNoHdmiBlock, 0),
    }
}

/// Puts the EDID into the room that a port with this physical address passes on of one: as 0x1200 for 1.2.0.0, with the
/// audio of an amplifier where one is on the way (HDMI 1.4, section 8.7.3). It is as long as the one that is read.
///
/// Refused with the first reason why the bytes are no EDID, or then where it has no HDMI block.
pub fn put_edid_port(bytes: &[u8], address: u16, from_amplifier: bool, room: &mut [u8]) -> Answer
    ensures put { (e : EdidValue) → (a : PhysValue) → bytes.now ≡ edid_bytes e → edid_address e ≡ Some a
        → IsPut (passed_on_bytes (audio_of from_amplifier) (phys_of address) e) room.old room.new result }
    ensures absent { (e : EdidValue) → bytes.now ≡ edid_bytes e → edid_address e ≡ None → IsRefused EdidNoHdmiBlock 0 room.old room.new result }
    ensures found { result.code ≤ 1 → (e : EdidValue) × (edid_bytes e ≡ bytes.now) }
    ensures refused { 1 < result.code → result.code ≢ number_of EdidNoHdmiBlock → IsEdidRefused bytes.now room.old room.new result }
{
    let mut extensions = ArrayVec::new();
    let audio = audio_of(from_amplifier);
    let phys = phys_of(address);
    match read_parts(bytes, &mut extensions) {
        Ok(base) => put_passed(&base, extensions.as_slice(), audio, phys, room),
        Err(error) => refused(edid_code(error), 0),
    }
}

// Reads so many bytes as the room has of a segment that is acknowledged.
fn read_into(mut ddc: Ddc, offset: u8, room: &mut [u8]) -> Answer
    ensures { IsReadOver ddc.bytes ddc.segment offset room.old room.new result }
{
    ddc.offset(offset);
    ddc.read(room);
    Answer {
        code: Code::Done.number(),
        line: 0,
        length: room.len(),
    }
}

/// Fills the room with what a reader of these bytes reads over DDC, from an offset of a segment of 256 bytes on. After offset
/// 255 comes offset 0 of the same segment; what is missing in a segment with a block is FF (E-DDC, section 2.2). What the bytes
/// spell does not count.
///
/// Refused where they are not one block to four, and then where the segment has no block, and is not acknowledged.
pub fn read_edid(bytes: &[u8], segment: u8, offset: u8, room: &mut [u8]) -> Answer
    ensures read { has_length bytes.now ≡ true → has_segment bytes.now segment ≡ true → IsReadOver bytes.now segment offset room.old room.new result }
    ensures unacknowledged { has_length bytes.now ≡ true → has_segment bytes.now segment ≡ false → IsRefused Absent 0 room.old room.new result }
    ensures length { has_length bytes.now ≡ false → IsRefused EdidLength 0 room.old room.new result }
{
    let Ok(mut ddc) = Ddc::over(bytes) else {
        return refused(Code::EdidLength, 0);
    };
    match ddc.segment(segment) {
        Ok(()) => read_into(ddc, offset, room),
        Err(_) => refused(Code::Absent, 0),
    }
}
