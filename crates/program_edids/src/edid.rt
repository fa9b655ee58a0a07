//! What is done with an EDID.
ghost use Rattle.std.specs.Prelude.{◌≡◌, ◌≤◌, ℕ, List, OnOk, IfOk, length};
ghost use Rattle.edid_core.specs.Bytes.{edid_bytes};
ghost use Rattle.edid_core.specs.declared.edid.Edid.{Edid as EdidValue};
ghost use Rattle.program_edids.specs.Edids.{IsGiven, IsRecounted, IsSpokenIn, Made, Shows, ShowsAs, ShowsCounted, ShowsPassed, at, form_of, in_port, origin_of};
ghost use Rattle.program_edids.specs.Told.{told};
ghost use Rattle.std.specs.Io.KnownBytes.{Appends};
ghost use Rattle.text_core.specs.Written.{WrittenAll};
ghost use Rattle.conversion_calls.specs.Passing.{IsPassedOn};
ghost use Rattle.edid_ddc.specs.Readout.{readout_text};
ghost use Rattle.conversion_calls.specs.Form.{hex_line};

use crate::edid_described::{write_own_eld, write_own_fields, write_own_room};
use crate::edid_fault::EdidFault;
use crate::edid_given::{given_of, kept_count};
use crate::edid_judged::{write_counted_rules, write_own_rules};
use crate::edid_told::told;
use arrayvec::ArrayVec;
use cli_choice::{EdidReading, EdidShape, EldShape, Recipient, Sound, Source, View};
use conversion_calls::{
    Destination as PassedTo, EdidForm, Passing, edid_to_text, write_address, write_c,
    write_passed_on, write_xml,
};
use conversion_notes::edid_to_meaning;
use edid_as_source::{as_source, counted, mended, with_count};
use edid_core::{AudioFrom, EdidError, read_parts};
use edid_ddc::{Ddc, DdcError, write_readout};
use edid_merge::with_speakers;
use record_core::Form;
use rules_check::Origin;
use std::alloc::{AllocError, Global};
use text_core::{Held, Phys, Piece, Sink, WriteFault, byte_at, put_all, write_line};

/// The fewest and the most bytes of an EDID.
const LEAST: usize = 128;

const MOST: usize = 512;

/// Where a base block counts its extensions.
const COUNT: usize = 126;

fn form_of(shape: EdidShape) -> EdidForm
    ensures { result ≡ form_of shape }
{
    match shape {
        EdidShape::Text => EdidForm::Text,
        EdidShape::Hex => EdidForm::Hex,
        EdidShape::Bytes => EdidForm::Bytes,
        EdidShape::C => EdidForm::C,
        EdidShape::Xml => EdidForm::Xml,
    }
}

// What is passed on to an address.
fn at(address: Phys) -> Passing
    ensures { result ≡ at address }
{
    Passing {
        place: PassedTo::Address(address),
        audio: AudioFrom::Television,
    }
}

// What is passed on in a port.
fn in_port(port: u8, amplified: bool) -> Passing
    ensures { result ≡ in_port port amplified }
{
    let audio = if amplified {
        AudioFrom::Amplifier
    } else {
        AudioFrom::Television
    };
    Passing {
        place: PassedTo::Port(port),
        audio,
    }
}

// That some bytes spell an EDID. It is read in parts, since an EDID is large.
#[inline(never)]
fn is_edid(bytes: &[u8]) -> Result<(), EdidFault>
    ensures { OnOk result ((e : EdidValue) × (edid_bytes e ≡ bytes.now)) }
{
    let mut extensions = ArrayVec::new();
    match read_parts(bytes, &mut extensions) {
        Ok(_base) => Ok(()),
        Err(cause) => Err(EdidFault::Edid(cause)),
    }
}

// The bytes of an EDID, and the memory for what is made of them.
#[derive(Clone, Copy)]
struct Blocks<'a> {
    alloc: Global,
    bytes: &'a [u8],
}

/// Writes bytes as one line of hex.
pub(crate) fn write_hex_line<S: Sink>(bytes: &[u8], out: &mut S) -> Result<(), WriteFault>
    ensures { WrittenAll (S.contents out.old) (S.contents out.new) (S.is_stuck out.old) (S.is_stuck out.new) (hex_line bytes.now) result }
{
    match write_line(out, &[Piece::Hex(bytes), Piece::Text("\n")]) {
        Ok(_) => Ok(()),
        Err(fault) => Err(fault),
    }
}

fn write_as_text<W: Sink>(bytes: &[u8], out: &mut W) -> Result<(), EdidFault>
    ensures { OnOk result (Shows (View.Whole Recipient.Own EdidShape.Text) bytes.now (W.contents out.old) (W.contents out.new)) }
{
    Ok(edid_to_text(bytes, out)?)
}

fn write_as_hex<W: Sink>(bytes: &[u8], out: &mut W) -> Result<(), EdidFault>
    ensures { OnOk result (Shows (View.Whole Recipient.Own EdidShape.Hex) bytes.now (W.contents out.old) (W.contents out.new)) }
{
    is_edid(bytes)?;
    Ok(write_hex_line(bytes, out)?)
}

fn write_as_bytes<W: Sink>(bytes: &[u8], out: &mut W) -> Result<(), EdidFault>
    ensures { OnOk result (Shows (View.Whole Recipient.Own EdidShape.Bytes) bytes.now (W.contents out.old) (W.contents out.new)) }
{
    is_edid(bytes)?;
    Ok(put_all(out, bytes)?)
}

// That some bytes are no more than those of an EDID.
fn are_few(bytes: &[u8]) -> Result<(), EdidFault>
    ensures { OnOk result (length bytes.now ≤ 512) }
{
    if bytes.len() > MOST {
        return Err(EdidFault::Edid(EdidError::Length));
    }
    Ok(())
}

fn write_as_c<W: Sink>(bytes: &[u8], out: &mut W) -> Result<(), EdidFault>
    ensures { OnOk result (Shows (View.Whole Recipient.Own EdidShape.C) bytes.now (W.contents out.old) (W.contents out.new)) }
{
    is_edid(bytes)?;
    are_few(bytes)?;
    Ok(write_c(bytes, out)?)
}

fn write_as_xml<W: Sink>(bytes: &[u8], out: &mut W) -> Result<(), EdidFault>
    ensures { OnOk result (Shows (View.Whole Recipient.Own EdidShape.Xml) bytes.now (W.contents out.old) (W.contents out.new)) }
{
    is_edid(bytes)?;
    are_few(bytes)?;
    Ok(write_xml(bytes, out)?)
}

// Writes the EDID of some bytes.
fn write_own<W: Sink>(bytes: &[u8], shape: EdidShape, out: &mut W) -> Result<(), EdidFault>
    ensures { OnOk result (Shows (View.Whole Recipient.Own shape) bytes.now (W.contents out.old) (W.contents out.new)) }
{
    match shape {
        EdidShape::Text => write_as_text(bytes, out),
        EdidShape::Hex => write_as_hex(bytes, out),
        EdidShape::Bytes => write_as_bytes(bytes, out),
        EdidShape::C => write_as_c(bytes, out),
        EdidShape::Xml => write_as_xml(bytes, out),
    }
}

// Writes what is passed on of the EDID of some bytes.
fn write_passed<W: Sink>(
    bytes: &[u8],
    passing: Passing,
    shape: EdidShape,
    out: &mut W,
) -> Result<(), EdidFault>
    ensures { OnOk result (ShowsPassed passing shape bytes.now (W.contents out.old) (W.contents out.new)) }
{
    Ok(write_passed_on(bytes, passing, form_of(shape), out)?)
}

// The bytes that are passed on of the EDID of some bytes in a port of an amplifier, with its speakers.
fn spoken_bytes(alloc: Global, port: u8, bytes: &[u8]) -> Result<Vec<u8>, EdidFault>
    ensures { IfOk result (λ spoken. IsSpokenIn port bytes.now spoken.items) }
{
    let passed = passed_bytes(alloc, in_port(port, true), bytes)?;
    match with_speakers(passed.as_slice()) {
        Ok(spoken) => Ok(spoken.as_slice().to_vec(alloc)?),
        Err(error) => Err(EdidFault::Speakers(error)),
    }
}

// The bytes that are passed on of the EDID of some bytes.
fn passed_bytes(alloc: Global, passing: Passing, bytes: &[u8]) -> Result<Vec<u8>, EdidFault>
    ensures { IfOk result (λ passed. (e : EdidValue) × IsPassedOn bytes.now passing e × (passed.items ≡ edid_bytes e)) }
{
    let mut held = Held::new(alloc);
    let done = write_passed(bytes, passing, EdidShape::Bytes, &mut held);
    if held.is_full() {
        return Err(EdidFault::Memory(AllocError));
    }
    done?;
    Ok(held.bytes().to_vec(alloc)?)
}

// The bytes that are passed on of the EDID of some bytes in a port.
fn given_in_port(alloc: Global, port: u8, sound: Sound, bytes: &[u8]) -> Result<Vec<u8>, EdidFault>
    ensures { IfOk result (λ given. IsGiven (Recipient.Port port sound) bytes.now given.items) }
{
    match sound {
        Sound::Kept => passed_bytes(alloc, in_port(port, false), bytes),
        Sound::Amplified => passed_bytes(alloc, in_port(port, true), bytes),
        Sound::Spoken => spoken_bytes(alloc, port, bytes),
    }
}

/// The bytes of the EDID of some bytes, for a device.
pub fn given_to(alloc: Global, place: Recipient, bytes: &[u8]) -> Result<Vec<u8>, EdidFault>
    ensures { IfOk result (λ given. IsGiven place bytes.now given.items) }
{
    match place {
        Recipient::Own => Ok(bytes.to_vec(alloc)?),
        Recipient::At(address) => passed_bytes(alloc, at(address), bytes),
        Recipient::Port { port, sound } => given_in_port(alloc, port, sound, bytes),
    }
}

// Why bytes can't be read over DDC: there is no whole number of blocks, or not so many.
fn unread(_error: DdcError) -> EdidFault {
    EdidFault::Edid(EdidError::Length)
}

// Writes what is read of some bytes over DDC.
fn write_reading<W: Sink>(bytes: &[u8], out: &mut W) -> Result<(), EdidFault>
    ensures { OnOk result ((text : List ℕ) × (text ≡ readout_text bytes.now) × Appends (W.contents out.old) (W.contents out.new) text) }
{
    match Ddc::over(bytes) {
        Ok(mut ddc) => match write_readout(&mut ddc, out) {
            Ok(_) => Ok(()),
            Err(fault) => Err(EdidFault::Write(fault)),
        },
        Err(error) => Err(unread(error)),
    }
}

/// The rules are those for the EDID of a display, or for one that is passed on.
pub fn origin_of(place: Recipient) -> Origin
    ensures { result ≡ origin_of place }
{
    match place {
        Recipient::Own => Origin::Display,
        Recipient::At(_) | Recipient::Port { .. } => Origin::Port,
    }
}

impl Blocks<'_> {
    // Writes what is passed on of it in a port of an amplifier, with its speakers.
    fn write_spoken<W: Sink>(self, port: u8, shape: EdidShape, out: &mut W) -> Result<(), EdidFault>
        ensures { OnOk result (Shows (View.Whole (Recipient.Port port Sound.Spoken) shape) self.entry.bytes.now (W.contents out.old) (W.contents out.new)) }
    {
        let given = spoken_bytes(self.alloc, port, self.bytes)?;
        write_own(given.as_slice(), shape, out)
    }

    // Writes what is passed on of it in a port.
    fn write_in_port<W: Sink>(
        self,
        port: u8,
        sound: Sound,
        shape: EdidShape,
        out: &mut W,
    ) -> Result<(), EdidFault>
        ensures { OnOk result (Shows (View.Whole (Recipient.Port port sound) shape) self.entry.bytes.now (W.contents out.old) (W.contents out.new)) }
    {
        match sound {
            Sound::Kept => write_passed(self.bytes, in_port(port, false), shape, out),
            Sound::Amplified => write_passed(self.bytes, in_port(port, true), shape, out),
            Sound::Spoken => self.write_spoken(port, shape, out),
        }
    }

    // Writes the EDID, for a device.
    fn write_whole<W: Sink>(
        self,
        place: Recipient,
        shape: EdidShape,
        out: &mut W,
    ) -> Result<(), EdidFault>
        ensures { OnOk result (Shows (View.Whole place shape) self.entry.bytes.now (W.contents out.old) (W.contents out.new)) }
    {
        match place {
            Recipient::Own => write_own(self.bytes, shape, out),
            Recipient::At(address) => write_passed(self.bytes, at(address), shape, out),
            Recipient::Port { port, sound } => self.write_in_port(port, sound, shape, out),
        }
    }

    // Writes the rules that the EDID breaks, for a device.
    fn write_rules<W: Sink>(
        self,
        place: Recipient,
        form: Form,
        out: &mut W,
    ) -> Result<(), EdidFault>
        ensures { OnOk result (Shows (View.Findings place form) self.entry.bytes.now (W.contents out.old) (W.contents out.new)) }
    {
        let given = given_to(self.alloc, place, self.bytes)?;
        write_own_rules(origin_of(place), form, given.as_slice(), out)
    }

    // Writes the text of the EDID, for a device, with what it means.
    fn write_meaning<W: Sink>(self, place: Recipient, out: &mut W) -> Result<(), EdidFault>
        ensures { OnOk result (Shows (View.Meaning place) self.entry.bytes.now (W.contents out.old) (W.contents out.new)) }
    {
        let given = given_to(self.alloc, place, self.bytes)?;
        Ok(edid_to_meaning(given.as_slice(), out)?)
    }

    // Writes the fields of the EDID, for a device.
    fn write_fields<W: Sink>(self, place: Recipient, out: &mut W) -> Result<(), EdidFault>
        ensures { OnOk result (Shows (View.Fields place) self.entry.bytes.now (W.contents out.old) (W.contents out.new)) }
    {
        let given = given_to(self.alloc, place, self.bytes)?;
        write_own_fields(given.as_slice(), out)
    }

    // Writes the room in the EDID's blocks, for a device.
    fn write_rooms<W: Sink>(
        self,
        place: Recipient,
        form: Form,
        out: &mut W,
    ) -> Result<(), EdidFault>
        ensures { OnOk result (Shows (View.Room place form) self.entry.bytes.now (W.contents out.old) (W.contents out.new)) }
    {
        let given = given_to(self.alloc, place, self.bytes)?;
        write_own_room(form, given.as_slice(), out)
    }

    // Writes what a sound driver makes of the EDID, for a device.
    fn write_sound<W: Sink>(
        self,
        place: Recipient,
        shape: EldShape,
        out: &mut W,
    ) -> Result<(), EdidFault>
        ensures { OnOk result (Shows (View.Eld place shape) self.entry.bytes.now (W.contents out.old) (W.contents out.new)) }
    {
        let given = given_to(self.alloc, place, self.bytes)?;
        write_own_eld(shape, given.as_slice(), out)
    }

    // Writes the address in the EDID, for a device.
    fn write_place<W: Sink>(self, place: Recipient, out: &mut W) -> Result<(), EdidFault>
        ensures { OnOk result (Shows (View.Address place) self.entry.bytes.now (W.contents out.old) (W.contents out.new)) }
    {
        let given = given_to(self.alloc, place, self.bytes)?;
        Ok(write_address(given.as_slice(), out)?)
    }

    // Writes what a device reads of the EDID over DDC.
    fn write_ddc<W: Sink>(self, place: Recipient, out: &mut W) -> Result<(), EdidFault>
        ensures { OnOk result (Shows (View.Readout place) self.entry.bytes.now (W.contents out.old) (W.contents out.new)) }
    {
        let given = given_to(self.alloc, place, self.bytes)?;
        let blocks = given.as_slice();
        is_edid(blocks)?;
        write_reading(blocks, out)
    }

    // Writes what is asked for of the EDID.
    fn show<W: Sink>(self, view: View, out: &mut W) -> Result<(), EdidFault>
        ensures { OnOk result (Shows view self.entry.bytes.now (W.contents out.old) (W.contents out.new)) }
    {
        match view {
            View::Whole(place, shape) => self.write_whole(place, shape, out),
            View::Findings(place, form) => self.write_rules(place, form, out),
            View::Meaning(place) => self.write_meaning(place, out),
            View::Fields(place) => self.write_fields(place, out),
            View::Address(place) => self.write_place(place, out),
            View::Readout(place) => self.write_ddc(place, out),
            View::Room(place, form) => self.write_rooms(place, form, out),
            View::Eld(place, shape) => self.write_sound(place, shape, out),
        }
    }

    // The bytes of the EDID, for a device, with another count in byte 126.
    fn recounted(self, count: u8, place: Recipient) -> Result<ArrayVec<u8, 512>, EdidFault>
        ensures { IfOk result (λ new. IsRecounted count place self.entry.bytes.now new.items) }
    {
        let given = given_to(self.alloc, place, self.bytes)?;
        let blocks = given.as_slice();
        is_edid(blocks)?;
        if blocks.len() < LEAST || blocks.len() > MOST {
            return Err(EdidFault::Edid(EdidError::Length));
        }
        Ok(with_count(blocks, count))
    }

    // Writes those bytes as one line of hex.
    fn write_counted_hex<W: Sink>(
        self,
        count: u8,
        place: Recipient,
        out: &mut W,
    ) -> Result<(), EdidFault>
        ensures { OnOk result (ShowsCounted count (View.Whole place EdidShape.Hex) self.entry.bytes.now (W.contents out.old) (W.contents out.new)) }
    {
        let mended = self.recounted(count, place)?;
        Ok(write_hex_line(mended.as_slice(), out)?)
    }

    // Writes those bytes as they are.
    fn write_counted_bytes<W: Sink>(
        self,
        count: u8,
        place: Recipient,
        out: &mut W,
    ) -> Result<(), EdidFault>
        ensures { OnOk result (ShowsCounted count (View.Whole place EdidShape.Bytes) self.entry.bytes.now (W.contents out.old) (W.contents out.new)) }
    {
        let mended = self.recounted(count, place)?;
        Ok(put_all(out, mended.as_slice())?)
    }

    // Writes those bytes as an array of C.
    fn write_counted_c<W: Sink>(
        self,
        count: u8,
        place: Recipient,
        out: &mut W,
    ) -> Result<(), EdidFault>
        ensures { OnOk result (ShowsCounted count (View.Whole place EdidShape.C) self.entry.bytes.now (W.contents out.old) (W.contents out.new)) }
    {
        let mended = self.recounted(count, place)?;
        let bytes = mended.as_slice();
        are_few(bytes)?;
        Ok(write_c(bytes, out)?)
    }

    // Writes those bytes as XML.
    fn write_counted_xml<W: Sink>(
        self,
        count: u8,
        place: Recipient,
        out: &mut W,
    ) -> Result<(), EdidFault>
        ensures { OnOk result (ShowsCounted count (View.Whole place EdidShape.Xml) self.entry.bytes.now (W.contents out.old) (W.contents out.new)) }
    {
        let mended = self.recounted(count, place)?;
        let bytes = mended.as_slice();
        are_few(bytes)?;
        Ok(write_xml(bytes, out)?)
    }

    // Writes what a device reads of them over DDC.
    fn write_counted_ddc<W: Sink>(
        self,
        count: u8,
        place: Recipient,
        out: &mut W,
    ) -> Result<(), EdidFault>
        ensures { OnOk result (ShowsCounted count (View.Readout place) self.entry.bytes.now (W.contents out.old) (W.contents out.new)) }
    {
        let mended = self.recounted(count, place)?;
        write_reading(mended.as_slice(), out)
    }

    // Writes the rules that the EDID breaks, for a device, as its base block has this count in byte 126.
    fn check_counted<W: Sink>(
        self,
        count: u8,
        place: Recipient,
        form: Form,
        out: &mut W,
    ) -> Result<(), EdidFault>
        ensures { OnOk result (ShowsCounted count (View.Findings place form) self.entry.bytes.now (W.contents out.old) (W.contents out.new)) }
    {
        let given = given_to(self.alloc, place, self.bytes)?;
        write_counted_rules(
            origin_of(place),
            form,
            count,
            self.bytes,
            given.as_slice(),
            out,
        )
    }

    // Writes the EDID, for a device. Bytes that are written have this count in byte 126.
    fn show_counted_whole<W: Sink>(
        self,
        count: u8,
        place: Recipient,
        shape: EdidShape,
        out: &mut W,
    ) -> Result<(), EdidFault>
        ensures { OnOk result (ShowsCounted count (View.Whole place shape) self.entry.bytes.now (W.contents out.old) (W.contents out.new)) }
    {
        match shape {
            EdidShape::Hex => self.write_counted_hex(count, place, out),
            EdidShape::Bytes => self.write_counted_bytes(count, place, out),
            EdidShape::C => self.write_counted_c(count, place, out),
            EdidShape::Xml => self.write_counted_xml(count, place, out),
            EdidShape::Text => self.write_whole(place, EdidShape::Text, out),
        }
    }

    // Writes what is asked for where the HDMI Forum's override counts the extensions. Bytes that are written have this count in
    // byte 126.
    fn show_counted<W: Sink>(self, count: u8, view: View, out: &mut W) -> Result<(), EdidFault>
        ensures { OnOk result (ShowsCounted count view self.entry.bytes.now (W.contents out.old) (W.contents out.new)) }
    {
        match view {
            View::Whole(place, shape) => self.show_counted_whole(count, place, shape, out),
            View::Findings(place, form) => self.check_counted(count, place, form, out),
            View::Meaning(place) => self.write_meaning(place, out),
            View::Fields(place) => self.write_fields(place, out),
            View::Address(place) => self.write_place(place, out),
            View::Readout(place) => self.write_counted_ddc(count, place, out),
            View::Room(place, form) => self.write_rooms(place, form, out),
            View::Eld(place, shape) => self.write_sound(place, shape, out),
        }
    }

    // Writes what is asked for of bytes in which the override counts the extensions.
    fn show_overridden<W: Sink>(self, count: u8, view: View, out: &mut W) -> Result<(), EdidFault>
        ensures { OnOk result (ShowsAs EdidReading.Overridden count view self.entry.bytes.now (W.contents out.old) (W.contents out.new)) }
    {
        match counted(self.bytes) {
            Ok(bytes) => {
                let read = Blocks {
                    bytes: bytes.as_slice(),
                    ..self
                };
                read.show_counted(count, view, out)
            }
            Err(error) => Err(EdidFault::Edid(error)),
        }
    }

    // Writes what is asked for of bytes as a source reads them.
    fn show_as_source<W: Sink>(self, count: u8, view: View, out: &mut W) -> Result<(), EdidFault>
        ensures { OnOk result (ShowsAs EdidReading.AsSource count view self.entry.bytes.now (W.contents out.old) (W.contents out.new)) }
    {
        match as_source(self.bytes) {
            Ok(bytes) => {
                let read = Blocks {
                    bytes: bytes.as_slice(),
                    ..self
                };
                read.show(view, out)
            }
            Err(error) => Err(EdidFault::Edid(error)),
        }
    }

    // Writes what is asked for of bytes with right sums and a right count.
    fn show_mended<W: Sink>(self, count: u8, view: View, out: &mut W) -> Result<(), EdidFault>
        ensures { OnOk result (ShowsAs EdidReading.Mended count view self.entry.bytes.now (W.contents out.old) (W.contents out.new)) }
    {
        match mended(false, self.bytes) {
            Ok(bytes) => {
                let read = Blocks {
                    bytes: bytes.as_slice(),
                    ..self
                };
                read.show(view, out)
            }
            Err(error) => Err(EdidFault::Edid(error)),
        }
    }

    // Writes what is asked for of bytes with right sums, in which the mended override counts the extensions.
    fn show_mended_overridden<W: Sink>(
        self,
        count: u8,
        view: View,
        out: &mut W,
    ) -> Result<(), EdidFault>
        ensures { OnOk result (ShowsAs EdidReading.MendedOverridden count view self.entry.bytes.now (W.contents out.old) (W.contents out.new)) }
    {
        match mended(true, self.bytes) {
            Ok(bytes) => {
                let read = Blocks {
                    bytes: bytes.as_slice(),
                    ..self
                };
                read.show_overridden(byte_at(bytes.as_slice(), COUNT), view, out)
            }
            Err(error) => Err(EdidFault::Edid(error)),
        }
    }

    // Writes what is asked for of bytes, as they are read.
    fn show_as<W: Sink>(
        self,
        reading: EdidReading,
        count: u8,
        view: View,
        out: &mut W,
    ) -> Result<(), EdidFault>
        ensures { OnOk result (ShowsAs reading count view self.entry.bytes.now (W.contents out.old) (W.contents out.new)) }
    {
        match reading {
            EdidReading::Strict => self.show(view, out),
            EdidReading::Overridden => self.show_overridden(count, view, out),
            EdidReading::AsSource => self.show_as_source(count, view, out),
            EdidReading::Mended => self.show_mended(count, view, out),
            EdidReading::MendedOverridden => self.show_mended_overridden(count, view, out),
        }
    }
}

// Does what is asked for with an EDID, of an input that is read so.
fn edid_of<W: Sink>(
    alloc: Global,
    source: Source,
    reading: EdidReading,
    view: View,
    input: &[u8],
    out: &mut W,
) -> Result<(), EdidFault>
    ensures { OnOk result (Made source reading view input.now (W.contents out.old) (W.contents out.new)) }
{
    let given = given_of(alloc, source, input)?;
    let bytes = given.as_slice();
    Blocks { alloc, bytes }.show_as(reading, kept_count(source, bytes), view, out)
}

/// Does what is asked for with an EDID. Where it is not said what the input holds, its first bytes say it.
pub fn edid<W: Sink>(
    alloc: Global,
    source: Option<Source>,
    reading: EdidReading,
    view: View,
    input: &[u8],
    out: &mut W,
) -> Result<(), EdidFault>
    ensures { OnOk result (Made (told source input.now) reading view input.now (W.contents out.old) (W.contents out.new)) }
{
    edid_of(alloc, told(source, input), reading, view, input, out)
}
