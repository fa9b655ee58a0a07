//! What the fields of the EDID of some bytes are, the room in its blocks, and its ELD.
ghost use Rattle.std.specs.Prelude.{◌≤◌, OnOk, length};
ghost use Rattle.std.specs.Io.KnownBytes.{Appends};
ghost use Rattle.conversion_fields.specs.Whole.{edid_text};
ghost use Rattle.edid_room.specs.Records.{room_text};
ghost use Rattle.edid_eld.specs.Display.{display_parts};
ghost use Rattle.program_edids.specs.Edids.{ShowsFields, ShowsRoom};
ghost use Rattle.program_edids.specs.Elds.{ShowsEld, ReadsEld, eld_shown};

use crate::edid::write_hex_line;
use crate::edid_fault::EdidFault;
use arrayvec::ArrayVec;
use cli_choice::EldShape;
use conversion_fields::write_fields;
use edid_base::Base;
use edid_core::read_parts;
use edid_cta::Ext;
use edid_eld::{Connection, display_eld, eld_of, read_eld};
use edid_room::write_room;
use meaning_eld::write_eld;
use record_core::Form;
use text_core::{Sink, put_all};

// Writes the fields of a base block and its extensions.
fn write_objects<W: Sink>(base: &Base, extensions: &[Ext], out: &mut W) -> Result<(), EdidFault>
    requires { length extensions.now ≤ 3 }
    ensures { OnOk result (Appends (W.contents out.old) (W.contents out.new) (edid_text base.now extensions.now)) }
{
    match write_fields(base, extensions, out) {
        Ok(_) => Ok(()),
        Err(fault) => Err(EdidFault::Write(fault)),
    }
}

/// Writes the fields of the EDID of some bytes.
#[inline(never)]
pub fn write_own_fields<W: Sink>(bytes: &[u8], out: &mut W) -> Result<(), EdidFault>
    ensures { OnOk result (ShowsFields bytes.now (W.contents out.old) (W.contents out.new)) }
{
    let mut extensions = ArrayVec::new();
    match read_parts(bytes, &mut extensions) {
        Ok(base) => write_objects(&base, extensions.as_slice(), out),
        Err(cause) => Err(EdidFault::Edid(cause)),
    }
}

// Writes the room in a base block and its extensions.
fn write_records<W: Sink>(
    form: Form,
    base: &Base,
    extensions: &[Ext],
    out: &mut W,
) -> Result<(), EdidFault>
    requires { length extensions.now ≤ 3 }
    ensures { OnOk result (Appends (W.contents out.old) (W.contents out.new) (room_text form base.now extensions.now)) }
{
    match write_room(out, form, base, extensions) {
        Ok(()) => Ok(()),
        Err(fault) => Err(EdidFault::Write(fault)),
    }
}

/// Writes the room in the blocks of the EDID of some bytes.
#[inline(never)]
pub fn write_own_room<W: Sink>(form: Form, bytes: &[u8], out: &mut W) -> Result<(), EdidFault>
    ensures { OnOk result (ShowsRoom form bytes.now (W.contents out.old) (W.contents out.new)) }
{
    let mut extensions = ArrayVec::new();
    match read_parts(bytes, &mut extensions) {
        Ok(base) => write_records(form, &base, extensions.as_slice(), out),
        Err(cause) => Err(EdidFault::Edid(cause)),
    }
}

// Writes the ELD of a base block and its extensions as one line of hex. The network is HDMI.
fn write_eld_line<W: Sink>(base: &Base, extensions: &[Ext], out: &mut W) -> Result<(), EdidFault>
    ensures { OnOk result (Appends (W.contents out.old) (W.contents out.new) (eld_shown EldShape.Hex (display_parts base.now extensions.now Connection.Hdmi))) }
{
    let eld = eld_of(base, extensions, Connection::Hdmi);
    write_hex_line(eld.as_slice(), out)?;
    Ok(())
}

// Writes its bytes.
fn write_eld_bytes<W: Sink>(base: &Base, extensions: &[Ext], out: &mut W) -> Result<(), EdidFault>
    ensures { OnOk result (Appends (W.contents out.old) (W.contents out.new) (eld_shown EldShape.Bytes (display_parts base.now extensions.now Connection.Hdmi))) }
{
    let eld = eld_of(base, extensions, Connection::Hdmi);
    put_all(out, eld.as_slice())?;
    Ok(())
}

// Writes what its fields say.
fn write_eld_words<W: Sink>(
    form: Form,
    base: &Base,
    extensions: &[Ext],
    out: &mut W,
) -> Result<(), EdidFault>
    ensures { OnOk result (Appends (W.contents out.old) (W.contents out.new) (eld_shown (EldShape.Fields form) (display_parts base.now extensions.now Connection.Hdmi))) }
{
    let eld = display_eld(base, extensions, Connection::Hdmi);
    write_eld(&eld, form, out)?;
    Ok(())
}

// Writes the ELD of a base block and its extensions.
fn write_eld_shape<W: Sink>(
    shape: EldShape,
    base: &Base,
    extensions: &[Ext],
    out: &mut W,
) -> Result<(), EdidFault>
    ensures { OnOk result (Appends (W.contents out.old) (W.contents out.new) (eld_shown shape (display_parts base.now extensions.now Connection.Hdmi))) }
{
    match shape {
        EldShape::Hex => write_eld_line(base, extensions, out),
        EldShape::Bytes => write_eld_bytes(base, extensions, out),
        EldShape::Fields(form) => write_eld_words(form, base, extensions, out),
    }
}

/// Writes the ELD that a sound driver makes of the EDID of some bytes.
#[inline(never)]
pub fn write_own_eld<W: Sink>(shape: EldShape, bytes: &[u8], out: &mut W) -> Result<(), EdidFault>
    ensures { OnOk result (ShowsEld shape bytes.now (W.contents out.old) (W.contents out.new)) }
{
    let mut extensions = ArrayVec::new();
    match read_parts(bytes, &mut extensions) {
        Ok(base) => write_eld_shape(shape, &base, extensions.as_slice(), out),
        Err(cause) => Err(EdidFault::Edid(cause)),
    }
}

/// Writes what the fields of an ELD say, whose bytes are the input.
pub fn write_read_eld<W: Sink>(form: Form, input: &[u8], out: &mut W) -> Result<(), EdidFault>
    ensures { OnOk result (ReadsEld form input.now (W.contents out.old) (W.contents out.new)) }
{
    let eld = read_eld(input)?;
    write_eld(&eld, form, out)?;
    Ok(())
}
