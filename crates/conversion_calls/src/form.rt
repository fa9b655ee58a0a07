//! The forms in which an EDID is written.
ghost use Rattle.std.specs.Prelude.{◌≡◌, ◌≤◌, ◌++◌, flat_map, length};
ghost use Rattle.text_core.specs.Written.{WrittenAll};
ghost use Rattle.edid_base.specs.Base.{base_bytes};
ghost use Rattle.edid_cta.specs.Ext.{ext_bytes};
ghost use Rattle.conversion_calls.specs.Form.{form_text, hex_line, parts_text};

use crate::programs::{write_c, write_xml};
use arrayvec::ArrayVec;
use edid_base::{Base, append, write_base};
use edid_core::{Edid, append_extensions};
use edid_cta::Ext;
use edid_texts::write_parts;
use text_core::{Piece, Sink, WriteFault, put_all, write_line};

/// How an EDID is written.
#[derive(Clone, Copy, Debug, PartialEq, Eq)]
pub enum EdidForm {
    /// Its text, a line for each part.
    Text,
    /// Its bytes, as one line of lower-case hex.
    Hex,
    /// Its bytes as they are: 128, 256, 384 or 512.
    Bytes,
    /// Its bytes as an array of C.
    C,
    /// Its bytes as the xml that `edid-decode -o xml` writes.
    Xml,
}

// Writes bytes as one line of hex.
fn write_hex_line<S: Sink>(bytes: &[u8], out: &mut S) -> Result<(), WriteFault>
    ensures { WrittenAll (S.contents out.old) (S.contents out.new) (S.is_stuck out.old) (S.is_stuck out.new) (hex_line bytes.now) result }
{
    match write_line(out, &[Piece::Hex(bytes), Piece::Text("\n")]) {
        Ok(_) => Ok(()),
        Err(fault) => Err(fault),
    }
}

// Writes bytes as they are.
fn write_bytes<S: Sink>(bytes: &[u8], out: &mut S) -> Result<(), WriteFault>
    ensures { WrittenAll (S.contents out.old) (S.contents out.new) (S.is_stuck out.old) (S.is_stuck out.new) bytes.now result }
{
    put_all(out, bytes)
}

// The bytes of an EDID of these parts.
fn bytes_of(base: &Base, extensions: &[Ext]) -> ArrayVec<u8, 512>
    requires { length extensions.now ≤ 3 }
    ensures { result.items ≡ base_bytes base.now ++ flat_map ext_bytes extensions.now }
{
    let mut bytes = ArrayVec::new();
    append(&mut bytes, &write_base(base));
    append_extensions(&mut bytes, extensions);
    bytes
}

/// Writes the EDID of a base block and the extensions after it in a form: as one value an EDID is large. After a fault the
/// front of what is written in it is there, as long as the fault's count says, and the sink is stuck.
pub(crate) fn write_in<S: Sink>(
    base: &Base,
    extensions: &ArrayVec<Ext, 3>,
    form: EdidForm,
    out: &mut S,
) -> Result<(), WriteFault>
    ensures { WrittenAll (S.contents out.old) (S.contents out.new) (S.is_stuck out.old) (S.is_stuck out.new) (parts_text form base.now extensions.now.items) result }
{
    match form {
        EdidForm::Text => write_parts(base, extensions, out),
        EdidForm::Hex => write_hex_line(bytes_of(base, extensions.as_slice()).as_slice(), out),
        EdidForm::Bytes => write_bytes(bytes_of(base, extensions.as_slice()).as_slice(), out),
        EdidForm::C => write_c(bytes_of(base, extensions.as_slice()).as_slice(), out),
        EdidForm::Xml => write_xml(bytes_of(base, extensions.as_slice()).as_slice(), out),
    }
}

/// Writes an EDID in a form.
pub(crate) fn write_edid<S: Sink>(
    edid: &Edid,
    form: EdidForm,
    out: &mut S,
) -> Result<(), WriteFault>
    ensures { WrittenAll (S.contents out.old) (S.contents out.new) (S.is_stuck out.old) (S.is_stuck out.new) (form_text form edid.now) result }
{
    write_in(&edid.base, &edid.extensions, form, out)
}
