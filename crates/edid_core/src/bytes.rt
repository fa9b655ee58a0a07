//! The bytes of a whole EDID.
ghost use Rattle.std.specs.Prelude.{◌≡◌, ◌++◌, ◌+◌, ◌*◌, ◌≤◌, IfOk, IfErr, OnOk, OnErr, [], flat_map, length, drop};
ghost use Rattle.edid_base.specs.Base.{base_bytes};
ghost use Rattle.edid_cta.specs.Ext.{ext_bytes};
ghost use Rattle.edid_core.specs.Bytes.{HasLength, IsRefused, IsUnsummed, block_at, edid_bytes, has_length};
ghost use Rattle.edid_core.specs.declared.edid.Edid.{Edid as EdidValue};

use crate::edid::Edid;
use arrayvec::ArrayVec;
use edid_base::{Base, BaseError, append, part, read_base, write_base};
use edid_cta::{Ext, ExtError, read_ext, write_ext};
use std::error::Error;
use std::fmt::{self, Write};

/// Why some bytes are no EDID.
#[derive(Clone, Copy, Debug, PartialEq, Eq)]
pub enum EdidError {
    /// They are neither 128, 256, 384 nor 512.
    Length,
    /// Byte 126 is not the number of extensions that are there.
    Count,
    /// The base block is at fault.
    Base(BaseError),
    /// The extension with this number, from 1, is at fault.
    Ext(u8, ExtError),
}

impl fmt::Display for EdidError {
    ghost use Rattle.std.specs.Prelude.{Some};
    ghost use Rattle.edid_core.specs.Bytes.{edid_cause};

    ghost output = { λ error. Some (edid_cause error) };

    fn fmt<W: Write>(&self, f: &mut fmt::Formatter<W>) -> fmt::Result {
        match self {
            EdidError::Length => f.write_str("length"),
            EdidError::Count => f.write_str("count"),
            EdidError::Base(BaseError::Header) => f.write_str("base header"),
            EdidError::Base(BaseError::Checksum) => f.write_str("base checksum"),
            EdidError::Base(BaseError::Revision) => f.write_str("base revision"),
            EdidError::Base(BaseError::Maker) => f.write_str("base maker"),
            EdidError::Ext(number, ExtError::Checksum) => write!(f, "ext {number} checksum"),
        }
    }
}

impl Error for EdidError {}

/// The block with this number, 0 for the base block.
fn block_at(bytes: &[u8], number: usize) -> [u8; 128]
    requires { 128 * number + 128 ≤ length bytes.now }
    ensures { result ≡ block_at bytes.now number }
{
    part(bytes, 128 * number)
}

/// Whether there are as many bytes as an EDID can have: one block to four.
fn has_length(bytes: &[u8]) -> bool
    ensures { result ≡ has_length bytes.now }
{
    matches!(bytes.len(), 128 | 256 | 384 | 512)
}

/// Adds the extensions after the base block, or finds the first that is at fault.
// They are large, and read where they stand.
#[inline(never)]
fn read_extensions(bytes: &[u8], extensions: &mut ArrayVec<Ext, 3>) -> Result<(), EdidError>
    requires fresh { extensions.old.items ≡ [] }
    requires length { HasLength bytes.now }
    ensures found { OnOk result (flat_map ext_bytes extensions.new.items ≡ drop 128 bytes.now) }
    ensures count { OnOk result (128 * length extensions.new.items + 128 ≡ length bytes.now) }
    ensures refused { IfErr result (λ e. IsUnsummed bytes.now e) }
{
    for number in 1..bytes.len() / 128 {
        match read_ext(&block_at(bytes, number)) {
            Err(cause) => return Err(EdidError::Ext(number as u8, cause)),
            Ok(extension) => extensions.push(extension),
        }
    }
    Ok(())
}

/// The base block of the EDID that 128, 256, 384 or 512 bytes spell; its extensions are put into an empty list of the
/// caller's (E-EDID Release A, section 2.2.1). An EDID is large as one value, and is read in parts where it is not kept.
///
/// # Errors
///
/// The first reason why the bytes spell no EDID: their length, the base block, the number of extensions, the first
/// extension at fault. The list is then as empty as it was.
// The frame of the caller is kept free of what is read on the way.
#[inline(never)]
pub fn read_parts(bytes: &[u8], extensions: &mut ArrayVec<Ext, 3>) -> Result<Base, EdidError>
    requires fresh { extensions.old.items ≡ [] }
    ensures found { IfOk result (λ base. base_bytes base ++ flat_map ext_bytes extensions.new.items ≡ bytes.now) }
    ensures counted { IfOk result (λ base. base.extensions ≡ length extensions.new.items) }
    ensures few { length extensions.new.items ≤ 3 }
    ensures only { (e : EdidValue) → bytes.now ≡ edid_bytes e → result ≡ Ok e.base }
    ensures listed { (e : EdidValue) → bytes.now ≡ edid_bytes e → extensions.new.items ≡ e.extensions.items }
    ensures refused { IfErr result (λ e. IsRefused bytes.now e) }
    ensures kept { OnErr result (extensions.new.items ≡ []) }
{
    if !has_length(bytes) {
        return Err(EdidError::Length);
    }
    let base = match read_base(&block_at(bytes, 0)) {
        Err(cause) => return Err(EdidError::Base(cause)),
        Ok(base) => base,
    };
    if usize::from(bytes[126]) * 128 + 128 != bytes.len() {
        return Err(EdidError::Count);
    }
    match read_extensions(bytes, extensions) {
        Err(error) => {
            extensions.clear();
            Err(error)
        }
        Ok(()) => Ok(base),
    }
}

/// The EDID that 128, 256, 384 or 512 bytes spell, or the first reason why they spell none: their length, the base
/// block, the number of extensions, the first extension at fault (E-EDID Release A, section 2.2.1).
pub fn edid_from_bytes(bytes: &[u8]) -> Result<Edid, EdidError>
    ensures found { IfOk result (λ e. edid_bytes e ≡ bytes.now) }
    ensures only { (e : EdidValue) → bytes.now ≡ edid_bytes e → result ≡ Ok e }
    ensures refused { IfErr result (λ e. IsRefused bytes.now e) }
{
    let mut extensions = ArrayVec::new();
    match read_parts(bytes, &mut extensions) {
        Err(error) => Err(error),
        Ok(base) => Ok(Edid { base, extensions }),
    }
}

/// The bytes of an EDID: 128, and 128 more for each extension.
pub fn edid_to_bytes(edid: &Edid) -> ArrayVec<u8, 512>
    ensures { result.items ≡ edid_bytes edid.now }
{
    let mut bytes = ArrayVec::new();
    append(&mut bytes, &write_base(&edid.base));
    for ext in edid.extensions.as_slice() {
        append(&mut bytes, &write_ext(ext));
    }
    bytes
}
