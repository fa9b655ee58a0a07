//! EDIDs of several blocks: which bytes are refused and why, and what is passed on.
use crate::samples::{edid_of, first_bytes_of, hex_of, owned};
use arrayvec::ArrayVec;
use edid_base::{Base, write_base};
use edid_core::{AudioFrom, Edid, edid_from_bytes, edid_to_bytes, read_parts};
use edid_cta::{Ext, write_ext};
use std::process::Abort;
use text_core::Phys;

/// How many bytes of which blocks, and what is reported of them: why they are refused, or the address of an EDID that returns them.
/// Then what is reported of their parts: how many bytes the parts have, which are the same, or why they are refused and how many
/// extensions are left then. Last, what a port with the address 1.0.0.0 passes on below a television, and below an amplifier.
pub(crate) const CASES: &str = "\
edid 127 tv..0151 speaking..e8 => length
edid 128 tv..0151 speaking..e8 => count
edid 128 tv..0152 => base checksum
edid 128 tv..0151 0=01 => base header
edid 128 tv..0152 19=02 => base revision
edid 128 tv..0131 8=6c => base maker
edid 256 tv..0151 speaking..e9 => ext 1 checksum
edid 512 tv..034f map..0c speaking..e9 empty..07 => ext 2 checksum
edid 512 tv..034f map..0c empty..06 speaking..e9 => ext 3 checksum
edid 384 tv..034f map..0c speaking..e9 => count
edid 640 tv..044e empty..06 empty..06 empty..06 empty..06 => length
edid 320 tv..044e empty..06 empty..06 empty..06 empty..06 => length
edid 0 tv..0151 => length
edid 256 tv..0151 speaking..e8 => Some(Phys { high: 0, low: 0 })
edid 384 tv..0250 map..0c speaking..e8 => Some(Phys { high: 0, low: 0 })
edid 512 tv..034f map..0c speaking..e8 empty..06 => Some(Phys { high: 0, low: 0 })
edid 512 tv..034f map..0c empty..06 empty..06 => None
parts 128 tv..0052 => 128 bytes
parts 256 tv..0151 speaking..e8 => 256 bytes
parts 512 tv..034f map..0c speaking..e8 empty..06 => 512 bytes
parts 127 tv..0151 speaking..e8 => length, 0 left
parts 128 tv..0151 speaking..e8 => count, 0 left
parts 128 tv..0151 0=01 => base header, 0 left
parts 512 tv..034f map..0c empty..06 speaking..e9 => ext 3 checksum, 0 left
television tv..034f empty..06 speaking..e8 speaking..e8 => tv..034f empty..06 020316f143900403230907078301000065030c001000..d8 speaking..e8
television tv..034f map..0c empty..06 empty..06 => no address
amplifier tv..034f 020308f123090707..c8 speaking..e8 speaking..e8 => tv..034f 020308f123090707..c8 020319f143900403260f7f071507508301000065030c001000..e8 speaking..e8
";

/// The address of an EDID that returns these bytes.
fn address_text(rt: &(impl Abort + AllocGlobal), edid: &Edid, bytes: &[u8]) -> String {
    if edid_to_bytes(edid).as_slice() != bytes {
        return owned(rt, "other bytes");
    }
    format!(in rt.alloc(); "{:?}", edid.address()).expect(rt, "a text")
}

pub(crate) fn edid_reported(rt: &(impl Abort + AllocGlobal), words: &str) -> String {
    let bytes = first_bytes_of(rt, words);
    match edid_from_bytes(&bytes) {
        Err(error) => format!(in rt.alloc(); "{error}").expect(rt, "a text"),
        Ok(edid) => address_text(rt, &edid, &bytes),
    }
}

/// The bytes of a base block and of the extensions after it.
fn bytes_of_parts(rt: &(impl Abort + AllocGlobal), base: &Base, extensions: &[Ext]) -> Vec<u8> {
    let mut bytes = Vec::new(rt.alloc());
    bytes
        .extend_from_slice(&write_base(base))
        .expect(rt, "a block");
    for ext in extensions {
        bytes
            .extend_from_slice(&write_ext(ext))
            .expect(rt, "a block");
    }
    bytes
}

fn count_text(rt: &(impl Abort + AllocGlobal), parts: &[u8], bytes: &[u8]) -> String {
    if parts == bytes {
        format!(in rt.alloc(); "{} bytes", bytes.len()).expect(rt, "a text")
    } else {
        owned(rt, "other bytes")
    }
}

pub(crate) fn parts_reported(rt: &(impl Abort + AllocGlobal), words: &str) -> String {
    let bytes = first_bytes_of(rt, words);
    let mut extensions = ArrayVec::new();
    match read_parts(&bytes, &mut extensions) {
        Err(error) => format!(in rt.alloc(); "{error}, {} left", extensions.len()).expect(
            rt, "a text",
        ),
        Ok(base) => count_text(rt, &bytes_of_parts(rt, &base, &extensions), &bytes),
    }
}

/// What a port with the address 1.0.0.0 passes on; without an HDMI block nothing.
pub(crate) fn passed_on_reported(
    rt: &(impl Abort + AllocGlobal),
    audio: AudioFrom,
    words: &str,
) -> String {
    let address = Phys {
        high: 0x10,
        low: 0x00,
    };
    match edid_of(rt, words).passed_on(audio, address) {
        Ok(passed) => hex_of(rt, &passed),
        Err(_) => owned(rt, "no address"),
    }
}
