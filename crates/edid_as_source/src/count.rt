//! The count of extensions: byte 126 of the base block, or the HDMI Forum's override of it, HF-EEODB (HDMI 2.1, section
//! 10.3.7).
ghost use Rattle.std.specs.Prelude.{◌≡◌, ◌≤◌, IfOk, IfErr, Ok, Err, length};
ghost use Rattle.edid_core.specs.Bytes.{has_length};
ghost use Rattle.edid_as_source.specs.Count.{balance, begins_with_override, counted, extension_count, first_count, has_override, with_count};

use arrayvec::ArrayVec;
use edid_base::append;
use edid_core::EdidError;
use text_core::{after, byte_at};

/// The place of the count in the base block. Its checksum is the next byte.
const COUNT: usize = 126;

/// The place of the first extension.
const EXTENSION: usize = 128;

/// The tag of an extension of CTA-861, and the revision from which it has data blocks.
const CTA_TAG: u8 = 2;

const CTA_REVISION: u8 = 3;

/// Where the data blocks of an extension end at least that has one of three bytes.
const LEAST_END: u8 = 7;

/// The header of a data block of two bytes with an extended tag, and the override's tag.
const HEADER: u8 = 0xe2;

const OVERRIDE_TAG: u8 = 0x78;

/// The bytes of a block.
const BLOCK: usize = 128;

/// Whether blocks begin with a whole extension that begins with an override. One that counts no extension is none.
pub fn begins_with_override(blocks: &[u8]) -> bool
    ensures { result ≡ begins_with_override blocks.now }
{
    blocks.len() >= BLOCK
        && byte_at(blocks, 0) == CTA_TAG
        && byte_at(blocks, 1) >= CTA_REVISION
        && byte_at(blocks, 2) >= LEAST_END
        && byte_at(blocks, 4) == HEADER
        && byte_at(blocks, 5) == OVERRIDE_TAG
        && byte_at(blocks, 6) >= 1
}

// Whether the first extension begins with the override.
fn has_override(bytes: &[u8]) -> bool
    ensures { result ≡ has_override bytes.now }
{
    byte_at(bytes, COUNT) >= 1 && begins_with_override(after(bytes, EXTENSION))
}

/// How many extensions an EDID with these bytes has: as many as the override has it where the first extension begins with one,
/// and else byte 126.
pub fn extension_count(bytes: &[u8]) -> u8
    ensures { result ≡ extension_count bytes.now }
{
    if has_override(bytes) {
        byte_at(bytes, EXTENSION + 6)
    } else {
        byte_at(bytes, COUNT)
    }
}

/// The count that an EDID with these bytes has in byte 126: 1 where the first extension begins with the override, so that a source
/// that does not know it reads two blocks.
pub fn first_count(bytes: &[u8]) -> u8
    ensures { result ≡ first_count bytes.now }
{
    if has_override(bytes) {
        1
    } else {
        byte_at(bytes, COUNT)
    }
}

// The byte after a count that stands in the place of another, so that the sum of both stays.
fn balance(old: u8, check: u8, count: u8) -> u8
    ensures { result ≡ balance old check count }
{
    check.wrapping_add(old).wrapping_sub(count)
}

/// Bytes with another count in byte 126, and the checksum that makes up for it.
pub fn with_count(bytes: &[u8], count: u8) -> ArrayVec<u8, 512>
    requires least { 128 ≤ length bytes.now }
    requires most { length bytes.now ≤ 512 }
    ensures { result.items ≡ with_count bytes.now count }
{
    let check = balance(byte_at(bytes, COUNT), byte_at(bytes, COUNT + 1), count);
    let (front, _) = bytes.split_at(COUNT);
    let (_, extensions) = bytes.split_at(EXTENSION);
    let mut mended: ArrayVec<u8, 512> = ArrayVec::new();
    append(&mut mended, front);
    mended.push(count);
    mended.push(check);
    append(&mut mended, extensions);
    mended
}

/// Whether bytes are those of one block to four.
pub fn has_length(bytes: &[u8]) -> bool
    ensures { result ≡ has_length bytes.now }
{
    matches!(bytes.len(), 128 | 256 | 384 | 512)
}

/// The bytes of an EDID with all extensions counted in byte 126, as the strict reader takes them.
///
/// # Errors
///
/// `Length` where there are not 128, 256, 384 or 512 of them.
pub fn counted(bytes: &[u8]) -> Result<ArrayVec<u8, 512>, EdidError>
    ensures ok { IfOk result (λ b. counted bytes.now ≡ Ok b.items) }
    ensures refused { IfErr result (λ e. counted bytes.now ≡ Err e) }
{
    if !has_length(bytes) {
        return Err(EdidError::Length);
    }
    Ok(with_count(bytes, extension_count(bytes)))
}
