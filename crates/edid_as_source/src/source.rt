//! An EDID as a source takes it.
ghost use Rattle.std.specs.Prelude.{◌≡◌, ◌≤◌, ◌++◌, ◌%◌, ◌==◌, IfOk, IfErr, Ok, Err, None, drop, length, sum, take};
ghost use Rattle.edid_base.specs.Header.{header};
ghost use Rattle.edid_as_source.specs.Source.{as_source, base_refusal, count_refusal, refusal, source_bytes};

use crate::count::extension_count;
use crate::extensions::{push_blocks, push_overridden};
use crate::front::{HEADER, mended_block, right_places};
use arrayvec::ArrayVec;
use edid_base::{BaseError, append, is_summed, part};
use edid_core::EdidError;

/// The bytes of a block.
const BLOCK: usize = 128;

/// So many bytes of a header are right at least where a source mends it.
const RIGHT: usize = 6;

/// The version that sources read.
const VERSION: u8 = 1;

// Whether the checksum of a base block is right once its header is.
fn is_summed_with_header(block: &[u8]) -> bool
    requires { 128 ≤ length block.now }
    ensures { result ≡ (sum (header ++ take 120 (drop 8 block.now)) % 256 == 0) }
{
    let mut mended: ArrayVec<u8, BLOCK> = ArrayVec::new();
    append(&mut mended, HEADER);
    append(&mut mended, &part::<120>(block, 8));
    is_summed(mended.as_slice())
}

// Why no source takes a base block.
fn base_refusal(block: &[u8]) -> Option<BaseError>
    requires { 128 ≤ length block.now }
    ensures { result ≡ base_refusal block.now }
{
    if right_places(block, HEADER) < RIGHT {
        return Some(BaseError::Header);
    }
    if !is_summed_with_header(block) {
        return Some(BaseError::Checksum);
    }
    if block[18] != VERSION {
        return Some(BaseError::Revision);
    }
    None
}

// Whether extensions that are counted are missing.
fn count_refusal(bytes: &[u8]) -> Option<EdidError>
    ensures { result ≡ count_refusal bytes.now }
{
    if bytes.len() < BLOCK * usize::from(extension_count(bytes)) + BLOCK {
        return Some(EdidError::Count);
    }
    None
}

/// Why no source takes bytes.
pub fn refusal(bytes: &[u8]) -> Option<EdidError>
    ensures { result ≡ refusal bytes.now }
{
    if bytes.len() < BLOCK {
        return Some(EdidError::Length);
    }
    match base_refusal(bytes) {
        Some(cause) => Some(EdidError::Base(cause)),
        None => count_refusal(bytes),
    }
}

// The bytes of the EDID that a source takes of these.
#[tactic(auto, using(crate::proofs::Accepting::room_for))]
fn source_bytes(bytes: &[u8]) -> ArrayVec<u8, 512>
    requires { refusal bytes.now ≡ None }
    ensures { result.items ≡ source_bytes bytes.now }
{
    let mut taken: ArrayVec<u8, 384> = ArrayVec::new();
    let (_base, extensions) = bytes.split_at(BLOCK);
    push_blocks(3, extension_count(bytes), extensions, &mut taken);
    let count = (taken.len() / BLOCK) as u8;
    let mut mended: ArrayVec<u8, 512> = ArrayVec::new();
    append(&mut mended, &mended_block(bytes, count));
    push_overridden(count, taken.as_slice(), &mut mended);
    mended
}

/// The bytes of the EDID that a source takes of these, which the strict reader takes: what Linux (drm_edid) does not ask of an
/// EDID is mended, and what it passes over is left out. Two bytes of the header may be wrong; version 1 may have any revision, and
/// the maker any bytes; blocks after those that are counted are left out, and so are an extension whose checksum is wrong, unless
/// it is one of CTA-861, and extensions after the third. Byte 126 counts those that are left, and so does an override that the first
/// of them begins with.
///
/// # Errors
///
/// The first reason why no source takes them: `Length` where there is no block, the base block's header, checksum and version, and
/// `Count` where extensions that are counted are missing.
pub fn as_source(bytes: &[u8]) -> Result<ArrayVec<u8, 512>, EdidError>
    ensures ok { IfOk result (λ b. as_source bytes.now ≡ Ok b.items) }
    ensures refused { IfErr result (λ e. as_source bytes.now ≡ Err e) }
{
    match refusal(bytes) {
        Some(cause) => Err(cause),
        None => Ok(source_bytes(bytes)),
    }
}
