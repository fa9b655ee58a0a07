//! Reading and writing a whole extension block.
ghost use Rattle.std.specs.Prelude.{◌≡◌, ◌≢◌, ◌%◌, ◌+◌, ◌≤◌, ◌++◌, ◌∷◌, [], IfOk, OnErr, IfSome, IfNone, IsTrue, sum, length, flat_map, slice_index};
ghost use Rattle.arrayvec.specs.ArrayVec.{array_vec_len};
ghost use Rattle.edid_base.specs.Bytes.{are_bytes};
ghost use Rattle.edid_base.specs.Timing.{timing_bytes};
ghost use Rattle.edid_cta.specs.Block.{block_bytes};
ghost use Rattle.edid_cta.specs.Cta.{cta_front, is_tail};
ghost use Rattle.edid_cta.specs.Whole.{cta_bytes, bare_bytes};
ghost use Rattle.edid_cta.specs.Ext.{ext_bytes};
ghost use Rattle.edid_base.specs.Check.{block_with_checksum};
ghost use Rattle.edid_cta.specs.declared.cta.Cta.{Cta as CtaValue};
ghost use Rattle.edid_cta.specs.declared.cta.Bare.{Bare as BareValue};
ghost use Rattle.edid_cta.specs.declared.raw.Ext.{Ext as ExtValue};

use crate::block::DataBlock;
use crate::cta::{Bare, Cta};
use crate::raw::{Ext, RawExt};
use crate::reading::{read_blocks, read_timings};
use arrayvec::ArrayVec;
use edid_base::{Timing, append, is_summed, part};
use thiserror::Error;

/// Why 128 bytes are no extension: their sum is wrong.
#[derive(Clone, Copy, Debug, PartialEq, Eq, Error)]
pub enum ExtError {
    /// The sum of the bytes is not 0 modulo 256.
    #[error("a wrong checksum")]
    Checksum,
}

/// The timings and the tail of the CTA block that 128 bytes spell; its data blocks are put into an empty list. They are
/// large, and so read where they stand.
fn read_cta(
    bytes: &[u8; 128],
    blocks: &mut ArrayVec<DataBlock, 123>,
) -> Option<(ArrayVec<Timing, 6>, ArrayVec<u8, 123>)>
    requires summed { sum bytes.now % 256 ≡ 0 }
    requires fresh { blocks.old.items ≡ [] }
    ensures found { IfSome result (λ r. block_with_checksum (cta_front (slice_index bytes.now 3) blocks.new.items r.0.items r.1.items) ≡ bytes.now) }
    ensures whole { IfSome result (λ r. length (flat_map block_bytes blocks.new.items) + length (flat_map timing_bytes r.0.items) + length r.1.items ≡ 123) }
    ensures ended { IfSome result (λ r. IsTrue (is_tail r.1.items)) }
    ensures bytes_fit { IfSome result (λ r. IsTrue (are_bytes (slice_index bytes.now 3 ∷ r.1.items))) }
    ensures none { IfNone result ((c : CtaValue) → cta_bytes c ≡ bytes.now → ⊥) }
{
    if bytes[0] != 2 || bytes[1] != 3 {
        return None;
    }
    let end = bytes[2] as usize;
    if end < 4 || end > 127 {
        return None;
    }
    read_blocks(&bytes[4..end], blocks)?;
    let (timings, rest) = read_timings(&bytes[end..127]);
    let mut tail = ArrayVec::new();
    append(&mut tail, rest);
    Some((timings, tail))
}

fn read_bare(bytes: &[u8; 128]) -> Option<Bare>
    requires { sum bytes.now % 256 ≡ 0 }
    ensures found { IfSome result (λ b. bare_bytes b ≡ bytes.now) }
    ensures none { IfNone result ((b : BareValue) → bare_bytes b ≡ bytes.now → ⊥) }
{
    if bytes[0] != 2 || bytes[1] != 3 || bytes[2] != 0 {
        return None;
    }
    Some(Bare {
        flags: bytes[3],
        tail: part(bytes, 4),
    })
}

/// The extension that 128 bytes spell.
pub fn read_ext(bytes: &[u8; 128]) -> Result<Ext, ExtError>
    ensures found { IfOk result (λ e. ext_bytes e ≡ bytes.now) }
    ensures only { (e : ExtValue) → bytes.now ≡ ext_bytes e → result ≡ Ok e }
    ensures refused { OnErr result (sum bytes.now % 256 ≢ 0) }
{
    if !is_summed(bytes) {
        return Err(ExtError::Checksum);
    }
    let mut blocks = ArrayVec::new();
    if let Some((timings, tail)) = read_cta(bytes, &mut blocks) {
        return Ok(Ext::Cta(Cta {
            flags: bytes[3],
            blocks,
            timings,
            tail,
        }));
    }
    if let Some(bare) = read_bare(bytes) {
        return Ok(Ext::Bare(bare));
    }
    Ok(Ext::Raw(RawExt { bytes: *bytes }))
}

fn append_blocks(out: &mut ArrayVec<u8, 123>, blocks: &[DataBlock])
    requires { array_vec_len out.old + length (flat_map block_bytes blocks.now) ≤ 123 }
    ensures { out.new.items ≡ out.old.items ++ flat_map block_bytes blocks.now }
{
    for block in blocks {
        append(out, block.write().as_slice());
    }
}

/// Appends the bytes of timings for which there is room.
pub fn append_timings(out: &mut ArrayVec<u8, 123>, timings: &[Timing])
    requires { array_vec_len out.old + length (flat_map timing_bytes timings.now) ≤ 123 }
    ensures { out.new.items ≡ out.old.items ++ flat_map timing_bytes timings.now }
{
    for timing in timings {
        append(out, &timing.write());
    }
}

fn spelled(head: &[u8; 4], body: &[u8]) -> [u8; 128]
    requires { length body.now ≡ 123 }
    ensures { result ≡ block_with_checksum (head.now ++ body.now) }
{
    let mut front: ArrayVec<u8, 127> = ArrayVec::new();
    append(&mut front, head);
    append(&mut front, body);
    edid_base::Block::ending(front.as_slice()).bytes
}

/// The 128 bytes that spell an extension.
pub fn write_ext(ext: &Ext) -> [u8; 128]
    ensures { result ≡ ext_bytes ext.now }
{
    match ext {
        Ext::Cta(cta) => write_cta(cta),
        Ext::Bare(bare) => spelled(&[2, 3, 0, bare.flags], &bare.tail),
        Ext::Raw(raw) => raw.bytes,
    }
}

fn write_cta(cta: &Cta) -> [u8; 128]
    ensures { result ≡ cta_bytes cta.now }
{
    let mut body = ArrayVec::new();
    append_blocks(&mut body, cta.blocks.as_slice());
    let end = body.len() as u8 + 4;
    append_timings(&mut body, cta.timings.as_slice());
    append(&mut body, cta.tail.as_slice());
    spelled(&[2, 3, end, cta.flags], body.as_slice())
}
