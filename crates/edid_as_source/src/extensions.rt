//! The extensions that a source takes.
ghost use Rattle.std.specs.Prelude.{◌≡◌, ◌≤◌, ◌+◌, ◌*◌, ◌++◌, length};
ghost use Rattle.arrayvec.specs.ArrayVec.{array_vec_len};
ghost use Rattle.edid_as_source.specs.Extensions.{blocks_taken, is_taken, mended_extension, overridden, with_override};

use crate::count::begins_with_override;
use arrayvec::ArrayVec;
use edid_base::{Block, append, is_summed, part};
use text_core::byte_at;

/// The tag of an extension of CTA-861.
const CTA_TAG: u8 = 2;

/// Whether a source takes an extension: its checksum is right, or it is one of CTA-861.
pub fn is_taken(block: &[u8]) -> bool
    ensures { result ≡ is_taken block.now }
{
    is_summed(block) || byte_at(block, 0) == CTA_TAG
}

/// An extension with its right checksum.
pub fn mended_extension(block: &[u8]) -> [u8; 128]
    requires { length block.now ≡ 128 }
    ensures { result ≡ mended_extension block.now }
{
    let (front, _checksum) = block.split_at(127);
    Block::ending(front).bytes
}

/// Adds those of so many blocks that are taken, as many as there is room for.
#[tactic(auto, using(crate::proofs::Taking::taken_onto, crate::proofs::Taking::left_onto))]
pub fn push_blocks(room: u8, count: u8, rest: &[u8], taken: &mut ArrayVec<u8, 384>)
    requires there { 128 * count ≤ length rest.now }
    requires room { array_vec_len taken.old + 128 * room ≤ 384 }
    ensures items { taken.new.items ≡ taken.old.items ++ blocks_taken room count rest.now }
    ensures most { length taken.new.items ≤ 384 }
{
    if room == 0 || count == 0 {
        return;
    }
    let (block, after) = rest.split_at(128);
    if is_taken(block) {
        append(taken, &mended_extension(block));
        push_blocks(room - 1, count - 1, after, taken);
    } else {
        push_blocks(room, count - 1, after, taken);
    }
}

// An extension that begins with an override, which counts so many, with its right checksum.
fn with_override(count: u8, block: &[u8]) -> [u8; 128]
    requires { 128 ≤ length block.now }
    ensures { result ≡ with_override count block.now }
{
    let mut front: ArrayVec<u8, 127> = ArrayVec::new();
    append(&mut front, &part::<6>(block, 0));
    front.push(count);
    append(&mut front, &part::<120>(block, 7));
    Block::ending(front.as_slice()).bytes
}

/// Adds extensions, of which an override counts so many where they begin with one.
pub fn push_overridden(count: u8, blocks: &[u8], mended: &mut ArrayVec<u8, 512>)
    requires { array_vec_len mended.old + length blocks.now ≤ 512 }
    ensures { mended.new.items ≡ mended.old.items ++ overridden count blocks.now }
{
    if begins_with_override(blocks) {
        let (_first, others) = blocks.split_at(128);
        append(mended, &with_override(count, blocks));
        append(mended, others);
    } else {
        append(mended, blocks);
    }
}
