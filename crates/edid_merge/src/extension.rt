//! The extension of CTA-861 that a receiver answers with.
ghost use Rattle.std.specs.Prelude.{◌≡◌, ◌≤◌, ◌+◌, ◌-◌, ◌++◌, ◌∷◌, count_by, flat_map, length};
ghost use Rattle.arrayvec.specs.ArrayVec.{array_vec_len};
ghost use Rattle.edid_cta.specs.Block.{block_bytes};
ghost use Rattle.edid_cta.specs.Ext.{ext_bytes};
ghost use Rattle.edid_base.specs.Check.{block_with_checksum};
ghost use Rattle.edid_merge.specs.Merge.{cta_blocks, cta_flags, cta_of, cta_timings, fitting, has_one_cta, is_full, merged_flags, with_cta, with_zeros};

use crate::table::Whose;
use arrayvec::ArrayVec;
use edid_base::{Block, Timing, append};
use edid_cta::{DataBlock, Ext, read_ext};

/// The bytes between the flags and the checksum.
const BODY: usize = 123;

fn is_full(ext: &Ext) -> bool
    ensures { result ≡ is_full ext.now }
{
    match ext {
        Ext::Cta(_) => true,
        Ext::Bare(_) | Ext::Raw(_) => false,
    }
}

// How many extensions have data blocks.
fn full_count(extensions: &[Ext]) -> usize
    ensures value { result ≡ count_by is_full extensions.now }
    ensures few { result ≤ length extensions.now }
{
    let [ext, rest @ ..] = extensions else {
        return 0;
    };
    let others = full_count(rest);
    if is_full(ext) { others + 1 } else { others }
}

/// Whether one extension has data blocks, and no other.
pub fn has_one_cta(extensions: &[Ext]) -> bool
    ensures { result ≡ has_one_cta extensions.now }
{
    full_count(extensions) == 1
}

/// Its data blocks.
pub fn cta_blocks(extensions: &[Ext]) -> &[DataBlock]
    ensures blocks { result.now ≡ cta_blocks extensions.now }
    ensures short { length (flat_map block_bytes result.now) ≤ 123 }
{
    match extensions {
        [] => &[],
        [Ext::Cta(cta), ..] => cta.blocks.as_slice(),
        [_, rest @ ..] => cta_blocks(rest),
    }
}

/// Its flags.
pub fn cta_flags(extensions: &[Ext]) -> u8
    ensures { result ≡ cta_flags extensions.now }
{
    match extensions {
        [] => 0,
        [Ext::Cta(cta), ..] => cta.flags,
        [_, rest @ ..] => cta_flags(rest),
    }
}

/// Its timings.
pub fn cta_timings(extensions: &[Ext]) -> &[Timing]
    ensures { result.now ≡ cta_timings extensions.now }
{
    match extensions {
        [] => &[],
        [Ext::Cta(cta), ..] => cta.timings.as_slice(),
        [_, rest @ ..] => cta_timings(rest),
    }
}

/// The flags, of which that of basic audio is of the one whose audio it is.
pub fn merged_flags(audio: Whose, display: u8, own: u8) -> u8
    ensures { result ≡ merged_flags audio display own }
{
    match audio {
        Whose::Keep => display,
        Whose::Own => display / 128 * 128 + own / 64 % 2 * 64 + display % 64,
    }
}

// Adds as many timings as there is room for.
fn add_fitting(body: &mut ArrayVec<u8, BODY>, room: usize, timings: &[Timing])
    requires { array_vec_len body.old + room ≡ 123 }
    ensures items { body.new.items ≡ body.old.items ++ fitting room timings.now }
    ensures len { array_vec_len body.new ≤ 123 }
{
    match timings {
        [] => {}
        [timing, rest @ ..] => {
            if room >= 18 {
                append(body, &timing.write());
                add_fitting(body, room - 18, rest);
            }
        }
    }
}

/// Bytes, and zeros up to the checksum.
#[tactic(auto, using(crate::proofs::Zeros::zeros_front))]
pub fn with_zeros(front: &[u8]) -> ArrayVec<u8, BODY>
    requires { length front.now ≤ 123 }
    ensures items { result.items ≡ with_zeros front.now }
    ensures len { array_vec_len result ≡ 123 }
{
    let mut body = ArrayVec::new();
    append(&mut body, front);
    append(&mut body, &[0; BODY][..BODY - front.len()]);
    body
}

// Data blocks, and after them the timings that have room.
fn front_of(blocks: &[u8], timings: &[Timing]) -> ArrayVec<u8, BODY>
    requires { length blocks.now ≤ 123 }
    ensures items { result.items ≡ blocks.now ++ fitting (123 - length blocks.now) timings.now }
    ensures len { array_vec_len result ≤ 123 }
{
    let mut front = ArrayVec::new();
    append(&mut front, blocks);
    add_fitting(&mut front, BODY - blocks.len(), timings);
    front
}

/// The extension with these flags and bytes after them, whose data blocks end at a place.
pub fn cta_block(flags: u8, end: u8, body: &[u8]) -> Ext
    requires { length body.now ≡ 123 }
    ensures { ext_bytes result ≡ block_with_checksum (2 ∷ 3 ∷ end ∷ flags ∷ body.now) }
{
    let mut front: ArrayVec<u8, 127> = ArrayVec::new();
    append(&mut front, &[2, 3, end, flags]);
    append(&mut front, body);
    let block = Block::ending(front.as_slice());
    read_ext(&block.bytes).unwrap()
}

/// The extension with these flags, data blocks and timings, as many as have room.
#[tactic(auto, unfolding(crate::specs::Merge::cta_of))]
pub fn cta_of(flags: u8, blocks: &[u8], timings: &[Timing]) -> Ext
    requires { length blocks.now ≤ 123 }
    ensures { ext_bytes result ≡ cta_of flags blocks.now timings.now }
{
    let front = front_of(blocks, timings);
    let body = with_zeros(front.as_slice());
    cta_block(flags, blocks.len() as u8 + 4, body.as_slice())
}

/// The extensions, where another stands in the place of the one with data blocks.
pub fn with_cta(cta: &Ext, extensions: &[Ext], out: &mut ArrayVec<Ext, 3>)
    requires { length out.old.items + length extensions.now ≤ 3 }
    ensures bytes { flat_map ext_bytes out.new.items ≡ flat_map ext_bytes out.old.items ++ with_cta (ext_bytes cta.now) extensions.now }
    ensures count { length out.new.items ≡ length out.old.items + length extensions.now }
{
    let [ext, rest @ ..] = extensions else {
        return;
    };
    match ext {
        Ext::Cta(_) => out.push(cta.copy()),
        Ext::Bare(_) | Ext::Raw(_) => out.push(ext.copy()),
    }
    with_cta(cta, rest, out);
}
