//! The formats of extensions.
ghost use Rattle.std.specs.Prelude.{◌≡◌, ◌≤◌, ◌+◌, ◌++◌, flat_map, length};
ghost use Rattle.arrayvec.specs.ArrayVec.{array_vec_len};
ghost use Rattle.edid_cta.specs.Block.{block_bytes};
ghost use Rattle.edid_displayid.specs.Formats.{cta_formats, ext_formats, has_formats, is_listing, typed_formats};

use crate::bytes::rest;
use crate::sections::{append_block, append_section};
use crate::timing::TypedFormat;
use arrayvec::ArrayVec;
use edid_cta::{BlockKind, DataBlock, Ext};

/// The most formats that three extensions have room for.
pub const MAX_FORMATS: usize = 369;

/// The extended tags of data blocks with timings of the types VII, VIII and X.
const SEVEN: u8 = 0x22;

const EIGHT: u8 = 0x23;

const TEN: u8 = 0x2a;
/// From here on the byte after the tag of type VIII names another kind of codes than monitor timings.
const OTHER_CODES: u8 = 64;

fn is_listing(payload: &[u8]) -> bool
    ensures { result ≡ is_listing payload.now }
{
    2 <= payload.len()
        && (payload[0] == SEVEN
            || payload[0] == TEN
            || payload[0] == EIGHT && payload[1] < OTHER_CODES)
}

fn has_formats(block: &DataBlock) -> bool
    ensures { result ≡ has_formats block.now }
{
    matches!(block.kind, BlockKind::Extended) && is_listing(block.payload.as_slice())
}

/// Appends the formats of a data block of CTA-861.
fn append_own(out: &mut ArrayVec<TypedFormat, MAX_FORMATS>, block: &DataBlock)
    requires room { array_vec_len out.old + length block.now.payload.items ≤ 369 }
    ensures items { out.new.items ≡ out.old.items ++ cta_formats block.now }
    ensures len { array_vec_len out.new ≤ array_vec_len out.old + length block.now.payload.items }
{
    if has_formats(block) {
        let payload = block.payload.as_slice();
        append_block(out, payload[0], payload[1], rest(payload, 2));
    }
}

/// The formats in the form of DisplayID of a data block of CTA-861.
pub fn cta_formats(block: &DataBlock) -> ArrayVec<TypedFormat, MAX_FORMATS>
    ensures { result.items ≡ cta_formats block.now }
{
    let mut formats = ArrayVec::new();
    append_own(&mut formats, block);
    formats
}

fn append_blocks(out: &mut ArrayVec<TypedFormat, MAX_FORMATS>, blocks: &[DataBlock])
    requires room { array_vec_len out.old + length (flat_map block_bytes blocks.now) ≤ 369 }
    ensures items { out.new.items ≡ out.old.items ++ flat_map cta_formats blocks.now }
    ensures len { array_vec_len out.new ≤ array_vec_len out.old + length (flat_map block_bytes blocks.now) }
{
    if let [block, rest @ ..] = blocks {
        append_own(out, block);
        append_blocks(out, rest);
    }
}

fn append_ext(out: &mut ArrayVec<TypedFormat, MAX_FORMATS>, ext: &Ext)
    requires room { array_vec_len out.old + 123 ≤ 369 }
    ensures items { out.new.items ≡ out.old.items ++ ext_formats ext.now }
    ensures len { array_vec_len out.new ≤ array_vec_len out.old + 123 }
{
    match ext {
        Ext::Cta(cta) => append_blocks(out, cta.blocks.as_slice()),
        Ext::Bare(_) => {}
        Ext::Raw(raw) => append_section(out, &raw.bytes),
    }
}

/// The formats in the form of DisplayID that extensions have, in their order.
pub fn typed_formats(extensions: &[Ext]) -> ArrayVec<TypedFormat, MAX_FORMATS>
    requires { length extensions.now ≤ 3 }
    ensures { result.items ≡ typed_formats extensions.now }
{
    let mut formats = ArrayVec::new();
    for ext in extensions {
        append_ext(&mut formats, ext);
    }
    formats
}
