//! The video codes that an EDID lists.
ghost use Rattle.std.specs.Prelude.{◌≡◌, ◌≤◌, ◌<◌, ◌+◌, ◌*◌, ◌++◌, length, flat_map, map};
ghost use Rattle.std.specs.List.{list_any};
ghost use Rattle.arrayvec.specs.ArrayVec.{array_vec_len};
ghost use Rattle.edid_cta.specs.Block.{block_bytes};
ghost use Rattle.edid_cta.specs.Hdmi.{blocks_of};
ghost use Rattle.rules_values.specs.VideoCodes.{code_of, block_svds, ext_svds, svds_of, video_codes, has_code, repeats, is_lone, has_lone_code};

use crate::block_parts::hdmi_codes;
use crate::ext_parts::blocks_of;
use arrayvec::ArrayVec;
use edid_cta::{BlockKind, DataBlock, Ext};
use edid_layout::code_of_hdmi;

/// The most codes that three extensions have room for.
pub const MAX_CODES: usize = 369;

/// The code that a byte lists, whether it is marked as native or not.
pub fn code_of(svd: u8) -> u8
    ensures { result ≡ code_of svd }
{
    match svd {
        129..=192 => svd - 128,
        _ => svd,
    }
}

/// Appends bytes for which there is room.
fn append_bytes(svds: &mut ArrayVec<u8, MAX_CODES>, bytes: &[u8])
    requires { array_vec_len svds.old + length bytes.now ≤ MAX_CODES }
    ensures items { svds.new.items ≡ svds.old.items ++ bytes.now }
    ensures len { array_vec_len svds.new ≡ array_vec_len svds.old + length bytes.now }
{
    let _ = svds.try_extend_from_slice(bytes);
}

/// Appends the bytes of a video data block.
fn append_block(svds: &mut ArrayVec<u8, MAX_CODES>, block: &DataBlock)
    requires { array_vec_len svds.old + length block.now.payload.items ≤ MAX_CODES }
    ensures items { svds.new.items ≡ svds.old.items ++ block_svds block.now }
    ensures len { array_vec_len svds.new ≤ array_vec_len svds.old + length block.now.payload.items }
{
    if matches!(block.kind, BlockKind::Video) {
        append_bytes(svds, block.payload.as_slice());
    }
}

/// Appends the bytes of the video data blocks among these.
fn append_blocks(svds: &mut ArrayVec<u8, MAX_CODES>, blocks: &[DataBlock])
    requires { array_vec_len svds.old + length (flat_map block_bytes blocks.now) ≤ MAX_CODES }
    ensures items { svds.new.items ≡ svds.old.items ++ flat_map block_svds blocks.now }
    ensures len { array_vec_len svds.new ≤ array_vec_len svds.old + length (flat_map block_bytes blocks.now) }
{
    if let [block, rest @ ..] = blocks {
        append_block(svds, block);
        append_blocks(svds, rest);
    }
}

/// Appends the bytes of an extension's video data blocks.
fn append_ext(svds: &mut ArrayVec<u8, MAX_CODES>, ext: &Ext)
    requires { array_vec_len svds.old + 123 ≤ MAX_CODES }
    ensures items { svds.new.items ≡ svds.old.items ++ ext_svds ext.now }
    ensures len { array_vec_len svds.new ≤ array_vec_len svds.old + 123 }
{
    if let Ext::Cta(cta) = ext {
        append_blocks(svds, cta.blocks.as_slice());
    }
}

/// The bytes of all video data blocks: short video descriptors (CTA-861-D, section 7.5.1).
pub fn svds(extensions: &[Ext]) -> ArrayVec<u8, MAX_CODES>
    requires { length extensions.now ≤ 3 }
    ensures { result.items ≡ svds_of extensions.now }
{
    let mut svds = ArrayVec::new();
    for ext in extensions {
        append_ext(&mut svds, ext);
    }
    svds
}

/// Appends the codes of some bytes.
fn append_codes(codes: &mut ArrayVec<u8, MAX_CODES>, bytes: &[u8])
    requires { array_vec_len codes.old + length bytes.now ≤ MAX_CODES }
    ensures items { codes.new.items ≡ codes.old.items ++ map code_of bytes.now }
    ensures len { array_vec_len codes.new ≡ array_vec_len codes.old + length bytes.now }
{
    for byte in bytes {
        codes.push(code_of(*byte));
    }
}

/// The codes of all video data blocks.
pub fn video_codes(extensions: &[Ext]) -> ArrayVec<u8, MAX_CODES>
    requires { length extensions.now ≤ 3 }
    ensures { result.items ≡ video_codes extensions.now }
{
    let mut codes = ArrayVec::new();
    append_codes(&mut codes, svds(extensions).as_slice());
    codes
}

fn has_code(codes: &[u8], code: u8) -> bool
    ensures { result ≡ has_code codes.now code }
{
    codes.iter().any(|listed| *listed == code)
}

/// Whether the code of a format stands more than once.
pub fn repeats(codes: &[u8]) -> bool
    ensures { result ≡ repeats codes.now }
{
    match codes {
        [] => false,
        [code, rest @ ..] => 0 < *code && has_code(rest, *code) || repeats(rest),
    }
}

/// Whether a code of HDMI stands for a format whose video code is not listed.
fn is_lone(codes: &[u8], hdmi: u8) -> bool
    ensures { result ≡ is_lone codes.now hdmi }
{
    let code = code_of_hdmi(hdmi);
    0 < code && !has_code(codes, code)
}

fn some_lone(codes: &[u8], hdmi: &[u8]) -> bool
    ensures { result ≡ list_any (is_lone codes.now) hdmi.now }
{
    hdmi.iter().any(|code| is_lone(codes, *code))
}

fn has_lone_code(codes: &[u8], block: &DataBlock) -> bool
    ensures { result ≡ has_lone_code codes.now block.now }
{
    block.is_hdmi() && some_lone(codes, hdmi_codes(block.payload.as_slice()))
}

fn some_block_lone(codes: &[u8], blocks: &[DataBlock]) -> bool
    ensures { result ≡ list_any (has_lone_code codes.now) blocks.now }
{
    blocks.iter().any(|block| has_lone_code(codes, block))
}

/// Whether some HDMI block has a code of a format whose video code is not among these.
pub fn some_lone_code(codes: &[u8], extensions: &[Ext]) -> bool
    ensures { result ≡ list_any (λ x. list_any (has_lone_code codes.now) (blocks_of x)) extensions.now }
{
    extensions
        .iter()
        .any(|ext| some_block_lone(codes, blocks_of(ext)))
}
