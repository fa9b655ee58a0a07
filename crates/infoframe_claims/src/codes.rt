//! Which formats a display takes by their video codes.
ghost use Rattle.std.specs.Prelude.{◌≡◌, ◌≤◌, ◌+◌, length};
ghost use Rattle.std.specs.List.{list_any};
ghost use Rattle.edid_cta.specs.Hdmi.{blocks_of};
ghost use Rattle.infoframe_claims.specs.Codes.{descriptors_have, has_timing, is_among, is_near, is_of_mode, lists_420, lists_code, lists_hdmi, maps, marks, some_map, some_of_mode};

use crate::bits::has_bit;
use crate::features::has_tag;
use edid_base::{Base, Timing};
use edid_cta::{BlockKind, DataBlock, Ext};
use edid_modes::{ModeTiming, code_timing};
use rules_values::{blocks_of, code_of, hdmi_codes, timings_of, video_codes};
use text_core::{after, byte_at};

/// The extended tags of the blocks of YCbCr 4:2:0.
pub(crate) const VIDEO_420: u8 = 14;

pub(crate) const MAP_420: u8 = 15;
/// The code of 640x480 at 60 Hz.
const VGA: u8 = 1;

fn is_among(code: u8, codes: &[u8]) -> bool
    ensures { result ≡ is_among code codes.now }
{
    codes.iter().any(|c| *c == code)
}

fn descriptors_have(code: u8, svds: &[u8]) -> bool
    ensures { result ≡ descriptors_have code svds.now }
{
    svds.iter().any(|svd| code_of(*svd) == code)
}

/// Whether a video data block lists a code.
pub(crate) fn lists_code(code: u8, block: &DataBlock) -> bool
    ensures { result ≡ lists_code code block.now }
{
    matches!(block.kind, BlockKind::Video) && descriptors_have(code, block.payload.as_slice())
}

/// Whether a YCbCr 4:2:0 video data block lists a code.
pub(crate) fn lists_420(code: u8, block: &DataBlock) -> bool
    ensures { result ≡ lists_420 code block.now }
{
    has_tag(VIDEO_420, block) && descriptors_have(code, after(block.payload.as_slice(), 1))
}

/// Whether an HDMI block lists a code of HDMI's own.
pub(crate) fn lists_hdmi(code: u8, block: &DataBlock) -> bool
    ensures { result ≡ lists_hdmi code block.now }
{
    block.is_hdmi() && is_among(code, hdmi_codes(block.payload.as_slice()))
}

fn marks(bytes: &[u8], place: usize, codes: &[u8], code: u8) -> bool
    requires few { place + length codes.now ≤ 1000 }
    ensures { result ≡ marks bytes.now place codes.now code }
{
    let [first, others @ ..] = codes else {
        return false;
    };
    *first == code && has_bit(byte_at(bytes, place / 8), (place % 8) as u8)
        || marks(bytes, place + 1, others, code)
}

fn maps(codes: &[u8], code: u8, block: &DataBlock) -> bool
    requires few { length codes.now ≤ 1000 }
    ensures { result ≡ maps codes.now code block.now }
{
    let payload = block.payload.as_slice();
    has_tag(MAP_420, block)
        && (payload.len() == 1 && is_among(code, codes) || marks(after(payload, 1), 0, codes, code))
}

fn some_maps(codes: &[u8], code: u8, blocks: &[DataBlock]) -> bool
    requires few { length codes.now ≤ 1000 }
    ensures { result ≡ list_any (maps codes.now code) blocks.now }
{
    let [block, others @ ..] = blocks else {
        return false;
    };
    maps(codes, code, block) || some_maps(codes, code, others)
}

fn any_maps(codes: &[u8], code: u8, extensions: &[Ext]) -> bool
    requires few { length codes.now ≤ 1000 }
    ensures { result ≡ list_any (λ x. list_any (maps codes.now code) (blocks_of x)) extensions.now }
{
    let [ext, others @ ..] = extensions else {
        return false;
    };
    some_maps(codes, code, blocks_of(ext)) || any_maps(codes, code, others)
}

/// Whether a map of YCbCr 4:2:0 marks a code.
pub(crate) fn some_map(extensions: &[Ext], code: u8) -> bool
    requires few { length extensions.now ≤ 3 }
    ensures { result ≡ some_map extensions.now code }
{
    let codes = video_codes(extensions);
    any_maps(codes.as_slice(), code, extensions)
}

fn is_near(left: u32, right: u32) -> bool
    ensures { result ≡ is_near left right }
{
    u64::from(left) * 200 <= u64::from(right) * 201
        && u64::from(right) * 200 <= u64::from(left) * 201
}

fn is_of_mode(mode: ModeTiming, timing: &Timing) -> bool
    ensures { result ≡ is_of_mode mode timing.now }
{
    is_near(mode.clock, u32::from(timing.clock))
        && mode.width == u32::from(timing.horizontal_active)
        && mode.horizontal_blanking == u32::from(timing.horizontal_blanking)
        && mode.height == u32::from(timing.vertical_active)
        && mode.vertical_blanking == u32::from(timing.vertical_blanking)
        && mode.flags / 128 == timing.flags / 128
}

fn has_mode(mode: ModeTiming, timings: &[Timing]) -> bool
    ensures { result ≡ list_any (is_of_mode mode) timings.now }
{
    timings.iter().any(|timing| is_of_mode(mode, timing))
}

fn some_of_mode(mode: Option<ModeTiming>, timings: &[Timing]) -> bool
    ensures { result ≡ some_of_mode mode timings.now }
{
    match mode {
        None => false,
        Some(mode) => has_mode(mode, timings),
    }
}

/// Whether a display has the format of a code by a detailed timing, or as each display has it.
pub(crate) fn has_timing(code: u8, base: &Base, extensions: &[Ext]) -> bool
    requires few { length extensions.now ≤ 3 }
    ensures { result ≡ has_timing code base.now extensions.now }
{
    code == VGA
        || some_of_mode(
            code_timing(u64::from(code)),
            timings_of(base, extensions).as_slice(),
        )
}
