//! Data blocks without the formats that the link does not carry.
ghost use Rattle.std.specs.Prelude.{◌≡◌, ◌≤◌, ◌+◌, ◌-◌, ◌∷◌, ◌++◌, true, false, length, map, filter};
ghost use Rattle.arrayvec.specs.ArrayVec.{array_vec_len};
ghost use Rattle.edid_layout.specs.HdmiBlock.{video_place};
ghost use Rattle.conversion_fit.specs.Blocks.{codes_place, fitted, fitted_blocks, fitted_map, has_places, is_cut, is_emptied, kept_codes, lists_beyond, lists_codes, loses, part_of, stays, without_video};

use crate::codes::{PAYLOAD, add_kept, add_map};
use arrayvec::ArrayVec;
use edid_base::append;
use edid_cta::{BlockKind, DataBlock, Ext};
use edid_displayid::cta_formats;
use edid_layout::HdmiVideo;
use rules_contents::has_extended_tag;
use rules_link::{own_beyond, some_typed_beyond, svds_beyond};
use rules_values::{MAX_CODES, hdmi_codes, hdmi_of, svds};
use text_core::before;

/// The extended tag of a block of formats in 4:2:0 alone.
const VIDEO_420: u8 = 0x0e;
/// That of a map of the formats that are there in 4:2:0 too.
const MAP_420: u8 = 0x0f;

/// A data block of the same kind with other bytes.
fn with_payload(block: &DataBlock, bytes: &[u8]) -> DataBlock
    requires { length bytes.now ≤ PAYLOAD }
    ensures kind { result.kind ≡ block.now.kind }
    ensures payload { result.payload.items ≡ bytes.now }
{
    let mut payload = ArrayVec::new();
    let _ = payload.try_extend_from_slice(bytes);
    DataBlock {
        kind: block.kind,
        payload,
    }
}

fn has_places(video: Option<HdmiVideo>) -> bool
    ensures { result ≡ has_places video }
{
    match video {
        None => false,
        Some(video) => 0 < video.multi || 0 < video.stereo,
    }
}

/// Whether the link does not carry one of some bytes of video codes.
fn loses(extensions: &[Ext], svds: &[u8]) -> bool
    ensures { result ≡ loses extensions.now svds.now }
{
    svds_beyond(extensions, false, svds)
}

/// Whether an HDMI block loses what it says of formats.
fn is_cut(extensions: &[Ext], svds: &[u8], block: &DataBlock) -> bool
    ensures { result ≡ is_cut extensions.now svds.now block.now }
{
    own_beyond(extensions, hdmi_codes(block.payload.as_slice()))
        || loses(extensions, svds) && has_places(hdmi_of(block).video)
}

/// The bytes of latencies that byte 8 of an HDMI block reports.
fn latency_bytes(presence: u8) -> usize
    ensures { result ≡ video_place presence - 3 }
{
    2 * usize::from(presence / 128 % 2) + 2 * usize::from(presence / 64 % 2)
}

/// The payload of an HDMI block up to what it says of formats.
fn without_video(payload: &[u8]) -> ArrayVec<u8, PAYLOAD>
    requires { length payload.now ≤ PAYLOAD }
    ensures { result.items ≡ without_video payload.now }
{
    let mut out = ArrayVec::new();
    match payload {
        [a, b, c, d, e, f, g, presence, rest @ ..] => {
            append(
                &mut out,
                &[
                    *a,
                    *b,
                    *c,
                    *d,
                    *e,
                    *f,
                    *g,
                    *presence / 64 * 64 + *presence % 32,
                ],
            );
            append(&mut out, before(rest, latency_bytes(*presence)));
        }
        _ => append(&mut out, payload),
    }
    out
}

/// The codes that are kept of a video block.
fn kept_codes(extensions: &[Ext], svds: &[u8]) -> ArrayVec<u8, PAYLOAD>
    requires { length svds.now ≤ PAYLOAD }
    ensures { result.items ≡ kept_codes extensions.now false svds.now }
{
    let mut out = ArrayVec::new();
    add_kept(&mut out, extensions, false, svds);
    out
}

/// Those of a block of formats in 4:2:0 alone, after its tag.
fn kept_halved(extensions: &[Ext], svds: &[u8]) -> ArrayVec<u8, PAYLOAD>
    requires { 1 + length svds.now ≤ PAYLOAD }
    ensures { result.items ≡ VIDEO_420 ∷ kept_codes extensions.now true svds.now }
{
    let mut out = ArrayVec::new();
    out.push(VIDEO_420);
    add_kept(&mut out, extensions, true, svds);
    out
}

/// The map of the codes that are kept, after its tag.
fn kept_map(extensions: &[Ext], svds: &[u8], bytes: &[u8]) -> ArrayVec<u8, PAYLOAD>
    requires room { 1 + length bytes.now ≤ PAYLOAD }
    requires few { length svds.now ≤ MAX_CODES }
    ensures { result.items ≡ MAP_420 ∷ fitted_map extensions.now svds.now bytes.now }
{
    let mut out = ArrayVec::new();
    out.push(MAP_420);
    add_map(&mut out, extensions, svds, bytes);
    out
}

/// A data block without the formats that the link does not carry, where these are the bytes of all video blocks.
fn fitted(extensions: &[Ext], svds: &[u8], block: &DataBlock) -> DataBlock
    requires { length svds.now ≤ MAX_CODES }
    ensures { part_of result ≡ fitted extensions.now svds.now block.now }
{
    let payload = block.payload.as_slice();
    if matches!(block.kind, BlockKind::Video) {
        with_payload(block, kept_codes(extensions, payload).as_slice())
    } else if has_extended_tag(VIDEO_420, block) {
        with_payload(block, kept_halved(extensions, &payload[1..]).as_slice())
    } else if has_extended_tag(MAP_420, block) && loses(extensions, svds) {
        with_payload(block, kept_map(extensions, svds, &payload[1..]).as_slice())
    } else if block.is_hdmi() && is_cut(extensions, svds, block) {
        with_payload(block, without_video(payload).as_slice())
    } else {
        block.copy()
    }
}

fn lists_codes(block: &DataBlock) -> bool
    ensures { result ≡ lists_codes block.now }
{
    matches!(block.kind, BlockKind::Video) || has_extended_tag(VIDEO_420, block)
}

/// The bytes of a block of codes before the first code.
fn codes_place(block: &DataBlock) -> usize
    ensures { result ≡ codes_place block.now }
{
    if matches!(block.kind, BlockKind::Video) {
        0
    } else {
        1
    }
}

/// Whether the last code of a block goes, of which this is left.
fn is_emptied(extensions: &[Ext], svds: &[u8], block: &DataBlock, left: &DataBlock) -> bool
    requires { part_of left.now ≡ fitted extensions.now svds.now block.now }
    ensures { result ≡ is_emptied extensions.now svds.now block.now }
{
    let place = codes_place(block);
    lists_codes(block) && place < block.payload.len() && left.payload.len() == place
}

/// Whether a block lists a format of DisplayID that the link does not carry.
fn lists_beyond(extensions: &[Ext], block: &DataBlock) -> bool
    ensures { result ≡ lists_beyond extensions.now block.now }
{
    some_typed_beyond(extensions, cta_formats(block).as_slice())
}

/// Whether a block stays of which this is left.
fn stays(extensions: &[Ext], svds: &[u8], block: &DataBlock, left: &DataBlock) -> bool
    requires { part_of left.now ≡ fitted extensions.now svds.now block.now }
    ensures { result ≡ stays extensions.now svds.now block.now }
{
    !(lists_beyond(extensions, block) || is_emptied(extensions, svds, block, left))
}

/// Appends data blocks without the formats that the link does not carry.
fn add_fitted(
    out: &mut ArrayVec<DataBlock, 123>,
    extensions: &[Ext],
    svds: &[u8],
    blocks: &[DataBlock],
)
    requires few { length svds.now ≤ MAX_CODES }
    requires room { length out.old.items + length blocks.now ≤ 123 }
    ensures items { map part_of out.new.items ≡ map part_of out.old.items ++ map (fitted extensions.now svds.now) (filter (stays extensions.now svds.now) blocks.now) }
    ensures len { length out.new.items ≤ length out.old.items + length blocks.now }
{
    if let [block, rest @ ..] = blocks {
        let left = fitted(extensions, svds, block);
        if stays(extensions, svds, block, &left) {
            out.push(left);
        }
        add_fitted(out, extensions, svds, rest);
    }
}

/// Data blocks without the formats that the link does not carry.
pub fn fitted_blocks(extensions: &[Ext], blocks: &[DataBlock]) -> ArrayVec<DataBlock, 123>
    requires extensions { length extensions.now ≤ 3 }
    requires blocks { length blocks.now ≤ 123 }
    ensures { map part_of result.items ≡ fitted_blocks extensions.now blocks.now }
{
    let codes = svds(extensions);
    let mut out = ArrayVec::new();
    add_fitted(&mut out, extensions, codes.as_slice(), blocks);
    out
}
