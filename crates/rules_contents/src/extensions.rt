//! What the rules ask of extensions.
ghost use Rattle.std.specs.Prelude.{◌≡◌, ◌≤◌, ◌==◌, ◌%◌, sum, count_by};
ghost use Rattle.std.specs.List.{list_any};
ghost use Rattle.rules_values.specs.ExtParts.{some_block};
ghost use Rattle.rules_contents.specs.Contents.{is_of_sort, has_slip};
ghost use Rattle.rules_contents.specs.Extensions.{overruns, has_other_revision, is_known_tag, has_unknown_tag, section_bytes, has_wrong_section, sorts, has_two, repeats_block, fixes_ycc_range, has_fixed_ycc, is_override, has_misplaced_override, begins_low, has_low_override};

use crate::contents::{Slip, Sort, byte_at, has_extended_tag, has_slip, is_of_sort, is_override};
use edid_base::{Base, is_summed};
use edid_cta::{DataBlock, Ext};
use rules_values::blocks_of;

/// The first byte of a CTA block.
const CTA_TAG: u8 = 0x02;
/// The first byte of a DisplayID extension.
const DISPLAYID_TAG: u8 = 0x70;
/// The bytes of the header of its section, and its checksum.
const SECTION_FRAME: usize = 5;
/// The only revision of a CTA block whose parts are told apart.
const CTA_REVISION: u8 = 3;
/// The extended tag of a video capability block.
const VIDEO_CAPABILITY: u8 = 0x00;
/// The sorts of data blocks of which an extension has one at most.
pub const SORTS: [Sort; 6] = [
    Sort::VideoCapability,
    Sort::Colorimetry,
    Sort::HdrStatic,
    Sort::Map,
    Sort::Speakers,
    Sort::Forum,
];

/// Whether it is a CTA block of revision 3 that is kept as it is: its data blocks do not end where its third byte says, or its
/// timings overrun (CTA-861-D, section 7.5).
pub fn overruns(ext: &Ext) -> bool
    ensures { result ≡ overruns ext.now }
{
    match ext {
        Ext::Raw(raw) => raw.bytes[0] == CTA_TAG && raw.bytes[1] == CTA_REVISION,
        Ext::Cta(_) | Ext::Bare(_) => false,
    }
}

pub fn some_overrun(extensions: &[Ext]) -> bool
    ensures { result ≡ list_any overruns extensions.now }
{
    extensions.iter().any(|ext| overruns(ext))
}

fn has_other_revision(ext: &Ext) -> bool
    ensures { result ≡ has_other_revision ext.now }
{
    match ext {
        Ext::Raw(raw) => raw.bytes[0] == CTA_TAG && raw.bytes[1] != CTA_REVISION,
        Ext::Cta(_) | Ext::Bare(_) => false,
    }
}

/// Whether some CTA block is of another revision than 3.
pub fn some_other_revision(extensions: &[Ext]) -> bool
    ensures { result ≡ list_any has_other_revision extensions.now }
{
    extensions.iter().any(|ext| has_other_revision(ext))
}

fn is_known_tag(tag: u8) -> bool
    ensures { result ≡ is_known_tag tag }
{
    matches!(tag, 0x02 | 0x10 | 0x40 | 0x50 | 0x60 | 0x70 | 0xf0 | 0xff)
}

fn has_unknown_tag(ext: &Ext) -> bool
    ensures { result ≡ has_unknown_tag ext.now }
{
    match ext {
        Ext::Raw(raw) => !is_known_tag(raw.bytes[0]),
        Ext::Cta(_) | Ext::Bare(_) => false,
    }
}

/// Whether some extension has a tag that no standard gives.
pub fn some_unknown(extensions: &[Ext]) -> bool
    ensures { result ≡ list_any has_unknown_tag extensions.now }
{
    extensions.iter().any(|ext| has_unknown_tag(ext))
}

/// The section of a DisplayID extension, after the extension's tag.
fn section_bytes(bytes: &[u8; 128]) -> &[u8]
    ensures { result.now ≡ section_bytes bytes.now }
{
    let (_tag, rest) = bytes.split_at(1);
    let count = usize::from(bytes[2]) + SECTION_FRAME;
    if count < rest.len() {
        &rest[..count]
    } else {
        rest
    }
}

fn has_right_sum(bytes: &[u8]) -> bool
    ensures { result ≡ (sum bytes.now % 256 == 0) }
{
    is_summed(bytes)
}

fn has_wrong_section(ext: &Ext) -> bool
    ensures { result ≡ has_wrong_section ext.now }
{
    match ext {
        Ext::Raw(raw) => {
            raw.bytes[0] == DISPLAYID_TAG && !has_right_sum(section_bytes(&raw.bytes))
        }
        Ext::Cta(_) | Ext::Bare(_) => false,
    }
}

/// Whether the section of some DisplayID extension has a wrong checksum, or has more bytes than there is room for.
pub fn some_wrong_section(extensions: &[Ext]) -> bool
    ensures { result ≡ list_any has_wrong_section extensions.now }
{
    extensions.iter().any(|ext| has_wrong_section(ext))
}

/// How many of some data blocks are of a sort.
pub fn count_of_sort(sort: Sort, blocks: &[DataBlock]) -> usize
    ensures { result ≡ count_by (is_of_sort sort) blocks.now }
{
    blocks
        .iter()
        .filter(|block| is_of_sort(sort, block))
        .count()
}

/// Whether an extension has two blocks of a sort of which it has one at most.
fn repeats_block(ext: &Ext) -> bool
    ensures { result ≡ repeats_block ext.now }
{
    SORTS
        .iter()
        .any(|sort| 1 < count_of_sort(*sort, blocks_of(ext)))
}

pub fn some_repeated(extensions: &[Ext]) -> bool
    ensures { result ≡ list_any repeats_block extensions.now }
{
    extensions.iter().any(|ext| repeats_block(ext))
}

/// Whether it is a video capability block after which the range of YCbCr values can't be chosen.
pub fn fixes_ycc_range(block: &DataBlock) -> bool
    ensures { result ≡ fixes_ycc_range block.now }
{
    let payload = block.payload.as_slice();
    has_extended_tag(VIDEO_CAPABILITY, block) && 1 < payload.len() && payload[1] < 128
}

fn some_ycc_fixer(blocks: &[DataBlock]) -> bool
    ensures { result ≡ list_any fixes_ycc_range blocks.now }
{
    blocks.iter().any(|block| fixes_ycc_range(block))
}

fn has_fixed_ycc(ext: &Ext) -> bool
    ensures { result ≡ has_fixed_ycc ext.now }
{
    match ext {
        Ext::Cta(cta) => 0 < cta.flags / 16 % 4 && some_ycc_fixer(cta.blocks.as_slice()),
        Ext::Bare(_) | Ext::Raw(_) => false,
    }
}

/// Whether some CTA block has YCbCr and a range of its values that can't be chosen.
pub fn some_fixed_ycc(extensions: &[Ext]) -> bool
    ensures { result ≡ list_any has_fixed_ycc extensions.now }
{
    extensions.iter().any(|ext| has_fixed_ycc(ext))
}

fn some_override(blocks: &[DataBlock]) -> bool
    ensures { result ≡ list_any is_override blocks.now }
{
    blocks.iter().any(|block| is_override(block))
}

fn some_ext_override(extensions: &[Ext]) -> bool
    ensures { result ≡ some_block is_override extensions.now }
{
    extensions.iter().any(|ext| some_override(blocks_of(ext)))
}

/// Whether an override of the count of extensions stands elsewhere than first in the first extension.
pub fn has_misplaced_override(extensions: &[Ext]) -> bool
    ensures { result ≡ has_misplaced_override extensions.now }
{
    match extensions {
        [] => false,
        [ext, rest @ ..] => {
            let later = match blocks_of(ext) {
                [] => false,
                [_, blocks @ ..] => some_override(blocks),
            };
            later || some_ext_override(rest)
        }
    }
}

/// Whether the first of some blocks overrides the count of extensions by a lower one, or by 0.
fn begins_low(count: u8, blocks: &[DataBlock]) -> bool
    ensures { result ≡ begins_low count blocks.now }
{
    match blocks {
        [] => false,
        [block, ..] => {
            is_override(block) && (byte_at(block, 1) < count || byte_at(block, 1) == 0)
        }
    }
}

/// Whether the count of extensions is overridden by a lower one, or by 0.
pub fn has_low_override(base: &Base, extensions: &[Ext]) -> bool
    ensures { result ≡ has_low_override base.now extensions.now }
{
    match extensions {
        [] => false,
        [ext, ..] => begins_low(base.extensions, blocks_of(ext)),
    }
}

fn some_slip_in(slip: Slip, blocks: &[DataBlock]) -> bool
    ensures { result ≡ list_any (has_slip slip) blocks.now }
{
    blocks.iter().any(|block| has_slip(slip, block))
}

/// Whether this is wrong in some data block.
pub fn some_slip(slip: Slip, extensions: &[Ext]) -> bool
    ensures { result ≡ some_block (has_slip slip) extensions.now }
{
    extensions
        .iter()
        .any(|ext| some_slip_in(slip, blocks_of(ext)))
}
