//! A DisplayID extension without what its link does not carry.
ghost use Rattle.std.specs.Prelude.{◌≡◌, ◌≤◌, ◌+◌, ◌++◌, false, length};
ghost use Rattle.arrayvec.specs.ArrayVec.{array_vec_len};
ghost use Rattle.edid_cta.specs.Ext.{ext_bytes};
ghost use Rattle.edid_displayid.specs.Formats.{data_len, is_cut};
ghost use Rattle.conversion_fit.specs.Sections.{begins_beyond, extension_with, is_beyond_there, left_block, left_data, section_with};
ghost use Rattle.conversion_fit.specs.Whole.{IsFittedRaw};

use crate::tail::zeros_after;
use arrayvec::ArrayVec;
use edid_base::{Block, append, checksum_of};
use edid_cta::{Ext, RawExt, read_ext};
use edid_displayid::{data_len, first_formats, is_cut, section_data, section_formats};
use rules_link::some_typed_beyond;
use text_core::{after, before};

/// The tag of a DisplayID extension.
const DISPLAYID: u8 = 0x70;
/// The most bytes of its data blocks.
const DATA: usize = 121;

/// Whether the data block in front lists a format that the link does not carry.
fn begins_beyond(extensions: &[Ext], bytes: &[u8]) -> bool
    requires { is_cut bytes.now ≡ false }
    ensures { result ≡ begins_beyond extensions.now bytes.now }
{
    some_typed_beyond(extensions, first_formats(bytes).as_slice())
}

/// Appends the data block in front where it stays.
fn add_block(out: &mut ArrayVec<u8, DATA>, extensions: &[Ext], bytes: &[u8])
    requires whole { is_cut bytes.now ≡ false }
    requires room { array_vec_len out.old + data_len bytes.now ≤ DATA }
    ensures items { out.new.items ≡ out.old.items ++ left_block extensions.now bytes.now }
    ensures len { array_vec_len out.new ≤ array_vec_len out.old + data_len bytes.now }
{
    if !begins_beyond(extensions, bytes) {
        append(out, before(bytes, data_len(bytes)));
    }
}

/// Appends the data blocks that stay.
#[tactic(auto, unfolding(crate::specs::Sections::left_data))]
fn add_data(out: &mut ArrayVec<u8, DATA>, extensions: &[Ext], count: &[u8], bytes: &[u8])
    requires { array_vec_len out.old + length bytes.now ≤ DATA }
    ensures items { out.new.items ≡ out.old.items ++ left_data extensions.now count.now bytes.now }
    ensures len { array_vec_len out.new ≤ array_vec_len out.old + length bytes.now }
{
    if let [_, fewer @ ..] = count {
        if !is_cut(bytes) {
            add_block(out, extensions, bytes);
            add_data(out, extensions, fewer, after(bytes, data_len(bytes)));
        }
    }
}

/// A section with these data blocks.
fn section_with(bytes: &[u8; 128], blocks: &[u8]) -> ArrayVec<u8, 126>
    requires { length blocks.now ≤ DATA }
    ensures items { result.items ≡ section_with bytes.now blocks.now }
    ensures len { array_vec_len result ≡ length blocks.now + 5 }
{
    let mut section = ArrayVec::new();
    append(
        &mut section,
        &[bytes[1], blocks.len() as u8, bytes[3], bytes[4]],
    );
    append(&mut section, blocks);
    let sum = checksum_of(section.as_slice());
    section.push(sum);
    section
}

/// An extension with such a section.
fn extension_with(bytes: &[u8; 128], blocks: &[u8]) -> Ext
    requires { length blocks.now ≤ DATA }
    ensures { ext_bytes result ≡ extension_with bytes.now blocks.now }
{
    let mut front: ArrayVec<u8, 127> = ArrayVec::new();
    front.push(DISPLAYID);
    append(&mut front, section_with(bytes, blocks).as_slice());
    append(&mut front, zeros_after(blocks.len() + 2).as_slice());
    let block = Block::ending(front.as_slice());
    read_ext(&block.bytes).unwrap()
}

/// Whether a DisplayID extension lists a format that the link does not carry.
fn is_beyond_there(extensions: &[Ext], bytes: &[u8; 128]) -> bool
    ensures { result ≡ is_beyond_there extensions.now bytes.now }
{
    some_typed_beyond(extensions, section_formats(bytes).as_slice())
}

/// The data blocks of a DisplayID extension that stay.
fn left_data(extensions: &[Ext], blocks: &[u8]) -> ArrayVec<u8, DATA>
    requires { length blocks.now ≤ DATA }
    ensures items { result.items ≡ left_data extensions.now blocks.now blocks.now }
    ensures len { array_vec_len result ≤ DATA }
{
    let mut left = ArrayVec::new();
    add_data(&mut left, extensions, blocks, blocks);
    left
}

/// An extension of another form than CTA's without what the link does not carry.
pub fn fitted_raw(extensions: &[Ext], raw: &RawExt) -> Ext
    ensures { IsFittedRaw extensions.now raw.now result }
{
    if !is_beyond_there(extensions, &raw.bytes) {
        return Ext::Raw(*raw);
    }
    let blocks = left_data(extensions, section_data(&raw.bytes));
    extension_with(&raw.bytes, blocks.as_slice())
}
