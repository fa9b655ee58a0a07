//! What the rules ask of extensions.
ghost use Rattle.std.specs.Prelude.{◌≡◌, ◌≤◌, length, nat_lt, count_by};
ghost use Rattle.std.specs.List.{list_any};
ghost use Rattle.edid_cta.specs.Hdmi.{blocks_of, is_hdmi};
ghost use Rattle.rules_values.specs.BlockParts.{is_sought};
ghost use Rattle.rules_values.specs.ExtParts.{is_cta, is_block_map, begins_with_map, overscans, is_dummy, after_dummies, is_padding, has_ill_padding, native_count, hides_sound, some_block, hdmi_count, has_forum_first};

use crate::block_parts::{Sought, begins_with_forum, is_sought};
use edid_base::are_zeros;
use edid_cta::{DataBlock, Ext};

/// The first byte of an extension that is a block map.
const BLOCK_MAP_TAG: u8 = 0xf0;
/// The bytes of a descriptor.
const DESCRIPTOR: usize = 18;
/// The most descriptors that a block has room for.
const MOST_DESCRIPTORS: usize = 6;
/// The tag of a descriptor that is not used.
const DUMMY_TAG: u8 = 0x10;

/// The data blocks of an extension.
pub fn blocks_of(ext: &Ext) -> &[DataBlock]
    ensures blocks { result.now ≡ blocks_of ext.now }
    ensures few { length result.now ≤ 123 }
{
    match ext {
        Ext::Cta(cta) => cta.blocks.as_slice(),
        Ext::Bare(_) | Ext::Raw(_) => &[],
    }
}

fn is_cta(ext: &Ext) -> bool
    ensures { result ≡ is_cta ext.now }
{
    match ext {
        Ext::Cta(_) | Ext::Bare(_) => true,
        Ext::Raw(_) => false,
    }
}

pub fn some_cta(extensions: &[Ext]) -> bool
    ensures { result ≡ list_any is_cta extensions.now }
{
    extensions.iter().any(|ext| is_cta(ext))
}

fn is_block_map(ext: &Ext) -> bool
    ensures { result ≡ is_block_map ext.now }
{
    match ext {
        Ext::Raw(raw) => raw.bytes[0] == BLOCK_MAP_TAG,
        Ext::Cta(_) | Ext::Bare(_) => false,
    }
}

/// Whether the first extension is a map of them.
pub fn begins_with_map(extensions: &[Ext]) -> bool
    ensures { result ≡ begins_with_map extensions.now }
{
    match extensions.first() {
        None => false,
        Some(ext) => is_block_map(ext),
    }
}

fn overscans(ext: &Ext) -> bool
    ensures { result ≡ overscans ext.now }
{
    match ext {
        Ext::Cta(cta) => cta.flags < 128,
        Ext::Bare(_) | Ext::Raw(_) => false,
    }
}

pub fn some_overscan(extensions: &[Ext]) -> bool
    ensures { result ≡ list_any overscans extensions.now }
{
    extensions.iter().any(|ext| overscans(ext))
}

/// Whether 18 bytes are a dummy descriptor.
fn is_dummy(bytes: &[u8]) -> bool
    requires { length bytes.now ≡ DESCRIPTOR }
    ensures { result ≡ is_dummy bytes.now }
{
    are_zeros(&bytes[..3]) && bytes[3] == DUMMY_TAG && are_zeros(&bytes[4..])
}

/// What follows whole dummy descriptors in front, of so many at most.
#[tactic(auto, using(crate::proofs::Padding::none_follows, crate::proofs::Padding::dummy_follows, crate::proofs::Padding::other_follows))]
fn after_dummies(count: usize, bytes: &[u8]) -> &[u8]
    ensures { result.now ≡ after_dummies count bytes.now }
{
    if count == 0 || bytes.len() < DESCRIPTOR {
        return bytes;
    }
    let (descriptor, rest) = bytes.split_at(DESCRIPTOR);
    if is_dummy(descriptor) {
        after_dummies(count - 1, rest)
    } else {
        bytes
    }
}

fn is_padding(bytes: &[u8]) -> bool
    ensures { result ≡ is_padding bytes.now }
{
    are_zeros(after_dummies(MOST_DESCRIPTORS, bytes))
}

fn has_ill_padding(ext: &Ext) -> bool
    ensures { result ≡ has_ill_padding ext.now }
{
    match ext {
        Ext::Cta(cta) => !is_padding(cta.tail.as_slice()),
        Ext::Bare(_) | Ext::Raw(_) => false,
    }
}

/// Whether in some extension something else than whole dummy descriptors and zeros follows the timings.
pub fn some_ill_padding(extensions: &[Ext]) -> bool
    ensures { result ≡ list_any has_ill_padding extensions.now }
{
    extensions.iter().any(|ext| has_ill_padding(ext))
}

/// How many of the detailed timings are native.
pub fn native_count(ext: &Ext) -> usize
    ensures value { result ≡ native_count ext.now }
    ensures small { result ≤ 15 }
{
    match ext {
        Ext::Cta(cta) => usize::from(cta.flags % 16),
        Ext::Bare(_) | Ext::Raw(_) => 0,
    }
}

/// Whether some extension reports more native timings than there are.
pub fn some_native(count: usize, extensions: &[Ext]) -> bool
    ensures { result ≡ list_any (λ x. nat_lt count (native_count x)) extensions.now }
{
    extensions.iter().any(|ext| count < native_count(ext))
}

fn some_sought(sought: Sought, blocks: &[DataBlock]) -> bool
    ensures { result ≡ list_any (is_sought sought) blocks.now }
{
    blocks.iter().any(|block| is_sought(sought, block))
}

fn hides_sound(ext: &Ext) -> bool
    ensures { result ≡ hides_sound ext.now }
{
    match ext {
        Ext::Cta(cta) => {
            cta.flags / 64 % 2 == 0 && some_sought(Sought::Sound, cta.blocks.as_slice())
        }
        Ext::Bare(_) | Ext::Raw(_) => false,
    }
}

pub fn some_hidden_sound(extensions: &[Ext]) -> bool
    ensures { result ≡ list_any hides_sound extensions.now }
{
    extensions.iter().any(|ext| hides_sound(ext))
}

/// Whether some data block is what a rule looks for.
pub fn some_block(sought: Sought, extensions: &[Ext]) -> bool
    ensures { result ≡ some_block (is_sought sought) extensions.now }
{
    extensions
        .iter()
        .any(|ext| some_sought(sought, blocks_of(ext)))
}

fn hdmi_count_in(blocks: &[DataBlock]) -> usize
    ensures count { result ≡ count_by is_hdmi blocks.now }
    ensures few { result ≤ length blocks.now }
{
    blocks.iter().filter(|block| block.is_hdmi()).count()
}

/// How many HDMI blocks there are.
pub fn hdmi_count(extensions: &[Ext]) -> usize
    requires { length extensions.now ≤ 3 }
    ensures { result ≡ hdmi_count extensions.now }
{
    let mut count = 0;
    for ext in extensions {
        count += hdmi_count_in(blocks_of(ext));
    }
    count
}

fn has_forum_first(ext: &Ext) -> bool
    ensures { result ≡ has_forum_first ext.now }
{
    begins_with_forum(blocks_of(ext))
}

/// Whether an extension has an HDMI Forum block with no HDMI block before it.
pub fn some_forum_first(extensions: &[Ext]) -> bool
    ensures { result ≡ list_any has_forum_first extensions.now }
{
    extensions.iter().any(|ext| has_forum_first(ext))
}
