//! The audio that an amplifier passes on in place of the television's.
ghost use Rattle.std.specs.Prelude.{◌≡◌, ◌≤◌, ◌<◌, ◌+◌, ◌-◌, ◌++◌, ◌↔◌, true, None, Some, length, flat_map, position, find, slice_set, IfSome, IfNone, IfOk, IsErr, IsTrue};
ghost use Rattle.std.specs.List.{before_first};
ghost use Rattle.edid_base.specs.Bytes.{are_bytes};
ghost use Rattle.edid_base.specs.Timing.{timing_bytes};
ghost use Rattle.edid_cta.specs.Block.{block_bytes};
ghost use Rattle.edid_cta.specs.Ext.{ext_bytes};
ghost use Rattle.edid_cta.specs.Hdmi.{is_hdmi, blocks_of, address_of, address_place, bytes_with_address};
ghost use Rattle.edid_cta.specs.Audio.{is_audio, amplifier_audio, bytes_with_audio, growth, shrinkage, ends_in_zeros, tail_with, heard_bytes, heard_place, IsHeard, IsUnheard};

use crate::block::{BlockKind, DataBlock, copies_of};
use crate::cta::Cta;
use crate::ext::append_timings;
use crate::hdmi::{NoHdmiBlock, write_with_address};
use crate::raw::Ext;
use crate::reading::read_timings;
use arrayvec::ArrayVec;
use edid_base::{Timing, append, are_zeros};
use text_core::Phys;

/// The short audio descriptors of an amplifier's audio data block: eight channels of linear PCM, and six of AC-3.
const AMPLIFIER_AUDIO: [u8; 6] = [0x0f, 0x7f, 0x07, 0x15, 0x07, 0x50];

/// The amplifier's audio data block.
fn amplifier_block() -> DataBlock
    ensures bytes { block_bytes result ≡ amplifier_audio }
    ensures audio { is_audio result ≡ true }
{
    let mut payload = ArrayVec::new();
    append(&mut payload, &AMPLIFIER_AUDIO);
    DataBlock {
        kind: BlockKind::Audio,
        payload,
    }
}

/// The first audio block.
fn first_audio(blocks: &[DataBlock]) -> Option<usize>
    ensures { result ≡ position is_audio blocks.now }
{
    blocks.iter().position(|block| block.is_audio())
}

/// Puts a data block in the place of another.
fn put(blocks: &mut ArrayVec<DataBlock, 123>, index: usize, block: DataBlock)
    requires { index < length blocks.old.items }
    ensures { blocks.new.items ≡ slice_set blocks.old.items index block }
{
    blocks[index] = block;
}

/// The same data blocks, where the first audio block is the amplifier's.
fn bytes_with_audio(blocks: &[DataBlock], index: usize) -> ArrayVec<DataBlock, 123>
    requires few { length blocks.now ≤ 123 }
    requires first { position is_audio blocks.now ≡ Some index }
    ensures bytes { flat_map block_bytes result.items ≡ bytes_with_audio blocks.now }
    ensures hdmi { find is_hdmi result.items ≡ find is_hdmi blocks.now }
    ensures before { flat_map block_bytes (before_first is_hdmi result.items) ≡ bytes_with_audio (before_first is_hdmi blocks.now) }
{
    let mut copies = copies_of(blocks);
    put(&mut copies, index, amplifier_block());
    copies
}

/// By how many bytes the data blocks grow, and by how many they shrink.
fn growth(blocks: &[DataBlock], index: usize) -> (usize, usize)
    requires first { position is_audio blocks.now ≡ Some index }
    ensures less { result.0 ≡ growth blocks.now }
    ensures more { result.1 ≡ shrinkage blocks.now }
    ensures few { result.1 ≤ 25 }
{
    let old = blocks[index].payload.len();
    (
        AMPLIFIER_AUDIO.len().saturating_sub(old),
        old.saturating_sub(AMPLIFIER_AUDIO.len()),
    )
}

/// Whether so many zeros stand at the end.
fn ends_in_zeros(bytes: &[u8], count: usize) -> bool
    ensures { result ≡ ends_in_zeros count bytes.now }
{
    count <= bytes.len() && are_zeros(&bytes[bytes.len() - count..])
}

/// A tail with fewer or more zeros at its end.
#[tactic(auto, using(crate::proofs::Hearing::zeros_front))]
fn tail_with(tail: &[u8], less: usize, more: usize) -> ArrayVec<u8, 123>
    requires less { less ≤ length tail.now }
    requires more { more ≤ 25 }
    requires room { (length tail.now - less) + more ≤ 123 }
    ensures { result.items ≡ tail_with less more tail.now }
{
    let mut bytes = ArrayVec::new();
    append(&mut bytes, &tail[..tail.len() - less]);
    append(&mut bytes, &[0; 25][..more]);
    bytes
}

/// The bytes after the data blocks, with fewer or more zeros at their end.
fn bytes_after_blocks(timings: &[Timing], tail: &[u8]) -> ArrayVec<u8, 123>
    requires { length (flat_map timing_bytes timings.now) + length tail.now ≤ 123 }
    ensures { result.items ≡ flat_map timing_bytes timings.now ++ tail.now }
{
    let mut bytes = ArrayVec::new();
    append_timings(&mut bytes, timings);
    append(&mut bytes, tail);
    bytes
}

/// These bytes as a tail.
fn tail_of(bytes: &[u8]) -> ArrayVec<u8, 123>
    requires { length bytes.now ≤ 123 }
    ensures items { result.items ≡ bytes.now }
    ensures fit { IsTrue (are_bytes result.items) }
{
    let mut tail = ArrayVec::new();
    append(&mut tail, bytes);
    tail
}

/// Data blocks, and the timings and the tail that these bytes spell.
fn made_of(flags: u8, blocks: ArrayVec<DataBlock, 123>, bytes: &[u8]) -> Cta
    requires { length (flat_map block_bytes blocks.items) + length bytes.now ≡ 123 }
    ensures flags { result.flags ≡ flags }
    ensures blocks { result.blocks.items ≡ blocks.items }
    ensures rest { flat_map timing_bytes result.timings.items ++ result.tail.items ≡ bytes.now }
{
    let (timings, rest) = read_timings(bytes);
    let tail = tail_of(rest);
    Cta {
        flags,
        blocks,
        timings,
        tail,
    }
}

/// The block with the amplifier's audio; none where it has no audio block, or no room for it.
fn amplified(cta: &Cta) -> Option<Cta>
    ensures none { IfNone result (IsUnheard cta.now) }
    ensures some { IfSome result (IsHeard cta.now) }
{
    let Some(index) = first_audio(cta.blocks.as_slice()) else {
        return None;
    };
    let (less, more) = growth(cta.blocks.as_slice(), index);
    if !ends_in_zeros(cta.tail.as_slice(), less) {
        return None;
    }
    let blocks = bytes_with_audio(cta.blocks.as_slice(), index);
    let tail = tail_with(cta.tail.as_slice(), less, more);
    let rest = bytes_after_blocks(cta.timings.as_slice(), tail.as_slice());
    Some(made_of(cta.flags, blocks, rest.as_slice()))
}

/// The extension with the amplifier's audio; none where it stays as it is.
// The frame of the caller is kept free of what is made on the way.
#[inline(never)]
fn heard_extension(ext: &Ext) -> Option<Ext>
    ensures bytes { IfSome result (λ e. ext_bytes e ≡ heard_bytes ext.now) }
    ensures addressed { IfSome result (λ e. address_of e ≡ address_of ext.now) }
    ensures place { IfSome result (λ e. address_place (blocks_of e) ≡ heard_place ext.now) }
    ensures same { IfNone result (ext_bytes ext.now ≡ heard_bytes ext.now) }
    ensures stays { IfNone result (address_place (blocks_of ext.now) ≡ heard_place ext.now) }
{
    if let Ext::Cta(cta) = ext {
        if let Some(heard) = amplified(cta) {
            return Some(Ext::Cta(heard));
        }
    }
    None
}

/// The extension that an amplifier passes on: its first audio block is the amplifier's. What follows moves, zeros
/// at the end make up for it, and the checksum is mended. Where the tail ends in too few zeros, and where there is
/// no audio block, the extension stays as it is.
pub fn with_audio(ext: &Ext) -> Ext
    ensures bytes { ext_bytes result ≡ heard_bytes ext.now }
    ensures addressed { address_of result ≡ address_of ext.now }
    ensures place { address_place (blocks_of result) ≡ heard_place ext.now }
{
    match heard_extension(ext) {
        None => ext.copy(),
        Some(heard) => heard,
    }
}

/// The 128 bytes of the extension that [`with_audio`] gives, with another physical address in its first HDMI block, as
/// [`write_with_address`] has it.
pub fn write_with_audio(ext: &Ext, address: Phys) -> Result<[u8; 128], NoHdmiBlock>
    ensures bytes { IfOk result (λ bytes. bytes ≡ bytes_with_address (heard_bytes ext.now) (heard_place ext.now) address) }
    ensures refused { IsErr result ↔ (address_of ext.now ≡ None) }
{
    match heard_extension(ext) {
        None => write_with_address(ext, address),
        Some(heard) => write_with_address(&heard, address),
    }
}
