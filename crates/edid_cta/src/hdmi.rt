//! The physical address in an extension, which stands in its first HDMI block: the vendor specific data block of HDMI (HDMI
//! VSDB: HDMI 1.4, section 8.3.2).
ghost use Rattle.std.specs.Prelude.{◌≡◌, ◌↔◌, ◌≤◌, ◌<◌, ◌+◌, ◌-◌, None, Some, IfOk, IsErr, IsTrue, IsSome, MatchOption, length, flat_map, position, slice_set, take};
ghost use Rattle.edid_cta.specs.Block.{block_bytes};
ghost use Rattle.edid_base.specs.Check.{block_with_checksum};
ghost use Rattle.edid_cta.specs.Ext.{ext_bytes};
ghost use Rattle.edid_cta.specs.Hdmi.{has_identifier, is_hdmi, phys_at, blocks_of, address_of, address_place, bytes_with_address};

use crate::block::DataBlock;
use crate::ext::{read_ext, write_ext};
use crate::raw::Ext;
use byteorder::{BigEndian, ByteOrder};
use text_core::Phys;
use thiserror::Error;

/// An extension has no HDMI block, so no physical address stands in it.
#[derive(Clone, Copy, Debug, PartialEq, Eq, Error)]
#[error("no HDMI block")]
pub struct NoHdmiBlock;

/// Whether the payload of a vendor block is HDMI's: it begins with the identifier 00-0C-03, its lowest byte first, and two
/// bytes of an address stand after it (HDMI 1.4, section 8.3.2).
pub fn has_identifier(payload: &[u8]) -> bool
    ensures { result ≡ has_identifier payload.now }
{
    matches!(payload, [0x03, 0x0c, 0x00, _, _, ..])
}

/// The data blocks of an extension.
fn blocks_of(ext: &Ext) -> &[DataBlock]
    ensures { result.now ≡ blocks_of ext.now }
{
    match ext {
        Ext::Cta(cta) => cta.blocks.as_slice(),
        Ext::Bare(_) | Ext::Raw(_) => &[],
    }
}

/// The physical address in an HDMI block.
fn address_in(block: &DataBlock) -> Phys
    requires { IsTrue (is_hdmi block.now) }
    ensures { result ≡ phys_at block.now.payload.items }
{
    let number = BigEndian::read_u16(&block.payload.as_slice()[3..5]);
    let [high, low] = number.to_be_bytes();
    Phys { high, low }
}

/// How many bytes some data blocks take.
fn spelled_len(blocks: &[DataBlock]) -> usize
    requires { length (flat_map block_bytes blocks.now) ≤ 123 }
    ensures { result ≡ length (flat_map block_bytes blocks.now) }
{
    let mut len = 0;
    for block in blocks {
        len += 1 + block.payload.len();
    }
    len
}

/// The first HDMI block.
fn first_hdmi(blocks: &[DataBlock]) -> Option<usize>
    ensures { result ≡ position is_hdmi blocks.now }
{
    blocks.iter().position(|block| block.is_hdmi())
}

/// Where the address of the first HDMI block stands in the block's bytes.
fn address_place(ext: &Ext) -> Option<usize>
    ensures { MatchOption result (address_of ext.now ≡ None)
        (λ place. (place ≡ address_place (blocks_of ext.now)) × (place < 126) × IsSome (address_of ext.now)) }
{
    let blocks = blocks_of(ext);
    let index = first_hdmi(blocks)?;
    Some(8 + spelled_len(&blocks[..index]))
}

/// Writes an address at a place.
fn put_address(bytes: &mut [u8], place: usize, address: Phys)
    requires { place + 1 < length bytes.old }
    ensures { bytes.new ≡ slice_set (slice_set bytes.old place address.high) (place + 1) address.low }
{
    let number = u16::from_be_bytes([address.high, address.low]);
    BigEndian::write_u16(&mut bytes[place..place + 2], number);
}

/// A block with its checksum mended.
fn sealed(block: &[u8]) -> [u8; 128]
    requires { length block.now ≡ 128 }
    ensures { result ≡ block_with_checksum (take 127 block.now) }
{
    let (front, _) = block.split_at(127);
    edid_base::Block::ending(front).bytes
}

/// A block's bytes with another address at a place, and the checksum mended.
fn bytes_with_address(bytes: &[u8; 128], place: usize, address: Phys) -> [u8; 128]
    requires { place < 126 }
    ensures { result ≡ bytes_with_address bytes.now place address }
{
    let mut bytes = *bytes;
    put_address(&mut bytes, place, address);
    sealed(&bytes)
}

/// The physical address that the first HDMI block has, where there is one.
pub fn hdmi_address(ext: &Ext) -> Option<Phys>
    ensures { result ≡ address_of ext.now }
{
    let block = blocks_of(ext).iter().find(|block| block.is_hdmi())?;
    Some(address_in(block))
}

/// The 128 bytes of the extension that [`with_address`] gives: as a value an extension is large.
pub fn write_with_address(ext: &Ext, address: Phys) -> Result<[u8; 128], NoHdmiBlock>
    ensures bytes { IfOk result (λ bytes. bytes ≡ bytes_with_address (ext_bytes ext.now) (address_place (blocks_of ext.now)) address) }
    ensures refused { IsErr result ↔ (address_of ext.now ≡ None) }
{
    match address_place(ext) {
        None => Err(NoHdmiBlock),
        Some(place) => Ok(bytes_with_address(&write_ext(ext), place, address)),
    }
}

/// The extension with another physical address: the two bytes of the address in the first HDMI
/// block change, and the checksum; all other bytes stay. Without an HDMI block it is refused.
pub fn with_address(ext: &Ext, address: Phys) -> Result<Ext, NoHdmiBlock>
    ensures bytes { IfOk result (λ e. ext_bytes e ≡ bytes_with_address (ext_bytes ext.now) (address_place (blocks_of ext.now)) address) }
    ensures addressed { IfOk result (λ e. address_of e ≡ Some address) }
    ensures refused { IsErr result ↔ (address_of ext.now ≡ None) }
{
    let place = address_place(ext).ok_or(NoHdmiBlock)?;
    Ok(read_ext(&bytes_with_address(&write_ext(ext), place, address)).unwrap())
}
