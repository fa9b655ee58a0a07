//! Physical address discovery: what a device learns of its place from the EDID that it reads (HDMI 1.4, section 8.7.2).
ghost use Rattle.std.specs.Prelude.{◌≡◌, ◌+◌, ◌*◌, ◌/◌, ◌≤◌, ◌<◌, true, false, Some, IfOk, IfErr, take, drop};
ghost use Rattle.text_core.specs.declared.phys.Phys.{Phys as PhysValue};
ghost use Rattle.edid_core.specs.Address.{edid_address};
ghost use Rattle.edid_core.specs.Bytes.{edid_bytes};
ghost use Rattle.edid_core.specs.declared.edid.Edid.{Edid as EdidValue};
ghost use Rattle.edid_ddc.specs.Bus.{first_bus, has_segment};
ghost use Rattle.edid_ddc.specs.Learn.{CanBeRead, IsLearnt, IsUnread, IsUnreported, blocks_read, bytes_with_padding};

use crate::ddc::Ddc;
use crate::error::DdcError;
use arrayvec::ArrayVec;
use edid_core::{EdidError, edid_from_bytes};
use text_core::Phys;

/// Reads a block of 128 bytes.
pub(crate) fn read_block(ddc: &mut Ddc, block: u8) -> Result<[u8; 128], DdcError>
    requires { block ≤ 3 }
    ensures same { ddc.new.bytes ≡ ddc.old.bytes }
    ensures read { IfOk result (λ b. (has_segment ddc.old.bytes (block / 2) ≡ true) × (b ≡ take 128 (drop (128 * block) (bytes_with_padding ddc.old.bytes)))) }
    ensures refused { IfErr result (λ e. (has_segment ddc.old.bytes (block / 2) ≡ false) × (e ≡ DdcError.NoAck)) }
{
    ddc.segment(block / 2)?;
    ddc.offset(block % 2 * 128);
    let mut bytes = [0; 128];
    ddc.read(&mut bytes);
    Ok(bytes)
}

/// Reads the first block, and those that its byte 126 asks for.
fn read_blocks(ddc: &mut Ddc) -> Result<ArrayVec<u8, 512>, DdcError>
    ensures same { ddc.new.bytes ≡ ddc.old.bytes }
    ensures read { IfOk result (λ b. CanBeRead ddc.old.bytes × (b.items ≡ blocks_read ddc.old.bytes)) }
    ensures refused { IfErr result (λ e. IsUnread ddc.old.bytes e) }
{
    let first = read_block(ddc, 0)?;
    let asked = first[126];
    if asked > 3 {
        return Err(DdcError::Edid(EdidError::Length));
    }
    let mut blocks: ArrayVec<u8, 512> = ArrayVec::new();
    let _ = blocks.try_extend_from_slice(&first);
    for block in 0..asked {
        let next = read_block(ddc, block + 1)?;
        let _ = blocks.try_extend_from_slice(&next);
    }
    Ok(blocks)
}

/// The address in the EDID that some blocks are.
fn address_in(blocks: &[u8]) -> Result<Phys, DdcError>
    ensures reported { IfOk result (λ address. (e : EdidValue) × (edid_bytes e ≡ blocks.now) × (edid_address e ≡ Some address)) }
    ensures refused { IfErr result (λ e. IsUnreported blocks.now e) }
{
    match edid_from_bytes(blocks) {
        Err(cause) => Err(DdcError::Edid(cause)),
        Ok(edid) => match edid.address() {
            None => Err(DdcError::NoHdmiBlock),
            Some(address) => Ok(address),
        },
    }
}

/// Reads the EDID, and gives the address in it.
fn read_address(ddc: &mut Ddc) -> Result<Phys, DdcError>
    ensures same { ddc.new.bytes ≡ ddc.old.bytes }
    ensures learnt { IsLearnt ddc.old.bytes result }
{
    let blocks = read_blocks(ddc)?;
    address_in(blocks.as_slice())
}

/// Reads the EDID, and gives the physical address in its first HDMI block: that of the device which
/// reads it (HDMI 1.4, section 8.7.2). It reads block 0, and as many blocks after it as byte 126
/// says; more than three are `Edid(Length)` at once. At its end, after a refusal too, it stops, and
/// the offset is 0.
pub fn learn_address(ddc: &mut Ddc) -> Result<Phys, DdcError>
    ensures after { ddc.new ≡ first_bus ddc.old.bytes }
    ensures learnt { IsLearnt ddc.old.bytes result }
    ensures reported { (e : EdidValue) (address : PhysValue) → ddc.old.bytes ≡ edid_bytes e → edid_address e ≡ Some address → result ≡ Ok address }
{
    let answer = read_address(ddc);
    ddc.stop();
    ddc.offset(0);
    answer
}
