//! The bytes of an EDID as they are read, and those for a device.
ghost use Rattle.std.specs.Prelude.{◌≡◌, IfOk, Ok};
ghost use Rattle.edid_as_source.specs.Mend.{mended};
ghost use Rattle.program_edids.specs.Framed.{IsFor, IsReadAs};

use crate::edid::given_to;
use crate::edid_fault::EdidFault;
use crate::edid_given::given_of;
use cli_choice::{EdidReading, Recipient, Source};
use edid_as_source::{as_source, counted, mended};
use std::alloc::Global;

// The bytes with all extensions that the override counts.
#[inline(never)]
fn overridden_bytes(alloc: Global, given: &[u8]) -> Result<Vec<u8>, EdidFault>
    ensures { IfOk result (λ bytes. IsReadAs EdidReading.Overridden given.now bytes.items) }
{
    match counted(given) {
        Ok(bytes) => Ok(bytes.as_slice().to_vec(alloc)?),
        Err(error) => Err(EdidFault::Edid(error)),
    }
}

// The bytes as a source reads them.
#[inline(never)]
fn source_bytes(alloc: Global, given: &[u8]) -> Result<Vec<u8>, EdidFault>
    ensures { IfOk result (λ bytes. IsReadAs EdidReading.AsSource given.now bytes.items) }
{
    match as_source(given) {
        Ok(bytes) => Ok(bytes.as_slice().to_vec(alloc)?),
        Err(error) => Err(EdidFault::Edid(error)),
    }
}

// The bytes with right sums and a right count, or a right override.
#[inline(never)]
fn mended_bytes(alloc: Global, overridden: bool, given: &[u8]) -> Result<Vec<u8>, EdidFault>
    ensures { IfOk result (λ bytes. mended overridden given.now ≡ Ok bytes.items) }
{
    match mended(overridden, given) {
        Ok(bytes) => Ok(bytes.as_slice().to_vec(alloc)?),
        Err(error) => Err(EdidFault::Edid(error)),
    }
}

// The bytes with right sums, and all extensions that the mended override counts.
fn mended_overridden(alloc: Global, given: &[u8]) -> Result<Vec<u8>, EdidFault>
    ensures { IfOk result (λ bytes. IsReadAs EdidReading.MendedOverridden given.now bytes.items) }
{
    let half = mended_bytes(alloc, true, given)?;
    overridden_bytes(alloc, half.as_slice())
}

// The bytes that the strict reader is given of some bytes.
fn taken(alloc: Global, reading: EdidReading, given: &[u8]) -> Result<Vec<u8>, EdidFault>
    ensures { IfOk result (λ bytes. IsReadAs reading given.now bytes.items) }
{
    match reading {
        EdidReading::Strict => Ok(given.to_vec(alloc)?),
        EdidReading::Overridden => overridden_bytes(alloc, given),
        EdidReading::AsSource => source_bytes(alloc, given),
        EdidReading::Mended => mended_bytes(alloc, false, given),
        EdidReading::MendedOverridden => mended_overridden(alloc, given),
    }
}

/// The bytes of the EDID of an input, for a device.
pub fn bytes_for(
    alloc: Global,
    source: Source,
    reading: EdidReading,
    place: Recipient,
    input: &[u8],
) -> Result<Vec<u8>, EdidFault>
    ensures { IfOk result (λ own. IsFor source reading place input.now own.items) }
{
    let given = given_of(alloc, source, input)?;
    let bytes = taken(alloc, reading, given.as_slice())?;
    given_to(alloc, place, bytes.as_slice())
}
