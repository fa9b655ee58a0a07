//! Descriptors, standard timings and data blocks at fault: which they are, and what stands in them.
ghost use Rattle.std.specs.Prelude.{◌≡◌};
ghost use Rattle.rules_explain.specs.Places.{fast_clock};

use edid_base::{Base, StandardTiming, are_zeros};
use edid_cta::{BlockKind, DataBlock, Ext};
use rules_contents::{is_ill_text, is_reserved_descriptor};
use rules_values::{blocks_of, hdmi_of, some_ill_padding};
use std::alloc::{AllocError, Global};

/// The greatest clock of HDMI 1.4: 340 MHz, in units of 5 MHz.
const MAX_TMDS_CLOCK: u8 = 68;
/// That clock's unit in MHz.
const TMDS_UNIT: u16 = 5;
/// A standard timing of this width and less stands for none.
const UNUSED_WIDTH: u16 = 256;
/// The bytes of a speaker block.
const SPEAKER_BYTES: usize = 3;

/// The first descriptor that is all zeros, from 1.
pub fn empty_reported(alloc: Global, base: &Base) -> Result<Option<String>, AllocError> {
    let mut number = 0_u8;
    for descriptor in &base.descriptors {
        number = number.saturating_add(1);
        let bytes = descriptor.write();
        if are_zeros(&bytes) {
            return Ok(Some(format!(in alloc; "descriptor {number}")?));
        }
    }
    Ok(None)
}

/// The first descriptor that is no text in spite of its tag, from 1.
pub fn ill_text_reported(alloc: Global, base: &Base) -> Result<Option<String>, AllocError> {
    let mut number = 0_u8;
    for descriptor in &base.descriptors {
        number = number.saturating_add(1);
        if is_ill_text(descriptor) {
            return Ok(Some(format!(in alloc; "descriptor {number}")?));
        }
    }
    Ok(None)
}

/// The first descriptor with a reserved value, from 1.
pub fn reserved_descriptor_reported(
    alloc: Global,
    base: &Base,
) -> Result<Option<String>, AllocError> {
    let mut number = 0_u8;
    for descriptor in &base.descriptors {
        number = number.saturating_add(1);
        if is_reserved_descriptor(descriptor) {
            return Ok(Some(format!(in alloc; "descriptor {number}")?));
        }
    }
    Ok(None)
}

fn is_ill_unused(standard: Option<StandardTiming>) -> bool {
    match standard {
        None => false,
        Some(timing) => timing.width <= UNUSED_WIDTH,
    }
}

/// The first standard timing that stands for none in another form than 01 01, from 1, and its bytes.
pub fn unused_reported(alloc: Global, base: &Base) -> Result<Option<String>, AllocError> {
    let mut number = 0_u8;
    for standard in &base.standard {
        number = number.saturating_add(1);
        if is_ill_unused(*standard) {
            let [first, second] = StandardTiming::write(*standard);
            return Ok(Some(format!(in alloc;
                "standard timing {number} is {first:02x} {second:02x}"
            )?));
        }
    }
    Ok(None)
}

/// The first extension with something else than dummy descriptors and zeros after its timings, from 1.
pub fn padding_reported(alloc: Global, extensions: &[Ext]) -> Result<Option<String>, AllocError> {
    let mut number = 0_u8;
    for one in extensions.chunks(1) {
        number = number.saturating_add(1);
        if some_ill_padding(one) {
            return Ok(Some(format!(in alloc; "extension {number}")?));
        }
    }
    Ok(None)
}

/// The length of the first speaker block that is too short or too long, or that there is none.
pub fn speakers_reported(alloc: Global, extensions: &[Ext]) -> Result<Option<String>, AllocError> {
    for ext in extensions {
        for block in blocks_of(ext) {
            let count = block.payload.len();
            if matches!(block.kind, BlockKind::Speakers) && count != SPEAKER_BYTES {
                return Ok(Some(format!(in alloc; "a speaker block of {count} bytes")?));
            }
        }
    }
    Ok(Some(String::from_str(alloc, "no speaker block")?))
}

/// The byte of a video capability block after which the range of RGB values can't be chosen.
fn fixed_range(block: &DataBlock) -> Option<u8> {
    if !matches!(block.kind, BlockKind::Extended) {
        return None;
    }
    match block.payload.as_slice() {
        [0, byte, ..] if *byte / 64 % 2 == 0 => Some(*byte),
        _ => None,
    }
}

pub fn capability_reported(
    alloc: Global,
    extensions: &[Ext],
) -> Result<Option<String>, AllocError> {
    for ext in extensions {
        for block in blocks_of(ext) {
            if let Some(byte) = fixed_range(block) {
                return Ok(Some(format!(in alloc; "video capability {byte:02x}")?));
            }
        }
    }
    Ok(None)
}

/// The clock of an HDMI block in MHz, where it is above that of HDMI 1.4.
fn fast_clock(block: &DataBlock) -> Option<u16>
    ensures { result ≡ fast_clock block.now }
{
    let clock = hdmi_of(block).max_clock;
    if block.is_hdmi() && MAX_TMDS_CLOCK < clock {
        Some(TMDS_UNIT * u16::from(clock))
    } else {
        None
    }
}

pub fn tmds_reported(alloc: Global, extensions: &[Ext]) -> Result<Option<String>, AllocError> {
    for ext in extensions {
        for block in blocks_of(ext) {
            if let Some(clock) = fast_clock(block) {
                return Ok(Some(format!(in alloc; "TMDS clock {clock} MHz")?));
            }
        }
    }
    Ok(None)
}
