//! Which structures of 3D a display takes.
ghost use Rattle.std.specs.Prelude.{◌≡◌};
ghost use Rattle.infoframe_claims.specs.Stereo.{all_take, entries_take, front_of, is_mandatory, lists_structure, takes_structure, video_takes};

use crate::bits::has_bit;
use edid_cta::DataBlock;
use edid_layout::{HdmiVideo, video_bytes};
use rules_values::hdmi_of;
use text_core::{after, byte_at};

/// The identifier and the physical address of an HDMI block, in bytes.
const ADDRESS_END: usize = 5;

fn is_mandatory(structure: u8) -> bool
    ensures { result ≡ is_mandatory structure }
{
    structure == 0 || structure == 6 || structure == 8
}

fn all_take(structure: u8, multi: u8, bytes: &[u8]) -> bool
    ensures { result ≡ all_take structure multi bytes.now }
{
    (multi == 1 || multi == 2)
        && if structure < 8 {
            has_bit(byte_at(bytes, 1), structure)
        } else {
            has_bit(byte_at(bytes, 0), structure - 8)
        }
}

fn front_of(multi: u8) -> usize
    ensures { result ≡ front_of multi }
{
    match multi {
        1 => 2,
        2 => 4,
        _ => 0,
    }
}

fn entries_take(structure: u8, passes: bool, entries: &[u8]) -> bool
    ensures { result ≡ entries_take structure passes entries.now }
{
    let [entry, others @ ..] = entries else {
        return false;
    };
    if passes {
        return entries_take(structure, false, others);
    }
    entry % 16 == structure || entries_take(structure, 8 <= entry % 16, others)
}

fn lists_structure(structure: u8, multi: u8, bytes: &[u8]) -> bool
    ensures { result ≡ lists_structure structure multi bytes.now }
{
    is_mandatory(structure)
        || (all_take(structure, multi, bytes)
            || entries_take(structure, false, after(bytes, front_of(multi))))
}

fn video_takes(structure: u8, video: Option<HdmiVideo>, bytes: &[u8]) -> bool
    ensures { result ≡ video_takes structure video bytes.now }
{
    match video {
        None => false,
        Some(video) => {
            video.has_stereo && lists_structure(structure, video.multi, video.stereo_in(bytes))
        }
    }
}

/// Whether a data block says that the display takes a structure of 3D.
pub(crate) fn takes_structure(structure: u8, block: &DataBlock) -> bool
    ensures { result ≡ takes_structure structure block.now }
{
    block.is_hdmi()
        && video_takes(
            structure,
            hdmi_of(block).video,
            video_bytes(after(block.payload.as_slice(), ADDRESS_END)),
        )
}
