//! Where a data block says that a display has a feature.
ghost use Rattle.std.specs.Prelude.{◌≡◌};
ghost use Rattle.infoframe_claims.specs.Features.{has_feature, has_spot, has_tag, placed, spot_of};

use crate::bits::has_bit;
use crate::claim::Feature;
use edid_cta::{BlockKind, DataBlock};
use rules_values::is_forum;
use text_core::byte_at;

/// The extended tags of data blocks (CTA-861-G, table 56; HDMI 2.1, section 10.3.6).
const CAPABILITY: u8 = 0;

const COLORIMETRY: u8 = 5;

const HDR: u8 = 6;

const SINK_CAPABILITIES: u8 = 121;

/// A bit of a byte of the payload of a data block with an extended tag.
#[derive(Clone, Copy)]
pub(crate) struct Spot {
    pub tag: u8,
    pub byte: usize,
    pub bit: u8,
}

fn placed(tag: u8, byte: usize, bit: u8) -> Spot
    ensures { result ≡ placed tag byte bit }
{
    Spot { tag, byte, bit }
}

fn spot_of(feature: Feature) -> Spot
    ensures { result ≡ spot_of feature }
{
    match feature {
        Feature::XvYcc601 => placed(COLORIMETRY, 1, 0),
        Feature::XvYcc709 => placed(COLORIMETRY, 1, 1),
        Feature::SYcc601 => placed(COLORIMETRY, 1, 2),
        Feature::OpYcc601 => placed(COLORIMETRY, 1, 3),
        Feature::OpRgb => placed(COLORIMETRY, 1, 4),
        Feature::Bt2020CYcc => placed(COLORIMETRY, 1, 5),
        Feature::Bt2020Ycc => placed(COLORIMETRY, 1, 6),
        Feature::Bt2020Rgb => placed(COLORIMETRY, 1, 7),
        Feature::St2113 => placed(COLORIMETRY, 2, 7),
        Feature::ICtCp => placed(COLORIMETRY, 2, 6),
        Feature::SRgb => placed(COLORIMETRY, 2, 5),
        Feature::DefaultRgb => placed(COLORIMETRY, 2, 4),
        Feature::RgbRange => placed(CAPABILITY, 1, 6),
        Feature::YccRange => placed(CAPABILITY, 1, 7),
        Feature::GammaSdr => placed(HDR, 1, 0),
        Feature::GammaHdr => placed(HDR, 1, 1),
        Feature::St2084 => placed(HDR, 1, 2),
        Feature::Hlg => placed(HDR, 1, 3),
        Feature::MetadataOne => placed(HDR, 2, 0),
        Feature::Allm => placed(SINK_CAPABILITIES, 7, 1),
        Feature::ContentDepth => placed(SINK_CAPABILITIES, 5, 4),
    }
}

/// Whether a data block has an extended tag.
pub(crate) fn has_tag(tag: u8, block: &DataBlock) -> bool
    ensures { result ≡ has_tag tag block.now }
{
    let payload = block.payload.as_slice();
    matches!(block.kind, BlockKind::Extended) && 0 < payload.len() && payload[0] == tag
}

fn has_spot(spot: Spot, block: &DataBlock) -> bool
    ensures { result ≡ has_spot spot block.now }
{
    (has_tag(spot.tag, block) || spot.tag == SINK_CAPABILITIES && is_forum(block))
        && has_bit(byte_at(block.payload.as_slice(), spot.byte), spot.bit)
}

/// Whether a data block says that the display has a feature.
pub(crate) fn has_feature(feature: Feature, block: &DataBlock) -> bool
    ensures { result ≡ has_feature feature block.now }
{
    has_spot(spot_of(feature), block)
}
