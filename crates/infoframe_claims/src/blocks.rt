//! Whether a data block says that a display offers what an InfoFrame claims.
ghost use Rattle.std.specs.Prelude.{◌≡◌};
ghost use Rattle.infoframe_claims.specs.Offers.{block_offers, sounds_offer};

use crate::claim::Claim;
use crate::codes::{MAP_420, VIDEO_420, lists_420, lists_code, lists_hdmi};
use crate::features::{has_feature, has_tag};
use crate::sounds::some_take;
use crate::stereo::takes_structure;
use edid_cta::DataBlock;

fn sounds_offer(claim: Claim, block: &DataBlock) -> bool
    ensures { result ≡ sounds_offer claim block.now }
{
    block.is_audio() && some_take(claim, block.payload.as_slice())
}

/// Whether a data block says so.
pub(crate) fn block_offers(claim: Claim, block: &DataBlock) -> bool
    ensures { result ≡ block_offers claim block.now }
{
    match claim {
        Claim::Nothing | Claim::Chroma422 | Claim::Chroma444 => false,
        Claim::Code(code) => lists_code(code, block),
        Claim::Code420(code) => lists_420(code, block),
        Claim::Chroma420 => has_tag(VIDEO_420, block) || has_tag(MAP_420, block),
        Claim::Feature(feature) => has_feature(feature, block),
        Claim::Coding(sound) => sounds_offer(Claim::Coding(sound), block),
        Claim::Channels(sound) => sounds_offer(Claim::Channels(sound), block),
        Claim::Rate(sound) => sounds_offer(Claim::Rate(sound), block),
        Claim::Size(sound) => sounds_offer(Claim::Size(sound), block),
        Claim::HdmiCode(code) => lists_hdmi(code, block),
        Claim::Stereo(structure) => takes_structure(structure, block),
    }
}
