//! Whether a display offers what an InfoFrame claims.
ghost use Rattle.std.specs.Prelude.{◌≡◌, ◌≤◌, length};
ghost use Rattle.std.specs.List.{list_any};
ghost use Rattle.infoframe_claims.specs.Offers.{block_offers, ext_offers, flags_of, flags_offer, is_offered, whole_offers};

use crate::bits::has_bit;
use crate::blocks::block_offers;
use crate::claim::Claim;
use crate::codes::{has_timing, some_map};
use crate::sounds::{basic_audio, takes};
use edid_base::Base;
use edid_cta::{DataBlock, Ext};
use rules_values::blocks_of;

/// The bits of an extension's flags.
const BASIC_AUDIO: u8 = 6;

const YCBCR_444: u8 = 5;

const YCBCR_422: u8 = 4;

fn flags_of(ext: &Ext) -> u8
    ensures { result ≡ flags_of ext.now }
{
    match ext {
        Ext::Cta(cta) => cta.flags,
        Ext::Bare(bare) => bare.flags,
        Ext::Raw(_) => 0,
    }
}

fn flags_offer(claim: Claim, flags: u8) -> bool
    ensures { result ≡ flags_offer claim flags }
{
    match claim {
        Claim::Chroma422 => has_bit(flags, YCBCR_422),
        Claim::Chroma444 => has_bit(flags, YCBCR_444),
        Claim::Nothing
        | Claim::Code(_)
        | Claim::Code420(_)
        | Claim::Chroma420
        | Claim::Feature(_)
        | Claim::Coding(_)
        | Claim::Channels(_)
        | Claim::Rate(_)
        | Claim::Size(_)
        | Claim::HdmiCode(_)
        | Claim::Stereo(_) => has_bit(flags, BASIC_AUDIO) && takes(claim, basic_audio()),
    }
}

fn some_block(claim: Claim, blocks: &[DataBlock]) -> bool
    ensures { result ≡ list_any (block_offers claim) blocks.now }
{
    blocks.iter().any(|block| block_offers(claim, block))
}

fn ext_offers(claim: Claim, ext: &Ext) -> bool
    ensures { result ≡ ext_offers claim ext.now }
{
    flags_offer(claim, flags_of(ext)) || some_block(claim, blocks_of(ext))
}

fn some_ext(claim: Claim, extensions: &[Ext]) -> bool
    ensures { result ≡ list_any (ext_offers claim) extensions.now }
{
    extensions.iter().any(|ext| ext_offers(claim, ext))
}

fn whole_offers(claim: Claim, base: &Base, extensions: &[Ext]) -> bool
    requires few { length extensions.now ≤ 3 }
    ensures { result ≡ whole_offers claim base.now extensions.now }
{
    match claim {
        Claim::Nothing => true,
        Claim::Code(code) => has_timing(code, base, extensions),
        Claim::Code420(code) => some_map(extensions, code),
        Claim::Chroma420
        | Claim::Chroma422
        | Claim::Chroma444
        | Claim::Feature(_)
        | Claim::Coding(_)
        | Claim::Channels(_)
        | Claim::Rate(_)
        | Claim::Size(_)
        | Claim::HdmiCode(_)
        | Claim::Stereo(_) => false,
    }
}

/// Whether a display offers what an InfoFrame claims, by its EDID.
pub fn is_offered(claim: Claim, base: &Base, extensions: &[Ext]) -> bool
    requires few { length extensions.now ≤ 3 }
    ensures { result ≡ is_offered claim base.now extensions.now }
{
    some_ext(claim, extensions) || whole_offers(claim, base, extensions)
}
