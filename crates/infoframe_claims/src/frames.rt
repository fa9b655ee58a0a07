//! What an InfoFrame claims, by its kind.
ghost use Rattle.std.specs.Prelude.{◌≡◌};
ghost use Rattle.infoframe_claims.specs.Claims.{claims_by, claims_of, eotf_claim, forum_claims, hdmi_claims, hdr_claims, no_claims, sound_claims, sound_of, tells_coding};

use crate::avi::{avi_claims, claim_if};
use crate::bits::has_bit;
use crate::claim::{Claim, Feature, Sound};
use infoframe_tables::{FrameKind, kind_of, own_bytes, packet_byte};

fn eotf_claim(eotf: u8) -> Claim
    ensures { result ≡ eotf_claim eotf }
{
    match eotf {
        0 => Claim::Feature(Feature::GammaSdr),
        1 => Claim::Feature(Feature::GammaHdr),
        2 => Claim::Feature(Feature::St2084),
        3 => Claim::Feature(Feature::Hlg),
        _ => Claim::Nothing,
    }
}

fn hdr_claims(frame: &[u8]) -> [Claim; 4]
    ensures { result ≡ hdr_claims frame.now }
{
    [
        eotf_claim(packet_byte(frame, 1) % 8),
        claim_if(
            packet_byte(frame, 2) % 8 == 0,
            Claim::Feature(Feature::MetadataOne),
        ),
        Claim::Nothing,
        Claim::Nothing,
    ]
}

fn sound_of(frame: &[u8]) -> Sound
    ensures { result ≡ sound_of frame.now }
{
    let first = packet_byte(frame, 1);
    let second = packet_byte(frame, 2);
    Sound {
        coding: first / 16,
        extension: packet_byte(frame, 3) % 32,
        channels: first % 8,
        rate: second / 4 % 8,
        size: second % 4,
    }
}

/// Whether the coding is told.
pub(crate) fn tells_coding(sound: Sound) -> bool
    ensures { result ≡ tells_coding sound }
{
    0 < sound.coding && (sound.coding < 15 || 0 < sound.extension)
}

fn sound_claims(sound: Sound) -> [Claim; 4]
    ensures { result ≡ sound_claims sound }
{
    [
        claim_if(tells_coding(sound), Claim::Coding(sound)),
        claim_if(0 < sound.channels, Claim::Channels(sound)),
        claim_if(0 < sound.rate, Claim::Rate(sound)),
        claim_if(0 < sound.size, Claim::Size(sound)),
    ]
}

fn hdmi_claims(frame: &[u8]) -> [Claim; 4]
    ensures { result ≡ hdmi_claims frame.now }
{
    let form = packet_byte(frame, 4) / 32;
    let value = packet_byte(frame, 5);
    [
        claim_if(form == 1, Claim::HdmiCode(value)),
        claim_if(form == 2, Claim::Stereo(value / 16)),
        Claim::Nothing,
        Claim::Nothing,
    ]
}

fn forum_claims(frame: &[u8]) -> [Claim; 4]
    ensures { result ≡ forum_claims frame.now }
{
    let flags = packet_byte(frame, 5);
    [
        claim_if(has_bit(flags, 0), Claim::Stereo(packet_byte(frame, 6) / 16)),
        claim_if(has_bit(flags, 1), Claim::Feature(Feature::Allm)),
        claim_if(0 < flags / 16, Claim::Feature(Feature::ContentDepth)),
        Claim::Nothing,
    ]
}

fn claims_by(kind: FrameKind, frame: &[u8]) -> [Claim; 4]
    ensures { result ≡ claims_by kind frame.now }
{
    match kind {
        FrameKind::Avi => avi_claims(frame),
        FrameKind::Audio => sound_claims(sound_of(frame)),
        FrameKind::Hdr => hdr_claims(frame),
        FrameKind::Hdmi => hdmi_claims(frame),
        FrameKind::Forum => forum_claims(frame),
        FrameKind::Vendor | FrameKind::Other => [
            Claim::Nothing,
            Claim::Nothing,
            Claim::Nothing,
            Claim::Nothing,
        ],
    }
}

/// What an InfoFrame says that a display has to offer, by the bytes that its length counts.
pub fn claims_of(frame: &[u8]) -> [Claim; 4]
    ensures { result ≡ claims_of frame.now }
{
    claims_by(kind_of(frame), own_bytes(frame))
}
