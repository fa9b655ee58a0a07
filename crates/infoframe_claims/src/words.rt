//! What a claim is called.
ghost use Rattle.std.specs.Prelude.{◌≡◌};
ghost use Rattle.infoframe_claims.specs.Words.{claim_number, claim_word, coding_number, coding_word, feature_word, rate_in_hertz, size_in_bits};

use crate::claim::{Claim, Feature, Sound};

fn feature_word(feature: Feature) -> &'static str
    ensures { result.now ≡ feature_word feature }
{
    match feature {
        Feature::XvYcc601 => "colorimetry xvYCC601",
        Feature::XvYcc709 => "colorimetry xvYCC709",
        Feature::SYcc601 => "colorimetry sYCC601",
        Feature::OpYcc601 => "colorimetry opYCC601",
        Feature::OpRgb => "colorimetry opRGB",
        Feature::Bt2020CYcc => "colorimetry BT2020cYCC",
        Feature::Bt2020Ycc => "colorimetry BT2020YCC",
        Feature::Bt2020Rgb => "colorimetry BT2020RGB",
        Feature::St2113 => "colorimetry DCI-P3",
        Feature::ICtCp => "colorimetry ICtCp",
        Feature::SRgb => "colorimetry sRGB",
        Feature::DefaultRgb => "colorimetry default RGB",
        Feature::RgbRange => "RGB range selectable",
        Feature::YccRange => "YCC range selectable",
        Feature::GammaSdr => "EOTF traditional gamma SDR",
        Feature::GammaHdr => "EOTF traditional gamma HDR",
        Feature::St2084 => "EOTF SMPTE ST 2084",
        Feature::Hlg => "EOTF hybrid log-gamma",
        Feature::MetadataOne => "static metadata type 1",
        Feature::Allm => "ALLM",
        Feature::ContentDepth => "CCBPCI",
    }
}

fn coding_word(coding: u8) -> &'static str
    ensures { result.now ≡ coding_word coding }
{
    if coding == 15 {
        "audio coding extension"
    } else {
        "audio coding"
    }
}

/// What a claim is called.
pub fn claim_word(claim: Claim) -> &'static str
    ensures { result.now ≡ claim_word claim }
{
    match claim {
        Claim::Nothing => "nothing",
        Claim::Code(_) => "video code",
        Claim::Code420(_) => "YCbCr 4:2:0 of video code",
        Claim::Chroma420 => "YCbCr 4:2:0",
        Claim::Chroma422 => "YCbCr 4:2:2",
        Claim::Chroma444 => "YCbCr 4:4:4",
        Claim::Feature(feature) => feature_word(feature),
        Claim::Coding(sound) => coding_word(sound.coding),
        Claim::Channels(_) => "audio channels",
        Claim::Rate(_) => "audio sampling frequency in Hz",
        Claim::Size(_) => "audio sample size in bits",
        Claim::HdmiCode(_) => "HDMI_VIC",
        Claim::Stereo(_) => "3D_Structure",
    }
}

fn rate_in_hertz(rate: u8) -> u64
    ensures { result ≡ rate_in_hertz rate }
{
    match rate {
        1 => 32_000,
        2 => 44_100,
        3 => 48_000,
        4 => 88_200,
        5 => 96_000,
        6 => 176_400,
        _ => 192_000,
    }
}

fn size_in_bits(size: u8) -> u64
    ensures { result ≡ size_in_bits size }
{
    match size {
        1 => 16,
        2 => 20,
        _ => 24,
    }
}

fn coding_number(sound: Sound) -> u8
    ensures { result ≡ coding_number sound }
{
    if sound.coding == 15 {
        sound.extension
    } else {
        sound.coding
    }
}

/// The number that is told of a claim.
pub fn claim_number(claim: Claim) -> Option<u64>
    ensures { result ≡ claim_number claim }
{
    match claim {
        Claim::Code(code) | Claim::Code420(code) | Claim::HdmiCode(code) => Some(u64::from(code)),
        Claim::Coding(sound) => Some(u64::from(coding_number(sound))),
        Claim::Channels(sound) => Some(u64::from(sound.channels) + 1),
        Claim::Rate(sound) => Some(rate_in_hertz(sound.rate)),
        Claim::Size(sound) => Some(size_in_bits(sound.size)),
        Claim::Stereo(structure) => Some(u64::from(structure)),
        Claim::Nothing
        | Claim::Chroma420
        | Claim::Chroma422
        | Claim::Chroma444
        | Claim::Feature(_) => None,
    }
}
