//! What an AVI InfoFrame claims.
ghost use Rattle.std.specs.Prelude.{◌≡◌};
ghost use Rattle.infoframe_claims.specs.Claims.{additional_claim, avi_claims, avi_code, chroma_claim, code_claim, colorimetry_claim, extended_claim, is_default, range_claim, claim_if};

use crate::claim::{Claim, Feature};
use infoframe_tables::{packet_byte, version_of};

/// A claim that an InfoFrame makes, or none.
pub(crate) fn claim_if(said: bool, claim: Claim) -> Claim
    ensures { result ≡ claim_if said claim }
{
    if said { claim } else { Claim::Nothing }
}

fn code_claim(y: u8, vic: u8) -> Claim
    ensures { result ≡ code_claim y vic }
{
    if y == 3 {
        if vic == 0 {
            Claim::Chroma420
        } else {
            Claim::Code420(vic)
        }
    } else {
        claim_if(0 < vic, Claim::Code(vic))
    }
}

fn chroma_claim(y: u8) -> Claim
    ensures { result ≡ chroma_claim y }
{
    if y == 1 {
        Claim::Chroma422
    } else {
        claim_if(y == 2, Claim::Chroma444)
    }
}

fn additional_claim(ace: u8) -> Claim
    ensures { result ≡ additional_claim ace }
{
    match ace {
        0 | 1 => Claim::Feature(Feature::St2113),
        2 => Claim::Feature(Feature::ICtCp),
        3 => Claim::Feature(Feature::SRgb),
        4 => Claim::Feature(Feature::DefaultRgb),
        _ => Claim::Nothing,
    }
}

fn extended_claim(ec: u8, y: u8, ace: u8) -> Claim
    ensures { result ≡ extended_claim ec y ace }
{
    match ec {
        0 => Claim::Feature(Feature::XvYcc601),
        1 => Claim::Feature(Feature::XvYcc709),
        2 => Claim::Feature(Feature::SYcc601),
        3 => Claim::Feature(Feature::OpYcc601),
        4 => Claim::Feature(Feature::OpRgb),
        5 => Claim::Feature(Feature::Bt2020CYcc),
        6 => {
            if y == 0 {
                Claim::Feature(Feature::Bt2020Rgb)
            } else {
                Claim::Feature(Feature::Bt2020Ycc)
            }
        }
        _ => additional_claim(ace),
    }
}

fn colorimetry_claim(version: u8, c: u8, ec: u8, y: u8, ace: u8) -> Claim
    ensures { result ≡ colorimetry_claim version c ec y ace }
{
    claim_if(
        c == 3 && (ec < 7 || version == 4),
        extended_claim(ec, y, ace),
    )
}

fn is_default(vic: u8, q: u8) -> bool
    ensures { result ≡ is_default vic q }
{
    vic == 0 || if vic == 1 { q == 2 } else { q == 1 }
}

fn range_claim(y: u8, vic: u8, q: u8, yq: u8) -> Claim
    ensures { result ≡ range_claim y vic q yq }
{
    if y == 0 {
        claim_if(
            (q == 1 || q == 2) && !is_default(vic, q),
            Claim::Feature(Feature::RgbRange),
        )
    } else {
        claim_if(y < 4 && yq == 1, Claim::Feature(Feature::YccRange))
    }
}

fn avi_code(frame: &[u8]) -> u8
    ensures { result ≡ avi_code frame.now }
{
    let code = packet_byte(frame, 4);
    if version_of(frame) < 3 {
        code % 128
    } else {
        code
    }
}

/// What an AVI InfoFrame claims.
pub(crate) fn avi_claims(frame: &[u8]) -> [Claim; 4]
    ensures { result ≡ avi_claims frame.now }
{
    let y = packet_byte(frame, 1) / 32;
    let third = packet_byte(frame, 3);
    let code = avi_code(frame);
    [
        code_claim(y, code),
        chroma_claim(y),
        colorimetry_claim(
            version_of(frame),
            packet_byte(frame, 2) / 64,
            third / 16 % 8,
            y,
            packet_byte(frame, 14) / 16,
        ),
        range_claim(y, code, third / 4 % 4, packet_byte(frame, 5) / 64),
    ]
}
