//! Which audio a display takes.
ghost use Rattle.std.specs.Prelude.{◌≡◌};
ghost use Rattle.infoframe_claims.specs.Sounds.{basic_audio, coding_of, extension_of, is_pcm, some_take, takes, takes_channels, takes_coding, takes_rate, takes_size, tells_no_channels};

use crate::bits::has_bit;
use crate::claim::{Claim, Sound};
use crate::frames::tells_coding;

/// The format that is told by an extension.
const BY_EXTENSION: u8 = 15;
/// MPEG-H 3D
const MPEG_H: u8 = 11;
/// AC-4
const AC_4: u8 = 12;
/// Linear PCM 3D
const PCM_3D: u8 = 13;

/// A short audio descriptor.
#[derive(Clone, Copy)]
pub(crate) struct Format {
    pub first: u8,
    pub second: u8,
    pub third: u8,
}

fn coding_of(format: Format) -> u8
    ensures { result ≡ coding_of format }
{
    format.first / 8 % 16
}

fn extension_of(format: Format) -> u8
    ensures { result ≡ extension_of format }
{
    format.third / 8
}

fn takes_coding(sound: Sound, format: Format) -> bool
    ensures { result ≡ takes_coding sound format }
{
    !tells_coding(sound)
        || coding_of(format) == sound.coding
            && (sound.coding < BY_EXTENSION || extension_of(format) == sound.extension)
}

fn tells_no_channels(format: Format) -> bool
    ensures { result ≡ tells_no_channels format }
{
    coding_of(format) == BY_EXTENSION
        && (extension_of(format) == MPEG_H || extension_of(format) == AC_4)
}

fn takes_channels(sound: Sound, format: Format) -> bool
    ensures { result ≡ takes_channels sound format }
{
    sound.channels <= format.first % 8
        || 128 <= format.first
        || 128 <= format.second
        || tells_no_channels(format)
}

fn takes_rate(sound: Sound, format: Format) -> bool
    ensures { result ≡ takes_rate sound format }
{
    sound.rate == 0 || has_bit(format.second, sound.rate - 1)
}

fn is_pcm(format: Format) -> bool
    ensures { result ≡ is_pcm format }
{
    coding_of(format) == 1 || coding_of(format) == BY_EXTENSION && extension_of(format) == PCM_3D
}

fn takes_size(sound: Sound, format: Format) -> bool
    ensures { result ≡ takes_size sound format }
{
    sound.size == 0 || !is_pcm(format) || has_bit(format.third, sound.size - 1)
}

/// Whether a descriptor meets a claim.
pub(crate) fn takes(claim: Claim, format: Format) -> bool
    ensures { result ≡ takes claim format }
{
    match claim {
        Claim::Coding(sound) => takes_coding(sound, format),
        Claim::Channels(sound) => takes_coding(sound, format) && takes_channels(sound, format),
        Claim::Rate(sound) => {
            takes_coding(sound, format)
                && (takes_channels(sound, format) && takes_rate(sound, format))
        }
        Claim::Size(sound) => {
            takes_coding(sound, format)
                && (takes_channels(sound, format)
                    && (takes_rate(sound, format) && takes_size(sound, format)))
        }
        Claim::Nothing
        | Claim::Code(_)
        | Claim::Code420(_)
        | Claim::Chroma420
        | Claim::Chroma422
        | Claim::Chroma444
        | Claim::Feature(_)
        | Claim::HdmiCode(_)
        | Claim::Stereo(_) => false,
    }
}

/// Whether one of the descriptors of an audio data block meets a claim.
pub(crate) fn some_take(claim: Claim, formats: &[u8]) -> bool
    ensures { result ≡ some_take claim formats.now }
{
    match formats {
        [first, second, third, more @ ..] => {
            let format = Format {
                first: *first,
                second: *second,
                third: *third,
            };
            takes(claim, format) || some_take(claim, more)
        }
        _ => false,
    }
}

/// Basic audio.
pub(crate) fn basic_audio() -> Format
    ensures { result ≡ basic_audio }
{
    Format {
        first: 9,
        second: 7,
        third: 1,
    }
}
