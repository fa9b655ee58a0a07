//! Audio formats, of three bytes each (CTA-861-H, section 7.5.2, tables 36 to 41 and 37a): what the third byte has goes by the format.
ghost use Rattle.std.specs.Prelude.{◌≡◌};
ghost use Rattle.edid_fields.specs.Forms.{table_in_code};
ghost use Rattle.edid_tables.specs.Tables.{audio_parts};

use crate::rows::field_rows;
use edid_fields::{Asked, Bits, Part, Size, Test, Times};

/// Three bytes a format.
const FORMAT: Size = Size { bytes: 3, least: 3 };
/// The code of a format.
const FORMAT_CODE: Bits = Bits {
    part: 0,
    byte: 0,
    high: 6,
    low: 3,
};
/// The code of an extended one.
const EXTENSION_CODE: Bits = Bits {
    part: 0,
    byte: 2,
    high: 7,
    low: 3,
};

macro_rules! test {
    ($bits:expr, $least:literal, $greatest:literal) => {
        Test {
            asked: Asked::Value($bits),
            least: $least,
            greatest: $greatest,
        }
    };
}

/// Rows of any format: bit 7 of the first two bytes, what stands in bits 2 to 0 of the first, a bit each for 192, 176.4, 96, 88.2,
/// 48, 44.1 and 32 kHz, and the third byte. Sample sizes are a bit each for 24, 20 and 16 bits.
macro_rules! sound_rows {
    ([$($seventh:tt)*] [$($format:tt)*] $channels:literal [$($codes:tt)*] $($third:tt)*) => {
        field_rows! {
            0 7 7 "F17" [$($seventh)*];
            0 6 3 "Audio Format Code" [$($format)*];
            0 2 0 $channels [$($codes)*];
            1 7 7 "F27" [$($seventh)*];
            1 6 0 "sampling frequencies" [any];
            $($third)*
        }
    };
}

/// Rows of a format with one channel more than bits 2 to 0 of its first byte say.
macro_rules! format_rows {
    ([$($format:tt)*] $($third:tt)*) => {
        sound_rows! { [clear] [$($format)*] "channels less one" [any] $($third)* }
    };
}

/// The same of an extended format.
macro_rules! extension_rows {
    ([$($extension:tt)*] $($third:tt)*) => {
        format_rows! {
            [15 15 "by extension"]
            2 7 3 "Audio Format Extension" [$($extension)*];
            $($third)*
        }
    };
}

/// The same of one whose channels are not told.
macro_rules! plain_rows {
    ([$($extension:tt)*] $($third:tt)*) => {
        sound_rows! {
            [clear] [15 15 "by extension"] "reserved" [clear]
            2 7 3 "Audio Format Extension" [$($extension)*];
            $($third)*
        }
    };
}

/// The same of one of up to 32 channels, five bits of which are bits 7 and bits 2 to 0.
macro_rules! wide_rows {
    ([$($extension:tt)*] $($third:tt)*) => {
        sound_rows! {
            [any] [15 15 "by extension"] "channels less one" [any]
            2 7 3 "Audio Format Extension" [$($extension)*];
            $($third)*
        }
    };
}

const AUDIO: &[Part] = &[(
    Times::ToEnd,
    &[
        (
            &[test!(FORMAT_CODE, 1, 1)],
            FORMAT,
            format_rows! {
                [1 1 "linear PCM"]
                2 7 3 "reserved" [clear];
                2 2 0 "sample sizes" [any];
            },
        ),
        (
            &[test!(FORMAT_CODE, 2, 8)],
            FORMAT,
            format_rows! {
                [2 2 "AC-3", 3 3 "MPEG-1", 4 4 "MP3", 5 5 "MPEG-2", 6 6 "AAC LC", 7 7 "DTS", 8 8 "ATRAC"]
                2 7 0 "bit rate" [any];
            },
        ),
        (
            &[test!(FORMAT_CODE, 10, 10)],
            FORMAT,
            format_rows! {
                [10 10 "Enhanced AC-3"]
                2 7 2 "reserved" [clear];
                2 1 0 "joint object coding" [0 0 "", 1 1 "joint object coding (Dolby Atmos)", 2 2 "joint object coding with ACMOD 28 alone", 3 3 "joint object coding (Dolby Atmos), also with ACMOD 28"];
            },
        ),
        (
            &[test!(FORMAT_CODE, 12, 12)],
            FORMAT,
            format_rows! {
                [12 12 "MAT"]
                2 7 2 "reserved" [clear];
                2 1 0 "MAT" [0 0 "TrueHD alone", 1 1 "objects and channels (Dolby Atmos), hash needed", 2 2 "TrueHD alone, no hash needed", 3 3 "objects and channels (Dolby Atmos), no hash needed"];
            },
        ),
        (
            &[test!(FORMAT_CODE, 14, 14)],
            FORMAT,
            format_rows! {
                [14 14 "WMA Pro"]
                2 7 3 "reserved" [clear];
                2 2 0 "profile" [any];
            },
        ),
        (
            &[test!(FORMAT_CODE, 15, 15), test!(EXTENSION_CODE, 4, 6)],
            FORMAT,
            extension_rows! {
                [4 4 "MPEG-4 HE AAC", 5 5 "MPEG-4 HE AAC v2", 6 6 "MPEG-4 AAC LC"]
                2 2 1 "frames" [0 0 "", 1 1 "frames of 960 samples", 2 2 "frames of 1024 samples", 3 3 "frames of 1024 and of 960 samples"];
                2 0 0 "reserved" [clear];
            },
        ),
        (
            &[test!(FORMAT_CODE, 15, 15), test!(EXTENSION_CODE, 8, 8)],
            FORMAT,
            extension_rows! {
                [8 8 "MPEG-4 HE AAC and MPEG Surround"]
                2 2 1 "frames" [0 0 "", 1 1 "frames of 960 samples", 2 2 "frames of 1024 samples", 3 3 "frames of 1024 and of 960 samples"];
                2 0 0 "surround" [0 0 "surround implicit", 1 1 "surround implicit and explicit"];
            },
        ),
        (
            &[test!(FORMAT_CODE, 15, 15), test!(EXTENSION_CODE, 10, 10)],
            FORMAT,
            extension_rows! {
                [10 10 "MPEG-4 AAC LC and MPEG Surround"]
                2 2 1 "frames" [0 0 "", 1 1 "frames of 960 samples", 2 2 "frames of 1024 samples", 3 3 "frames of 1024 and of 960 samples"];
                2 0 0 "surround" [0 0 "surround implicit", 1 1 "surround implicit and explicit"];
            },
        ),
        (
            &[test!(FORMAT_CODE, 15, 15), test!(EXTENSION_CODE, 11, 11)],
            FORMAT,
            plain_rows! {
                [11 11 "MPEG-H 3D"]
                2 2 0 "level" [0 0 "", 1 1 "level 1", 2 2 "level 2", 3 3 "level 3", 4 4 "level 4", 5 5 "level 5"];
            },
        ),
        (
            &[test!(FORMAT_CODE, 15, 15), test!(EXTENSION_CODE, 12, 12)],
            FORMAT,
            plain_rows! {
                [12 12 "AC-4"]
                2 2 0 "of the format" [any];
            },
        ),
        (
            &[test!(FORMAT_CODE, 15, 15), test!(EXTENSION_CODE, 13, 13)],
            FORMAT,
            wide_rows! {
                [13 13 "linear PCM 3D"]
                2 2 0 "sample sizes" [any];
            },
        ),
        (
            &[test!(FORMAT_CODE, 15, 15)],
            FORMAT,
            extension_rows! {
                [7 7 "DRA", 14 14 "Auro-Cx", 15 15 "MPEG-D USAC"]
                2 2 0 "of the format" [any];
            },
        ),
        (
            &[],
            FORMAT,
            format_rows! {
                [9 9 "One Bit Audio", 11 11 "DTS-HD", 13 13 "DST"]
                2 7 0 "of the format" [any];
            },
        ),
    ],
)];

#[tactic(auto, unfolding(crate::specs::Tables::audio_parts))]
pub(crate) fn audio_parts() -> &'static [Part]
    ensures { table_in_code result.now ≡ audio_parts }
{
    AUDIO
}
