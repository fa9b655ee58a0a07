//! Audio (CTA-861-H, section 6, Audio InfoFrame).
ghost use Rattle.std.specs.Prelude.{◌≡◌};
ghost use Rattle.edid_fields.specs.Forms.{table_in_code};
ghost use Rattle.infoframe_tables.specs.Tables.{audio_parts};

use crate::rows::{field_rows, header_rows, test};
use edid_fields::{Part, Size, Times};

/// Channels: what is said of them after the allocation.
const CHANNEL_BYTES: Size = Size { bytes: 5, least: 5 };

const AUDIO: &[Part] = &[
    (
        Times::Once,
        &[(
            &[],
            Size { bytes: 4, least: 4 },
            header_rows!([132 132 "Audio"] [1 1 ""] [10 10 ""]),
        )],
    ),
    (
        Times::Once,
        &[(
            &[],
            Size { bytes: 5, least: 5 },
            field_rows! {
                0 7 4 "CT" [0 0 "by the stream", 1 1 "linear PCM", 2 2 "AC-3", 3 3 "MPEG-1", 4 4 "MP3", 5 5 "MPEG-2", 6 6 "AAC LC", 7 7 "DTS", 8 8 "ATRAC", 9 9 "One Bit Audio", 10 10 "Enhanced AC-3", 11 11 "DTS-HD", 12 12 "MAT", 13 13 "DST", 14 14 "WMA Pro", 15 15 "by CXT"];
                0 3 3 "reserved" [clear];
                0 2 0 "CC" [0 0 "by the stream", 1 1 "2 channels", 2 2 "3 channels", 3 3 "4 channels", 4 4 "5 channels", 5 5 "6 channels", 6 6 "7 channels", 7 7 "8 channels"];
                1 7 5 "reserved" [clear];
                1 4 2 "SF" [0 0 "by the stream", 1 1 "32 kHz", 2 2 "44.1 kHz", 3 3 "48 kHz", 4 4 "88.2 kHz", 5 5 "96 kHz", 6 6 "176.4 kHz", 7 7 "192 kHz"];
                1 1 0 "SS" [0 0 "by the stream", 1 1 "16 bits", 2 2 "20 bits", 3 3 "24 bits"];
                2 7 5 "reserved" [clear];
                2 4 0 "CXT" [0 0 "by CT", 4 4 "MPEG-4 HE AAC", 5 5 "MPEG-4 HE AAC v2", 6 6 "MPEG-4 AAC LC", 7 7 "DRA", 8 8 "MPEG-4 HE AAC and MPEG Surround", 10 10 "MPEG-4 AAC LC and MPEG Surround", 11 11 "MPEG-H 3D", 12 12 "AC-4", 13 13 "linear PCM 3D", 14 14 "Auro-Cx", 15 15 "MPEG-D USAC"];
                3 7 0 "CA" [0 49 "", 254 254 "by speaker mask", 255 255 "by channel index"];
                4 7 7 "DM_INH" [flag "down-mix prohibited"];
                4 6 3 "LSV" [any];
                4 2 2 "reserved" [clear];
                4 1 0 "LFEPBL" [0 0 "", 1 1 "0 dB", 2 2 "+10 dB"];
            },
        )],
    ),
    (
        Times::Once,
        &[
            (
                &[test!(1 3 7 0 is 254 to 255)],
                CHANNEL_BYTES,
                field_rows! {
                    0 7 0 "speakers or channels 1" [any];
                    1 7 0 "speakers or channels 2" [any];
                    2 7 0 "speakers or channels 3" [any];
                    3 7 0 "speakers or channels 4" [any];
                    4 7 0 "reserved" [clear];
                },
            ),
            (
                &[],
                CHANNEL_BYTES,
                field_rows! {
                    0 7 0 "reserved" [clear];
                    1 7 0 "reserved" [clear];
                    2 7 0 "reserved" [clear];
                    3 7 0 "reserved" [clear];
                    4 7 0 "reserved" [clear];
                },
            ),
        ],
    ),
    (
        Times::ToEnd,
        &[(
            &[],
            Size { bytes: 1, least: 1 },
            field_rows! {
                0 7 0 "reserved" [clear];
            },
        )],
    ),
];

#[tactic(auto, unfolding(crate::specs::Tables::audio_parts))]
pub(crate) fn audio_parts() -> &'static [Part]
    ensures { table_in_code result.now ≡ audio_parts }
{
    AUDIO
}
