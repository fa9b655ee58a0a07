//! Auxiliary Video Information (CTA-861-H, section 6, AVI InfoFrame; the resolution and the frame rate by numbers: CTA-861-I).
ghost use Rattle.std.specs.Prelude.{◌≡◌};
ghost use Rattle.edid_fields.specs.Forms.{table_in_code};
ghost use Rattle.infoframe_tables.specs.Tables.{avi_parts};

use crate::rows::{field_rows, header_rows, test};
use edid_fields::{Part, Size, Times};

/// The header and the checksum.
const HEADER: Size = Size { bytes: 4, least: 4 };
/// A part of one byte.
const BYTE: Size = Size { bytes: 1, least: 1 };

/// The parts. What EC says goes by C and by the version, CN by ITC, and the video code has seven bits in version 2.
const AVI: &[Part] = &[
    (
        Times::Once,
        &[
            (
                &[test!(0 1 7 0 is 4 to 4)],
                HEADER,
                header_rows!([130 130 "AVI"] [4 4 ""] [14 15 ""]),
            ),
            (
                &[],
                HEADER,
                header_rows!([130 130 "AVI"] [2 3 ""] [13 13 ""]),
            ),
        ],
    ),
    (
        Times::Once,
        &[(
            &[],
            Size { bytes: 2, least: 2 },
            field_rows! {
                0 7 5 "Y" [0 0 "RGB", 1 1 "YCbCr 4:2:2", 2 2 "YCbCr 4:4:4", 3 3 "YCbCr 4:2:0", 7 7 "IDO-defined"];
                0 4 4 "A" [0 0 "", 1 1 "active format"];
                0 3 2 "B" [0 0 "", 1 1 "vertical bars", 2 2 "horizontal bars", 3 3 "vertical and horizontal bars"];
                0 1 0 "S" [0 0 "", 1 1 "overscanned", 2 2 "underscanned"];
                1 7 6 "C" [0 0 "", 1 1 "SMPTE 170M", 2 2 "ITU-R BT.709", 3 3 "by EC"];
                1 5 4 "M" [0 0 "", 1 1 "4:3", 2 2 "16:9"];
                1 3 0 "R" [0 0 "", 2 2 "box 16:9 (top)", 3 3 "box 14:9 (top)", 4 4 "box above 16:9 (center)", 8 8 "as the picture", 9 9 "4:3 (center)", 10 10 "16:9 (center)", 11 11 "14:9 (center)", 13 13 "4:3 (with shoot and protect 14:9 center)", 14 14 "16:9 (with shoot and protect 14:9 center)", 15 15 "16:9 (with shoot and protect 4:3 center)"];
            },
        )],
    ),
    (
        Times::Once,
        &[
            (
                &[test!(0 1 7 0 is 4 to 4), test!(1 1 7 6 is 3 to 3)],
                BYTE,
                field_rows! {
                    0 7 7 "ITC" [flag "IT content"];
                    0 6 4 "EC" [0 0 "xvYCC601", 1 1 "xvYCC709", 2 2 "sYCC601", 3 3 "opYCC601", 4 4 "opRGB", 5 5 "BT2020cYCC", 6 6 "BT2020RGB or BT2020YCC", 7 7 "by ACE"];
                    0 3 2 "Q" [0 0 "", 1 1 "limited range", 2 2 "full range"];
                    0 1 0 "SC" [0 0 "", 1 1 "scaled horizontally", 2 2 "scaled vertically", 3 3 "scaled horizontally and vertically"];
                },
            ),
            (
                &[test!(1 1 7 6 is 3 to 3)],
                BYTE,
                field_rows! {
                    0 7 7 "ITC" [flag "IT content"];
                    0 6 4 "EC" [0 0 "xvYCC601", 1 1 "xvYCC709", 2 2 "sYCC601", 3 3 "opYCC601", 4 4 "opRGB", 5 5 "BT2020cYCC", 6 6 "BT2020RGB or BT2020YCC"];
                    0 3 2 "Q" [0 0 "", 1 1 "limited range", 2 2 "full range"];
                    0 1 0 "SC" [0 0 "", 1 1 "scaled horizontally", 2 2 "scaled vertically", 3 3 "scaled horizontally and vertically"];
                },
            ),
            (
                &[],
                BYTE,
                field_rows! {
                    0 7 7 "ITC" [flag "IT content"];
                    0 6 4 "EC" [any];
                    0 3 2 "Q" [0 0 "", 1 1 "limited range", 2 2 "full range"];
                    0 1 0 "SC" [0 0 "", 1 1 "scaled horizontally", 2 2 "scaled vertically", 3 3 "scaled horizontally and vertically"];
                },
            ),
        ],
    ),
    (
        Times::Once,
        &[
            (
                &[test!(0 1 7 0 is 2 to 2)],
                BYTE,
                field_rows! {
                    0 7 7 "reserved" [clear];
                    0 6 0 "VIC" [any];
                },
            ),
            (
                &[],
                BYTE,
                field_rows! {
                    0 7 0 "VIC" [0 127 "", 193 219 ""];
                },
            ),
        ],
    ),
    (
        Times::Once,
        &[
            (
                &[test!(2 0 7 7 is 1 to 1)],
                BYTE,
                field_rows! {
                    0 7 6 "YQ" [0 0 "limited range", 1 1 "full range"];
                    0 5 4 "CN" [0 0 "graphics", 1 1 "photo", 2 2 "cinema", 3 3 "game"];
                    0 3 0 "PR" [0 0 "", 1 1 "each pixel 2 times", 2 2 "each pixel 3 times", 3 3 "each pixel 4 times", 4 4 "each pixel 5 times", 5 5 "each pixel 6 times", 6 6 "each pixel 7 times", 7 7 "each pixel 8 times", 8 8 "each pixel 9 times", 9 9 "each pixel 10 times"];
                },
            ),
            (
                &[],
                BYTE,
                field_rows! {
                    0 7 6 "YQ" [0 0 "limited range", 1 1 "full range"];
                    0 5 4 "CN" [any];
                    0 3 0 "PR" [0 0 "", 1 1 "each pixel 2 times", 2 2 "each pixel 3 times", 3 3 "each pixel 4 times", 4 4 "each pixel 5 times", 5 5 "each pixel 6 times", 6 6 "each pixel 7 times", 7 7 "each pixel 8 times", 8 8 "each pixel 9 times", 9 9 "each pixel 10 times"];
                },
            ),
        ],
    ),
    (
        Times::Once,
        &[(
            &[],
            Size { bytes: 8, least: 8 },
            field_rows! {
                0 7 0 "line number of end of top bar, bits 7 to 0" [any];
                1 7 0 "line number of end of top bar, bits 15 to 8" [any];
                2 7 0 "line number of start of bottom bar, bits 7 to 0" [any];
                3 7 0 "line number of start of bottom bar, bits 15 to 8" [any];
                4 7 0 "pixel number of end of left bar, bits 7 to 0" [any];
                5 7 0 "pixel number of end of left bar, bits 15 to 8" [any];
                6 7 0 "pixel number of start of right bar, bits 7 to 0" [any];
                7 7 0 "pixel number of start of right bar, bits 15 to 8" [any];
            },
        )],
    ),
    (
        Times::Once,
        &[(
            &[test!(0 1 7 0 is 4 to 4)],
            Size { bytes: 2, least: 1 },
            field_rows! {
                0 7 4 "ACE" [0 0 "SMPTE ST 2113 (P3D65)", 1 1 "SMPTE ST 2113 (P3DCI)", 2 2 "ICtCp", 3 3 "sRGB", 4 4 "default RGB"];
                0 3 0 "FR, bits 3 to 0" [any];
                1 7 7 "FR, bit 4" [any];
                1 6 6 "reserved" [clear];
                1 5 0 "RID" [any];
            },
        )],
    ),
    (
        Times::ToEnd,
        &[(
            &[],
            BYTE,
            field_rows! {
                0 7 0 "reserved" [clear];
            },
        )],
    ),
];

#[tactic(auto, unfolding(crate::specs::Tables::avi_parts))]
pub(crate) fn avi_parts() -> &'static [Part]
    ensures { table_in_code result.now ≡ avi_parts }
{
    AVI
}
