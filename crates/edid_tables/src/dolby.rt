//! Dolby's block, by the version in the top three bits of its first byte and by its length (as its makers and `edid-decode` read it:
//! the document is not public).
ghost use Rattle.std.specs.Prelude.{◌≡◌};
ghost use Rattle.edid_fields.specs.Forms.{table_in_code};
ghost use Rattle.edid_tables.specs.Tables.{dolby_parts};

use crate::rows::field_rows;
use edid_fields::{Asked, Bits, Part, Size, Test, Times};

/// The version.
const VERSION: Bits = Bits {
    part: 0,
    byte: 0,
    high: 7,
    low: 5,
};

/// Whether it is this version.
macro_rules! version {
    ($least:literal $greatest:literal) => {
        Test {
            asked: Asked::Value(VERSION),
            least: $least,
            greatest: $greatest,
        }
    };
}

/// The block, after its identifier. Of version 0 the bytes after the first are its own; of a reserved one no field is known.
const DOLBY: &[Part] = &[
    (
        Times::Once,
        &[
            (
                &[
                    version!(1 1),
                    Test {
                        asked: Asked::Length,
                        least: 7,
                        greatest: 7,
                    },
                ],
                Size { bytes: 7, least: 7 },
                field_rows! {
                    0 7 5 "version" [1 1 ""];
                    0 4 2 "DM_Version" [any];
                    0 1 1 "2160p60" [flag "2160p60"];
                    0 0 0 "YCbCr 4:2:2 at 12 bits" [flag "YCbCr 4:2:2 at 12 bits"];
                    1 7 1 "Target max luminance" [any];
                    1 0 0 "Global_Dimming" [flag "global dimming"];
                    2 7 1 "Target min luminance" [any];
                    2 0 0 "Colorimetry" [0 0 "near BT.709", 1 1 "near P3-D65"];
                    3 7 5 "blue x" [any];
                    3 4 2 "blue y" [any];
                    3 1 0 "low latency" [0 0 "standard latency", 1 1 "standard and low latency"];
                    4 7 1 "green x" [any];
                    4 0 0 "red y bit 0" [any];
                    5 7 1 "green y" [any];
                    5 0 0 "red y bit 1" [any];
                    6 7 3 "red x" [any];
                    6 2 0 "red y high" [any];
                },
            ),
            (
                &[version!(1 1)],
                Size {
                    bytes: 10,
                    least: 10,
                },
                field_rows! {
                    0 7 5 "version" [1 1 ""];
                    0 4 2 "DM_Version" [any];
                    0 1 1 "2160p60" [flag "2160p60"];
                    0 0 0 "YCbCr 4:2:2 at 12 bits" [flag "YCbCr 4:2:2 at 12 bits"];
                    1 7 1 "Target max luminance" [any];
                    1 0 0 "Global_Dimming" [flag "global dimming"];
                    2 7 1 "Target min luminance" [any];
                    2 0 0 "Colorimetry" [0 0 "near BT.709", 1 1 "near P3-D65"];
                    3 7 0 "reserved byte" [clear];
                    4 7 0 "red x" [any];
                    5 7 0 "red y" [any];
                    6 7 0 "green x" [any];
                    7 7 0 "green y" [any];
                    8 7 0 "blue x" [any];
                    9 7 0 "blue y" [any];
                },
            ),
            (
                &[version!(2 2)],
                Size { bytes: 7, least: 7 },
                field_rows! {
                    0 7 5 "version" [any];
                    0 4 2 "DM_Version" [any];
                    0 1 1 "backlight control" [flag "backlight control"];
                    0 0 0 "YCbCr 4:2:2 at 12 bits" [flag "YCbCr 4:2:2 at 12 bits"];
                    1 7 3 "Target min PQ" [any];
                    1 2 2 "Global_Dimming" [flag "global dimming"];
                    1 1 0 "Backlight Min Luma" [any];
                    2 7 3 "Target max PQ" [any];
                    2 2 2 "reserved" [clear];
                    2 1 0 "interface" [0 0 "low latency", 1 1 "low latency, also over HDMI", 2 2 "standard and low latency", 3 3 "standard and low latency, also over HDMI"];
                    3 7 1 "green x" [any];
                    3 0 0 "12b 4:4:4" [flag "4:4:4 at 12 bits"];
                    4 7 1 "green y" [any];
                    4 0 0 "10b 4:4:4" [flag "4:4:4 at 10 bits"];
                    5 7 3 "red x" [any];
                    5 2 0 "blue x" [any];
                    6 7 3 "red y" [any];
                    6 2 0 "blue y" [any];
                },
            ),
            (
                &[],
                Size { bytes: 1, least: 1 },
                field_rows! {
                    0 7 5 "version" [clear];
                    0 4 0 "low bits" [any];
                },
            ),
        ],
    ),
    (
        Times::ToEnd,
        &[
            (
                &[version!(0 0)],
                Size { bytes: 1, least: 1 },
                field_rows! {
                    0 7 0 "of the version" [any];
                },
            ),
            (
                &[version!(3 7)],
                Size { bytes: 1, least: 1 },
                field_rows! {
                    0 7 0 "of the version" [any];
                },
            ),
        ],
    ),
];

#[tactic(auto, unfolding(crate::specs::Tables::dolby_parts))]
pub(crate) fn dolby_parts() -> &'static [Part]
    ensures { table_in_code result.now ≡ dolby_parts }
{
    DOLBY
}
