//! Detailed timings (E-EDID Release A, revision 2, section 3.10.2).
ghost use Rattle.std.specs.Prelude.{◌≡◌};
ghost use Rattle.edid_fields.specs.Forms.{table_in_code};
ghost use Rattle.edid_tables.specs.Sections.{timing_parts};

use crate::rows::{field_rows, test};
use edid_fields::{Bits, Part, Size, Times};

/// The sync signal.
const SYNC: Bits = Bits {
    part: 1,
    byte: 0,
    high: 4,
    low: 3,
};

/// A detailed timing.
const TIMING: &[Part] = &[
    (
        Times::Once,
        &[(
            &[],
            Size {
                bytes: 17,
                least: 17,
            },
            field_rows! {
                0 7 0 "Pixel Clock / 10 kHz, bits 7 to 0" [any];
                1 7 0 "Pixel Clock / 10 kHz, bits 15 to 8" [any];
                2 7 0 "Horizontal Addressable Video, bits 7 to 0" [any];
                3 7 0 "Horizontal Blanking, bits 7 to 0" [any];
                4 7 4 "Horizontal Addressable Video, bits 11 to 8" [any];
                4 3 0 "Horizontal Blanking, bits 11 to 8" [any];
                5 7 0 "Vertical Addressable Video, bits 7 to 0" [any];
                6 7 0 "Vertical Blanking, bits 7 to 0" [any];
                7 7 4 "Vertical Addressable Video, bits 11 to 8" [any];
                7 3 0 "Vertical Blanking, bits 11 to 8" [any];
                8 7 0 "Horizontal Front Porch, bits 7 to 0" [any];
                9 7 0 "Horizontal Sync Pulse Width, bits 7 to 0" [any];
                10 7 4 "Vertical Front Porch, bits 3 to 0" [any];
                10 3 0 "Vertical Sync Pulse Width, bits 3 to 0" [any];
                11 7 6 "Horizontal Front Porch, bits 9 to 8" [any];
                11 5 4 "Horizontal Sync Pulse Width, bits 9 to 8" [any];
                11 3 2 "Vertical Front Porch, bits 5 to 4" [any];
                11 1 0 "Vertical Sync Pulse Width, bits 5 to 4" [any];
                12 7 0 "Horizontal Image Size, bits 7 to 0" [any];
                13 7 0 "Vertical Image Size, bits 7 to 0" [any];
                14 7 4 "Horizontal Image Size, bits 11 to 8" [any];
                14 3 0 "Vertical Image Size, bits 11 to 8" [any];
                15 7 0 "Horizontal Border" [any];
                16 7 0 "Vertical Border" [any];
            },
        )],
    ),
    (
        Times::Once,
        &[
            (
                &[test!(SYNC, 0, 1)],
                Size { bytes: 1, least: 1 },
                field_rows! {
                    0 7 7 "Signal Interface Type" [0 0 "non-interlaced", 1 1 "interlaced"];
                    0 6 5 "Stereo Viewing Support, bits 2 to 1" [0 0 "normal display", 1 3 "stereo"];
                    0 4 3 "Sync Signal" [0 0 "analog composite", 1 1 "bipolar analog composite"];
                    0 2 2 "Serrations" [flag "horizontal sync during vertical sync"];
                    0 1 1 "Sync on Video" [0 0 "on green alone", 1 1 "on all three"];
                    0 0 0 "Stereo Viewing Support, bit 0" [any];
                },
            ),
            (
                &[test!(SYNC, 2, 2)],
                Size { bytes: 1, least: 1 },
                field_rows! {
                    0 7 7 "Signal Interface Type" [0 0 "non-interlaced", 1 1 "interlaced"];
                    0 6 5 "Stereo Viewing Support, bits 2 to 1" [0 0 "normal display", 1 3 "stereo"];
                    0 4 3 "Sync Signal" [2 2 "digital composite"];
                    0 2 2 "Serrations" [flag "horizontal sync during vertical sync"];
                    0 1 1 "Horizontal Sync" [0 0 "negative", 1 1 "positive"];
                    0 0 0 "Stereo Viewing Support, bit 0" [any];
                },
            ),
            (
                &[],
                Size { bytes: 1, least: 1 },
                field_rows! {
                    0 7 7 "Signal Interface Type" [0 0 "non-interlaced", 1 1 "interlaced"];
                    0 6 5 "Stereo Viewing Support, bits 2 to 1" [0 0 "normal display", 1 3 "stereo"];
                    0 4 3 "Sync Signal" [3 3 "digital separate"];
                    0 2 2 "Vertical Sync" [0 0 "negative", 1 1 "positive"];
                    0 1 1 "Horizontal Sync" [0 0 "negative", 1 1 "positive"];
                    0 0 0 "Stereo Viewing Support, bit 0" [any];
                },
            ),
        ],
    ),
];

#[tactic(auto, unfolding(crate::specs::Sections::timing_parts))]
pub(crate) fn timing_parts() -> &'static [Part]
    ensures { table_in_code result.now ≡ timing_parts }
{
    TIMING
}
