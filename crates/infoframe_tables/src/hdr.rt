//! Dynamic Range and Mastering (CTA-861-H, section 6, Dynamic Range and Mastering InfoFrame).
ghost use Rattle.std.specs.Prelude.{◌≡◌};
ghost use Rattle.edid_fields.specs.Forms.{table_in_code};
ghost use Rattle.infoframe_tables.specs.Tables.{hdr_parts};

use crate::rows::{field_rows, header_rows};
use edid_fields::{Part, Size, Times};

/// Static metadata of type 1 (SMPTE ST 2086, and the light levels of the content).
const METADATA: Size = Size {
    bytes: 24,
    least: 24,
};

const HDR: &[Part] = &[
    (
        Times::Once,
        &[(
            &[],
            Size { bytes: 4, least: 4 },
            header_rows!([135 135 "Dynamic Range and Mastering"] [1 1 ""] [26 26 ""]),
        )],
    ),
    (
        Times::Once,
        &[(
            &[],
            Size { bytes: 2, least: 2 },
            field_rows! {
                0 7 3 "reserved" [clear];
                0 2 0 "EOTF" [0 0 "traditional gamma SDR", 1 1 "traditional gamma HDR", 2 2 "SMPTE ST 2084", 3 3 "hybrid log-gamma"];
                1 7 3 "reserved" [clear];
                1 2 0 "Static_Metadata_Descriptor_ID" [0 0 "static metadata type 1"];
            },
        )],
    ),
    (
        Times::Once,
        &[(
            &[],
            METADATA,
            field_rows! {
                0 7 0 "display_primaries_x[0], bits 7 to 0" [any];
                1 7 0 "display_primaries_x[0], bits 15 to 8" [any];
                2 7 0 "display_primaries_y[0], bits 7 to 0" [any];
                3 7 0 "display_primaries_y[0], bits 15 to 8" [any];
                4 7 0 "display_primaries_x[1], bits 7 to 0" [any];
                5 7 0 "display_primaries_x[1], bits 15 to 8" [any];
                6 7 0 "display_primaries_y[1], bits 7 to 0" [any];
                7 7 0 "display_primaries_y[1], bits 15 to 8" [any];
                8 7 0 "display_primaries_x[2], bits 7 to 0" [any];
                9 7 0 "display_primaries_x[2], bits 15 to 8" [any];
                10 7 0 "display_primaries_y[2], bits 7 to 0" [any];
                11 7 0 "display_primaries_y[2], bits 15 to 8" [any];
                12 7 0 "white_point_x, bits 7 to 0" [any];
                13 7 0 "white_point_x, bits 15 to 8" [any];
                14 7 0 "white_point_y, bits 7 to 0" [any];
                15 7 0 "white_point_y, bits 15 to 8" [any];
                16 7 0 "max_display_mastering_luminance, bits 7 to 0" [any];
                17 7 0 "max_display_mastering_luminance, bits 15 to 8" [any];
                18 7 0 "min_display_mastering_luminance, bits 7 to 0" [any];
                19 7 0 "min_display_mastering_luminance, bits 15 to 8" [any];
                20 7 0 "Maximum Content Light Level, bits 7 to 0" [any];
                21 7 0 "Maximum Content Light Level, bits 15 to 8" [any];
                22 7 0 "Maximum Frame-average Light Level, bits 7 to 0" [any];
                23 7 0 "Maximum Frame-average Light Level, bits 15 to 8" [any];
            },
        )],
    ),
    (
        Times::ToEnd,
        &[(
            &[],
            Size { bytes: 1, least: 1 },
            field_rows! {
                0 7 0 "reserved" [clear];
            },
        )],
    ),
];

#[tactic(auto, unfolding(crate::specs::Tables::hdr_parts))]
pub(crate) fn hdr_parts() -> &'static [Part]
    ensures { table_in_code result.now ≡ hdr_parts }
{
    HDR
}
