//! Vendor-Specific InfoFrames, and those of types that have no table.
ghost use Rattle.std.specs.Prelude.{◌≡◌};
ghost use Rattle.edid_fields.specs.Forms.{table_in_code};
ghost use Rattle.infoframe_tables.specs.Tables.{forum_parts, hdmi_parts, other_parts, vendor_parts};

use crate::rows::{field_rows, header_rows, test};
use edid_fields::{Bits, Part, Row, Size, Times};

/// The header and the checksum.
const HEADER: Size = Size { bytes: 4, least: 4 };
/// A part of one byte.
const BYTE: Size = Size { bytes: 1, least: 1 };
/// The identifier of a vendor.
const IDENTIFIER: Size = Size { bytes: 3, least: 3 };

/// The identifier of a vendor, its lowest byte first.
const IDENTIFIER_ROWS: &[Row] = field_rows! {
    0 7 0 "IEEE OUI, bits 7 to 0" [any];
    1 7 0 "IEEE OUI, bits 15 to 8" [any];
    2 7 0 "IEEE OUI, bits 23 to 16" [any];
};

/// How many bytes of metadata of 3D follow, in HDMI's InfoFrame.
const METADATA_LENGTH: Bits = Bits {
    part: 5,
    byte: 0,
    high: 4,
    low: 0,
};

/// The InfoFrame of HDMI (HDMI 1.4b, section 8.2.3).
const HDMI: &[Part] = &[
    (
        Times::Once,
        &[(
            &[],
            HEADER,
            header_rows!([129 129 "Vendor-Specific"] [1 1 ""] [4 27 ""]),
        )],
    ),
    (Times::Once, &[(&[], IDENTIFIER, IDENTIFIER_ROWS)]),
    (
        Times::Once,
        &[(
            &[],
            BYTE,
            field_rows! {
                0 7 5 "HDMI_Video_Format" [0 0 "", 1 1 "by HDMI_VIC", 2 2 "3D"];
                0 4 0 "reserved" [clear];
            },
        )],
    ),
    (
        Times::Once,
        &[
            (
                &[test!(2 0 7 5 is 1 to 1)],
                BYTE,
                field_rows! {
                    0 7 0 "HDMI_VIC" [1 1 "3840x2160 at 30 Hz", 2 2 "3840x2160 at 25 Hz", 3 3 "3840x2160 at 24 Hz", 4 4 "4096x2160 at 24 Hz"];
                },
            ),
            (
                &[test!(2 0 7 5 is 2 to 2)],
                BYTE,
                field_rows! {
                    0 7 4 "3D_Structure" [0 0 "frame packing", 1 1 "field alternative", 2 2 "line alternative", 3 3 "side by side (full)", 4 4 "L + depth", 5 5 "L + depth + graphics + graphics-depth", 6 6 "top and bottom", 8 8 "side by side (half)"];
                    0 3 3 "3D_Meta_present" [flag "metadata"];
                    0 2 0 "reserved" [clear];
                },
            ),
        ],
    ),
    (
        Times::Once,
        &[(
            &[test!(2 0 7 5 is 2 to 2), test!(3 0 7 4 is 8 to 15)],
            BYTE,
            field_rows! {
                0 7 4 "3D_Ext_Data" [0 3 "horizontal sub-sampling", 4 4 "quincunx, odd left and odd right", 5 5 "quincunx, odd left and even right", 6 6 "quincunx, even left and odd right", 7 7 "quincunx, even left and even right"];
                0 3 0 "reserved" [clear];
            },
        )],
    ),
    (
        Times::Once,
        &[(
            &[test!(2 0 7 5 is 2 to 2), test!(3 0 3 3 is 1 to 1)],
            BYTE,
            field_rows! {
                0 7 5 "3D_Metadata_type" [0 0 "parallax"];
                0 4 0 "3D_Metadata_Length" [any];
            },
        )],
    ),
    (
        Times::Counted(METADATA_LENGTH),
        &[(
            &[],
            BYTE,
            field_rows! {
                0 7 0 "3D_Metadata" [any];
            },
        )],
    ),
    (
        Times::ToEnd,
        &[(
            &[],
            BYTE,
            field_rows! {
                0 7 0 "reserved" [clear];
            },
        )],
    ),
];

#[tactic(auto, unfolding(crate::specs::Tables::hdmi_parts))]
pub(crate) fn hdmi_parts() -> &'static [Part]
    ensures { table_in_code result.now ≡ hdmi_parts }
{
    HDMI
}

/// The InfoFrame of the HDMI Forum (HDMI 2.1, HDMI Forum Vendor-Specific InfoFrame). The bytes after those of 3D are told as they stand.
const FORUM: &[Part] = &[
    (
        Times::Once,
        &[(
            &[],
            HEADER,
            header_rows!([129 129 "Vendor-Specific"] [1 1 ""] [5 27 ""]),
        )],
    ),
    (Times::Once, &[(&[], IDENTIFIER, IDENTIFIER_ROWS)]),
    (
        Times::Once,
        &[(
            &[],
            Size { bytes: 2, least: 2 },
            field_rows! {
                0 7 0 "Version" [1 1 ""];
                1 7 4 "CCBPC" [any];
                1 3 2 "reserved" [clear];
                1 1 1 "ALLM_Mode" [flag "ALLM"];
                1 0 0 "3D_Valid" [flag "3D"];
            },
        )],
    ),
    (
        Times::Once,
        &[(
            &[test!(2 1 0 0 is 1 to 1)],
            BYTE,
            field_rows! {
                0 7 4 "3D_F_Structure" [0 0 "frame packing", 1 1 "field alternative", 2 2 "line alternative", 3 3 "side by side (full)", 4 4 "L + depth", 5 5 "L + depth + graphics + graphics-depth", 6 6 "top and bottom", 8 8 "side by side (half)"];
                0 3 3 "3D_AdditionalInfo_present" [flag "additional information"];
                0 2 2 "3D_DisparityData_present" [flag "disparity data"];
                0 1 1 "3D_Meta_present" [flag "metadata"];
                0 0 0 "reserved" [clear];
            },
        )],
    ),
    (
        Times::ToEnd,
        &[
            (
                &[test!(2 1 0 0 is 1 to 1)],
                BYTE,
                field_rows! {
                    0 7 0 "of 3D" [any];
                },
            ),
            (
                &[],
                BYTE,
                field_rows! {
                    0 7 0 "reserved" [clear];
                },
            ),
        ],
    ),
];

#[tactic(auto, unfolding(crate::specs::Tables::forum_parts))]
pub(crate) fn forum_parts() -> &'static [Part]
    ensures { table_in_code result.now ≡ forum_parts }
{
    FORUM
}

/// The InfoFrame of another vendor (CTA-861-H, section 6, Vendor-Specific InfoFrame).
const VENDOR: &[Part] = &[
    (
        Times::Once,
        &[(
            &[],
            HEADER,
            header_rows!([129 129 "Vendor-Specific"] [any] [3 31 ""]),
        )],
    ),
    (Times::Once, &[(&[], IDENTIFIER, IDENTIFIER_ROWS)]),
    (
        Times::ToEnd,
        &[(
            &[],
            BYTE,
            field_rows! {
                0 7 0 "payload" [any];
            },
        )],
    ),
];

#[tactic(auto, unfolding(crate::specs::Tables::vendor_parts))]
pub(crate) fn vendor_parts() -> &'static [Part]
    ensures { table_in_code result.now ≡ vendor_parts }
{
    VENDOR
}

/// An InfoFrame of another type (CTA-861-H, section 6, InfoFrame types).
const OTHER: &[Part] = &[
    (
        Times::Once,
        &[(
            &[],
            HEADER,
            header_rows!([131 131 "Source Product Description", 133 133 "MPEG Source", 134 134 "NTSC VBI"] [any] [any]),
        )],
    ),
    (
        Times::ToEnd,
        &[(
            &[],
            BYTE,
            field_rows! {
                0 7 0 "payload" [any];
            },
        )],
    ),
];

#[tactic(auto, unfolding(crate::specs::Tables::other_parts))]
pub(crate) fn other_parts() -> &'static [Part]
    ensures { table_in_code result.now ≡ other_parts }
{
    OTHER
}
