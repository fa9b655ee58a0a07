//! What a data block begins with (CTA-861-H, section 7.4, tables 54 to 56).
ghost use Rattle.std.specs.Prelude.{◌≡◌};
ghost use Rattle.edid_fields.specs.Forms.{table_in_code};
ghost use Rattle.edid_tables.specs.Frames.{extended_parts, head_parts, identifier_parts, no_parts, payload_parts};

use crate::rows::{field_row, field_rows};
use edid_fields::{Asked, Bits, Part, Row, Size, Test, Times};

const BYTE: Size = Size { bytes: 1, least: 1 };

/// The identifier of a vendor, its lowest byte first.
const IDENTIFIER_SIZE: Size = Size { bytes: 3, least: 3 };

/// The extended tag.
const EXTENDED_TAG_BITS: Bits = Bits {
    part: 0,
    byte: 0,
    high: 7,
    low: 0,
};

/// The tag of a data block.
pub(crate) const TAG: Row = field_row! {
    0 7 5 "Tag Code" [
        1 1 "Audio Data Block",
        2 2 "Video Data Block",
        3 3 "Vendor-Specific Data Block",
        4 4 "Speaker Allocation Data Block",
        5 5 "VESA Display Transfer Characteristic Data Block",
        6 6 "Video Format Data Block",
        7 7 "extended"
    ]
};

const LENGTH: Row = field_row!(0 4 0 "Length" [any]);

/// The extended tag of a data block of tag 7; those from 120 to 127 are HDMI's (HDMI 2.1, section 10.3).
pub(crate) const EXTENDED_TAG: Row = field_row! {
    0 7 0 "Extended Tag Code" [
        0 0 "Video Capability Data Block",
        1 1 "Vendor-Specific Video Data Block",
        2 2 "VESA Display Device Data Block",
        3 3 "VESA Video Timing Block Extension",
        5 5 "Colorimetry Data Block",
        6 6 "HDR Static Metadata Data Block",
        7 7 "HDR Dynamic Metadata Data Block",
        8 8 "Native Video Resolution Data Block",
        13 13 "Video Format Preference Data Block",
        14 14 "YCbCr 4:2:0 Video Data Block",
        15 15 "YCbCr 4:2:0 Capability Map Data Block",
        17 17 "Vendor-Specific Audio Data Block",
        18 18 "HDMI Audio Data Block",
        19 19 "Room Configuration Data Block",
        20 20 "Speaker Location Data Block",
        32 32 "InfoFrame Data Block",
        34 34 "DisplayID Type VII Video Timing Data Block",
        35 35 "DisplayID Type VIII Video Timing Data Block",
        42 42 "DisplayID Type X Video Timing Data Block",
        120 120 "HDMI Forum EDID Extension Override Data Block",
        121 121 "HDMI Forum Sink Capability Data Block"
    ]
};

/// The byte of tag and length.
const HEAD: &[Part] = &[(Times::Once, &[(&[], BYTE, &[TAG, LENGTH])])];

#[tactic(auto, unfolding(crate::specs::Frames::head_parts))]
pub(crate) fn head_parts() -> &'static [Part]
    ensures { table_in_code result.now ≡ head_parts }
{
    HEAD
}

/// A vendor's identifier.
const IDENTIFIER: &[Part] = &[(
    Times::Once,
    &[(
        &[],
        IDENTIFIER_SIZE,
        field_rows! {
            0 7 0 "IEEE OUI, bits 7 to 0" [any];
            1 7 0 "IEEE OUI, bits 15 to 8" [any];
            2 7 0 "IEEE OUI, bits 23 to 16" [any];
        },
    )],
)];

#[tactic(auto, unfolding(crate::specs::Frames::identifier_parts))]
pub(crate) fn identifier_parts() -> &'static [Part]
    ensures { table_in_code result.now ≡ identifier_parts }
{
    IDENTIFIER
}

/// An extended tag, and after those of vendors' video and audio an identifier.
const EXTENDED: &[Part] = &[
    (Times::Once, &[(&[], BYTE, &[EXTENDED_TAG])]),
    (
        Times::Once,
        &[
            (
                &[Test {
                    asked: Asked::Value(EXTENDED_TAG_BITS),
                    least: 1,
                    greatest: 1,
                }],
                IDENTIFIER_SIZE,
                field_rows! {
                    0 7 0 "IEEE OUI, bits 7 to 0" [any];
                    1 7 0 "IEEE OUI, bits 15 to 8" [any];
                    2 7 0 "IEEE OUI, bits 23 to 16" [any];
                },
            ),
            (
                &[Test {
                    asked: Asked::Value(EXTENDED_TAG_BITS),
                    least: 17,
                    greatest: 17,
                }],
                IDENTIFIER_SIZE,
                field_rows! {
                    0 7 0 "IEEE OUI, bits 7 to 0" [any];
                    1 7 0 "IEEE OUI, bits 15 to 8" [any];
                    2 7 0 "IEEE OUI, bits 23 to 16" [any];
                },
            ),
        ],
    ),
];

#[tactic(auto, unfolding(crate::specs::Frames::extended_parts))]
pub(crate) fn extended_parts() -> &'static [Part]
    ensures { table_in_code result.now ≡ extended_parts }
{
    EXTENDED
}

/// Bytes that have no table.
const PAYLOAD: &[Part] = &[(
    Times::ToEnd,
    &[(
        &[],
        BYTE,
        field_rows! {
            0 7 0 "payload" [any];
        },
    )],
)];

#[tactic(auto, unfolding(crate::specs::Frames::payload_parts))]
pub(crate) fn payload_parts() -> &'static [Part]
    ensures { table_in_code result.now ≡ payload_parts }
{
    PAYLOAD
}

/// No bytes.
const NOTHING: &[Part] = &[];

#[tactic(auto, unfolding(crate::specs::Frames::no_parts))]
pub(crate) fn no_parts() -> &'static [Part]
    ensures { table_in_code result.now ≡ no_parts }
{
    NOTHING
}
