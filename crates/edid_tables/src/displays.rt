//! Display descriptors (E-EDID Release A, revision 2, section 3.10.3).
ghost use Rattle.std.specs.Prelude.{◌≡◌};
ghost use Rattle.edid_fields.specs.Forms.{table_in_code};
ghost use Rattle.edid_tables.specs.Sections.{text_parts, other_parts, dummy_parts, limits_parts, points_parts, more_parts, management_parts, codes_parts, established_iii_parts};

use crate::base::STANDARD_TIMING;
use crate::rows::{field_rows, test};
use edid_fields::{Bits, Part, Size, Times};

/// The first four bytes of a display descriptor (table 3.22).
const HEAD: Part = (
    Times::Once,
    &[(
        &[],
        Size { bytes: 4, least: 4 },
        field_rows! {
            0 7 0 "Indication, byte 0" [clear];
            1 7 0 "Indication, byte 1" [clear];
            2 7 0 "Reserved, byte 2" [clear];
            3 7 0 "Display Descriptor Tag" [0 15 "manufacturer's", 16 16 "dummy", 247 247 "Established Timings III", 248 248 "CVT 3 Byte Timing Codes", 249 249 "Display Color Management Data", 250 250 "Standard Timing Identifications", 251 251 "Color Point Data", 252 252 "Display Product Name", 253 253 "Display Range Limits", 254 254 "Alphanumeric Data String", 255 255 "Display Product Serial Number"];
        },
    )],
);

/// Byte 4 of most of them.
const RESERVED: Part = (
    Times::Once,
    &[(
        &[],
        Size { bytes: 1, least: 1 },
        field_rows! {
            0 7 0 "Reserved, byte 4" [clear];
        },
    )],
);

/// A name, a text or a serial number (sections 3.10.3.1, 3.10.3.2 and 3.10.3.4).
const TEXT: &[Part] = &[
    HEAD,
    RESERVED,
    (
        Times::ToEnd,
        &[(
            &[],
            Size { bytes: 1, least: 1 },
            field_rows! {
                0 7 0 "character" [any];
            },
        )],
    ),
];

#[tactic(auto, unfolding(crate::specs::Sections::text_parts))]
pub(crate) fn text_parts() -> &'static [Part]
    ensures { table_in_code result.now ≡ text_parts }
{
    TEXT
}

/// A manufacturer's descriptor, or one whose tag is reserved.
const OTHER: &[Part] = &[
    HEAD,
    (
        Times::ToEnd,
        &[(
            &[],
            Size { bytes: 1, least: 1 },
            field_rows! {
                0 7 0 "byte" [any];
            },
        )],
    ),
];

#[tactic(auto, unfolding(crate::specs::Sections::other_parts))]
pub(crate) fn other_parts() -> &'static [Part]
    ensures { table_in_code result.now ≡ other_parts }
{
    OTHER
}

/// A descriptor that stands for none (section 3.10.3.11).
const DUMMY: &[Part] = &[
    HEAD,
    RESERVED,
    (
        Times::ToEnd,
        &[(
            &[],
            Size { bytes: 1, least: 1 },
            field_rows! {
                0 7 0 "byte" [clear];
            },
        )],
    ),
];

#[tactic(auto, unfolding(crate::specs::Sections::dummy_parts))]
pub(crate) fn dummy_parts() -> &'static [Part]
    ensures { table_in_code result.now ≡ dummy_parts }
{
    DUMMY
}

/// How timings are supported.
const SUPPORT: Bits = Bits {
    part: 1,
    byte: 6,
    high: 7,
    low: 0,
};

/// Range limits (section 3.10.3.3).
const LIMITS: &[Part] = &[
    HEAD,
    (
        Times::Once,
        &[(
            &[],
            Size { bytes: 7, least: 7 },
            field_rows! {
                0 7 4 "Reserved, byte 4" [clear];
                0 3 2 "Horizontal Rate Offsets" [0 0 "zero", 2 2 "greatest rate and 255", 3 3 "both rates and 255"];
                0 1 0 "Vertical Rate Offsets" [0 0 "zero", 2 2 "greatest rate and 255", 3 3 "both rates and 255"];
                1 7 0 "Minimum Vertical Rate" [1 255 ""];
                2 7 0 "Maximum Vertical Rate" [1 255 ""];
                3 7 0 "Minimum Horizontal Rate" [1 255 ""];
                4 7 0 "Maximum Horizontal Rate" [1 255 ""];
                5 7 0 "Maximum Pixel Clock / 10 MHz" [1 255 ""];
                6 7 0 "Video Timing Support Flags" [0 0 "Default GTF", 1 1 "Range Limits Only", 2 2 "Secondary GTF", 4 4 "CVT"];
            },
        )],
    ),
    (
        Times::Once,
        &[
            (
                &[test!(SUPPORT, 0, 1)],
                Size { bytes: 7, least: 7 },
                field_rows! {
                    0 7 0 "Line Feed" [10 10 ""];
                    1 7 0 "Space" [32 32 ""];
                    2 7 0 "Space" [32 32 ""];
                    3 7 0 "Space" [32 32 ""];
                    4 7 0 "Space" [32 32 ""];
                    5 7 0 "Space" [32 32 ""];
                    6 7 0 "Space" [32 32 ""];
                },
            ),
            (
                &[test!(SUPPORT, 2, 2)],
                Size { bytes: 7, least: 7 },
                field_rows! {
                    0 7 0 "Reserved, byte 11" [clear];
                    1 7 0 "Start break frequency / 2 kHz" [any];
                    2 7 0 "C x 2" [any];
                    3 7 0 "M, bits 7 to 0" [any];
                    4 7 0 "M, bits 15 to 8" [any];
                    5 7 0 "K" [any];
                    6 7 0 "J x 2" [any];
                },
            ),
            (
                &[test!(SUPPORT, 4, 4)],
                Size { bytes: 7, least: 7 },
                field_rows! {
                    0 7 4 "CVT version" [any];
                    0 3 0 "CVT revision" [any];
                    1 7 2 "Additional Precision Pixel Clock" [any];
                    1 1 0 "Maximum Active Pixels a Line, bits 9 to 8" [any];
                    2 7 0 "Maximum Active Pixels a Line, bits 7 to 0" [any];
                    3 7 7 "Aspect Ratio 4:3" [flag "supported"];
                    3 6 6 "Aspect Ratio 16:9" [flag "supported"];
                    3 5 5 "Aspect Ratio 16:10" [flag "supported"];
                    3 4 4 "Aspect Ratio 5:4" [flag "supported"];
                    3 3 3 "Aspect Ratio 15:9" [flag "supported"];
                    3 2 0 "Reserved, byte 14" [clear];
                    4 7 5 "Preferred Aspect Ratio" [0 0 "4:3", 1 1 "16:9", 2 2 "16:10", 3 3 "5:4", 4 4 "15:9"];
                    4 4 4 "CVT Reduced Blanking" [flag "supported"];
                    4 3 3 "CVT Standard Blanking" [flag "supported"];
                    4 2 0 "Reserved, byte 15" [clear];
                    5 7 7 "Horizontal Shrink" [flag "supported"];
                    5 6 6 "Horizontal Stretch" [flag "supported"];
                    5 5 5 "Vertical Shrink" [flag "supported"];
                    5 4 4 "Vertical Stretch" [flag "supported"];
                    5 3 0 "Reserved, byte 16" [clear];
                    6 7 0 "Preferred Vertical Refresh Rate" [1 255 ""];
                },
            ),
            (
                &[],
                Size { bytes: 7, least: 7 },
                field_rows! {
                    0 7 0 "byte" [any];
                    1 7 0 "byte" [any];
                    2 7 0 "byte" [any];
                    3 7 0 "byte" [any];
                    4 7 0 "byte" [any];
                    5 7 0 "byte" [any];
                    6 7 0 "byte" [any];
                },
            ),
        ],
    ),
];

#[tactic(auto, unfolding(crate::specs::Sections::limits_parts))]
pub(crate) fn limits_parts() -> &'static [Part]
    ensures { table_in_code result.now ≡ limits_parts }
{
    LIMITS
}

/// A white point.
const POINT: Part = (
    Times::Once,
    &[(
        &[],
        Size { bytes: 5, least: 5 },
        field_rows! {
            0 7 0 "White Point Index Number" [any];
            1 7 4 "Reserved" [clear];
            1 3 2 "White x, bits 1 to 0" [any];
            1 1 0 "White y, bits 1 to 0" [any];
            2 7 0 "White x, bits 9 to 2" [any];
            3 7 0 "White y, bits 9 to 2" [any];
            4 7 0 "Gamma" [any];
        },
    )],
);

/// White points (section 3.10.3.5).
const POINTS: &[Part] = &[
    HEAD,
    RESERVED,
    POINT,
    POINT,
    (
        Times::Once,
        &[(
            &[],
            Size { bytes: 3, least: 3 },
            field_rows! {
                0 7 0 "Line Feed" [10 10 ""];
                1 7 0 "Space" [32 32 ""];
                2 7 0 "Space" [32 32 ""];
            },
        )],
    ),
];

#[tactic(auto, unfolding(crate::specs::Sections::points_parts))]
pub(crate) fn points_parts() -> &'static [Part]
    ensures { table_in_code result.now ≡ points_parts }
{
    POINTS
}

/// Six more standard timings (section 3.10.3.6).
const MORE: &[Part] = &[
    HEAD,
    RESERVED,
    STANDARD_TIMING,
    STANDARD_TIMING,
    STANDARD_TIMING,
    STANDARD_TIMING,
    STANDARD_TIMING,
    STANDARD_TIMING,
    (
        Times::Once,
        &[(
            &[],
            Size { bytes: 1, least: 1 },
            field_rows! {
                0 7 0 "Line Feed" [10 10 ""];
            },
        )],
    ),
];

#[tactic(auto, unfolding(crate::specs::Sections::more_parts))]
pub(crate) fn more_parts() -> &'static [Part]
    ensures { table_in_code result.now ≡ more_parts }
{
    MORE
}

/// Color management (section 3.10.3.7).
const MANAGEMENT: &[Part] = &[
    HEAD,
    RESERVED,
    (
        Times::Once,
        &[(
            &[],
            Size {
                bytes: 13,
                least: 13,
            },
            field_rows! {
                0 7 0 "Version Number" [3 3 ""];
                1 7 0 "Red a3, bits 7 to 0" [any];
                2 7 0 "Red a3, bits 15 to 8" [any];
                3 7 0 "Red a2, bits 7 to 0" [any];
                4 7 0 "Red a2, bits 15 to 8" [any];
                5 7 0 "Green a3, bits 7 to 0" [any];
                6 7 0 "Green a3, bits 15 to 8" [any];
                7 7 0 "Green a2, bits 7 to 0" [any];
                8 7 0 "Green a2, bits 15 to 8" [any];
                9 7 0 "Blue a3, bits 7 to 0" [any];
                10 7 0 "Blue a3, bits 15 to 8" [any];
                11 7 0 "Blue a2, bits 7 to 0" [any];
                12 7 0 "Blue a2, bits 15 to 8" [any];
            },
        )],
    ),
];

#[tactic(auto, unfolding(crate::specs::Sections::management_parts))]
pub(crate) fn management_parts() -> &'static [Part]
    ensures { table_in_code result.now ≡ management_parts }
{
    MANAGEMENT
}

/// CVT timings of three bytes (section 3.10.3.8).
const CODES: &[Part] = &[
    HEAD,
    RESERVED,
    (
        Times::Once,
        &[(
            &[],
            Size { bytes: 1, least: 1 },
            field_rows! {
                0 7 0 "Version Number" [1 1 ""];
            },
        )],
    ),
    (
        Times::ToEnd,
        &[(
            &[],
            Size { bytes: 3, least: 3 },
            field_rows! {
                0 7 0 "Addressable Lines, bits 7 to 0" [any];
                1 7 4 "Addressable Lines, bits 11 to 8" [any];
                1 3 2 "Aspect Ratio" [0 0 "4:3", 1 1 "16:9", 2 2 "16:10", 3 3 "15:9"];
                1 1 0 "Reserved" [clear];
                2 7 7 "Reserved" [clear];
                2 6 5 "Preferred Vertical Rate" [0 0 "50 Hz", 1 1 "60 Hz", 2 2 "75 Hz", 3 3 "85 Hz"];
                2 4 4 "50 Hz" [flag "supported"];
                2 3 3 "60 Hz" [flag "supported"];
                2 2 2 "75 Hz" [flag "supported"];
                2 1 1 "85 Hz" [flag "supported"];
                2 0 0 "60 Hz with reduced blanking" [flag "supported"];
            },
        )],
    ),
];

#[tactic(auto, unfolding(crate::specs::Sections::codes_parts))]
pub(crate) fn codes_parts() -> &'static [Part]
    ensures { table_in_code result.now ≡ codes_parts }
{
    CODES
}

/// Established timings III (section 3.10.3.9).
const ESTABLISHED_III: &[Part] = &[
    HEAD,
    RESERVED,
    (
        Times::Once,
        &[(
            &[],
            Size {
                bytes: 13,
                least: 13,
            },
            field_rows! {
                0 7 0 "Revision Number" [10 10 ""];
                1 7 7 "640x350 at 85 Hz" [flag "supported"];
                1 6 6 "640x400 at 85 Hz" [flag "supported"];
                1 5 5 "720x400 at 85 Hz" [flag "supported"];
                1 4 4 "640x480 at 85 Hz" [flag "supported"];
                1 3 3 "848x480 at 60 Hz" [flag "supported"];
                1 2 2 "800x600 at 85 Hz" [flag "supported"];
                1 1 1 "1024x768 at 85 Hz" [flag "supported"];
                1 0 0 "1152x864 at 75 Hz" [flag "supported"];
                2 7 7 "1280x768 at 60 Hz with reduced blanking" [flag "supported"];
                2 6 6 "1280x768 at 60 Hz" [flag "supported"];
                2 5 5 "1280x768 at 75 Hz" [flag "supported"];
                2 4 4 "1280x768 at 85 Hz" [flag "supported"];
                2 3 3 "1280x960 at 60 Hz" [flag "supported"];
                2 2 2 "1280x960 at 85 Hz" [flag "supported"];
                2 1 1 "1280x1024 at 60 Hz" [flag "supported"];
                2 0 0 "1280x1024 at 85 Hz" [flag "supported"];
                3 7 7 "1360x768 at 60 Hz" [flag "supported"];
                3 6 6 "1440x900 at 60 Hz with reduced blanking" [flag "supported"];
                3 5 5 "1440x900 at 60 Hz" [flag "supported"];
                3 4 4 "1440x900 at 75 Hz" [flag "supported"];
                3 3 3 "1440x900 at 85 Hz" [flag "supported"];
                3 2 2 "1400x1050 at 60 Hz with reduced blanking" [flag "supported"];
                3 1 1 "1400x1050 at 60 Hz" [flag "supported"];
                3 0 0 "1400x1050 at 75 Hz" [flag "supported"];
                4 7 7 "1400x1050 at 85 Hz" [flag "supported"];
                4 6 6 "1680x1050 at 60 Hz with reduced blanking" [flag "supported"];
                4 5 5 "1680x1050 at 60 Hz" [flag "supported"];
                4 4 4 "1680x1050 at 75 Hz" [flag "supported"];
                4 3 3 "1680x1050 at 85 Hz" [flag "supported"];
                4 2 2 "1600x1200 at 60 Hz" [flag "supported"];
                4 1 1 "1600x1200 at 65 Hz" [flag "supported"];
                4 0 0 "1600x1200 at 70 Hz" [flag "supported"];
                5 7 7 "1600x1200 at 75 Hz" [flag "supported"];
                5 6 6 "1600x1200 at 85 Hz" [flag "supported"];
                5 5 5 "1792x1344 at 60 Hz" [flag "supported"];
                5 4 4 "1792x1344 at 75 Hz" [flag "supported"];
                5 3 3 "1856x1392 at 60 Hz" [flag "supported"];
                5 2 2 "1856x1392 at 75 Hz" [flag "supported"];
                5 1 1 "1920x1200 at 60 Hz with reduced blanking" [flag "supported"];
                5 0 0 "1920x1200 at 60 Hz" [flag "supported"];
                6 7 7 "1920x1200 at 75 Hz" [flag "supported"];
                6 6 6 "1920x1200 at 85 Hz" [flag "supported"];
                6 5 5 "1920x1440 at 60 Hz" [flag "supported"];
                6 4 4 "1920x1440 at 75 Hz" [flag "supported"];
                6 3 0 "Reserved, byte 11" [clear];
                7 7 0 "Reserved, byte 12" [clear];
                8 7 0 "Reserved, byte 13" [clear];
                9 7 0 "Reserved, byte 14" [clear];
                10 7 0 "Reserved, byte 15" [clear];
                11 7 0 "Reserved, byte 16" [clear];
                12 7 0 "Reserved, byte 17" [clear];
            },
        )],
    ),
];

#[tactic(auto, unfolding(crate::specs::Sections::established_iii_parts))]
pub(crate) fn established_iii_parts() -> &'static [Part]
    ensures { table_in_code result.now ≡ established_iii_parts }
{
    ESTABLISHED_III
}
