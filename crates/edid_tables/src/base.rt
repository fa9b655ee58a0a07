//! The base block but for its descriptors (E-EDID Release A, revision 2, sections 3.3 to 3.9).
ghost use Rattle.std.specs.Prelude.{◌≡◌};
ghost use Rattle.edid_fields.specs.Forms.{table_in_code};
ghost use Rattle.edid_tables.specs.Sections.{header_parts, product_parts, display_parts, colors_parts, established_parts, standard_parts, count_parts, checksum_parts, cta_parts};

use crate::rows::{field_rows, test};
use edid_fields::{Bits, Part, Shape, Size, Times};

/// The header (section 3.3).
const HEADER: &[Part] = &[(
    Times::Once,
    &[(
        &[],
        Size { bytes: 8, least: 8 },
        field_rows! {
            0 7 0 "Header, byte 0" [0 0 ""];
            1 7 0 "Header, byte 1" [255 255 ""];
            2 7 0 "Header, byte 2" [255 255 ""];
            3 7 0 "Header, byte 3" [255 255 ""];
            4 7 0 "Header, byte 4" [255 255 ""];
            5 7 0 "Header, byte 5" [255 255 ""];
            6 7 0 "Header, byte 6" [255 255 ""];
            7 7 0 "Header, byte 7" [0 0 ""];
        },
    )],
)];

#[tactic(auto, unfolding(crate::specs::Sections::header_parts))]
pub(crate) fn header_parts() -> &'static [Part]
    ensures { table_in_code result.now ≡ header_parts }
{
    HEADER
}

/// Maker, product, serial number and date (section 3.4).
const PRODUCT: &[Part] = &[(
    Times::Once,
    &[(
        &[],
        Size {
            bytes: 10,
            least: 10,
        },
        field_rows! {
            0 7 7 "ID Manufacturer Name, bit 15" [clear];
            0 6 2 "ID Manufacturer Name, first letter" [1 26 ""];
            0 1 0 "ID Manufacturer Name, second letter, bits 4 to 3" [any];
            1 7 5 "ID Manufacturer Name, second letter, bits 2 to 0" [any];
            1 4 0 "ID Manufacturer Name, third letter" [1 26 ""];
            2 7 0 "ID Product Code, bits 7 to 0" [any];
            3 7 0 "ID Product Code, bits 15 to 8" [any];
            4 7 0 "ID Serial Number, bits 7 to 0" [any];
            5 7 0 "ID Serial Number, bits 15 to 8" [any];
            6 7 0 "ID Serial Number, bits 23 to 16" [any];
            7 7 0 "ID Serial Number, bits 31 to 24" [any];
            8 7 0 "Week of Manufacture" [0 0 "not specified", 1 54 "", 255 255 "a model year"];
            9 7 0 "Year of Manufacture or Model Year, less 1990" [any];
        },
    )],
)];

#[tactic(auto, unfolding(crate::specs::Sections::product_parts))]
pub(crate) fn product_parts() -> &'static [Part]
    ensures { table_in_code result.now ≡ product_parts }
{
    PRODUCT
}

const REVISION: Bits = Bits {
    part: 0,
    byte: 1,
    high: 7,
    low: 0,
};

const IS_DIGITAL: Bits = Bits {
    part: 1,
    byte: 0,
    high: 7,
    low: 7,
};

/// Version, input, size, gamma and features (sections 3.5 and 3.6). What the input and the features say goes by the revision.
const DISPLAY: &[Part] = &[
    (
        Times::Once,
        &[(
            &[],
            Size { bytes: 2, least: 2 },
            field_rows! {
                0 7 0 "EDID Version Number" [1 1 ""];
                1 7 0 "EDID Revision Number" [0 4 ""];
            },
        )],
    ),
    (
        Times::Once,
        &[
            (
                &[test!(IS_DIGITAL, 0, 0)],
                Size { bytes: 1, least: 1 },
                field_rows! {
                    0 7 7 "Video Signal Interface" [0 0 "analog"];
                    0 6 5 "Signal Level Standard" [0 0 "0.700 and 0.300 V", 1 1 "0.714 and 0.286 V", 2 2 "1.000 and 0.400 V", 3 3 "0.700 and 0.000 V"];
                    0 4 4 "Video Setup" [0 0 "blank level is black level", 1 1 "blank-to-black setup or pedestal"];
                    0 3 3 "Separate Sync H & V Signals" [flag "supported"];
                    0 2 2 "Composite Sync Signal on Horizontal" [flag "supported"];
                    0 1 1 "Composite Sync Signal on Green Video" [flag "supported"];
                    0 0 0 "Serration on the Vertical Sync" [flag "supported"];
                },
            ),
            (
                &[test!(REVISION, 4, 255)],
                Size { bytes: 1, least: 1 },
                field_rows! {
                    0 7 7 "Video Signal Interface" [1 1 "digital"];
                    0 6 4 "Color Bit Depth" [0 0 "undefined", 1 1 "6 bits", 2 2 "8 bits", 3 3 "10 bits", 4 4 "12 bits", 5 5 "14 bits", 6 6 "16 bits"];
                    0 3 0 "Digital Video Interface Standard" [0 0 "not defined", 1 1 "DVI", 2 2 "HDMI-a", 3 3 "HDMI-b", 4 4 "MDDI", 5 5 "DisplayPort"];
                },
            ),
            (
                &[],
                Size { bytes: 1, least: 1 },
                field_rows! {
                    0 7 7 "Video Signal Interface" [1 1 "digital"];
                    0 6 1 "reserved" [clear];
                    0 0 0 "DFP 1.x" [flag "compatible"];
                },
            ),
        ],
    ),
    (
        Times::Once,
        &[(
            &[],
            Size { bytes: 3, least: 3 },
            field_rows! {
                0 7 0 "Horizontal Screen Size or Aspect Ratio" [any];
                1 7 0 "Vertical Screen Size or Aspect Ratio" [any];
                2 7 0 "Display Transfer Characteristic" [0 254 "", 255 255 "in an extension"];
            },
        )],
    ),
    (
        Times::Once,
        &[
            (
                &[test!(REVISION, 0, 3)],
                Size { bytes: 1, least: 1 },
                field_rows! {
                    0 7 7 "Standby" [flag "supported"];
                    0 6 6 "Suspend" [flag "supported"];
                    0 5 5 "Active Off" [flag "supported"];
                    0 4 3 "Display Color Type" [0 0 "monochrome or grayscale", 1 1 "RGB color", 2 2 "non-RGB color", 3 3 "undefined"];
                    0 2 2 "sRGB" [flag "default color space"];
                    0 1 1 "Preferred Timing Mode" [flag "first detailed timing"];
                    0 0 0 "Default GTF" [flag "supported"];
                },
            ),
            (
                &[test!(IS_DIGITAL, 1, 1)],
                Size { bytes: 1, least: 1 },
                field_rows! {
                    0 7 7 "Standby" [flag "supported"];
                    0 6 6 "Suspend" [flag "supported"];
                    0 5 5 "Active Off" [flag "supported"];
                    0 4 3 "Supported Color Encoding Format" [0 0 "RGB 4:4:4", 1 1 "RGB 4:4:4, YCrCb 4:4:4", 2 2 "RGB 4:4:4, YCrCb 4:2:2", 3 3 "RGB 4:4:4, YCrCb 4:4:4, YCrCb 4:2:2"];
                    0 2 2 "sRGB" [flag "default color space"];
                    0 1 1 "Preferred Timing Mode" [0 0 "not native", 1 1 "native"];
                    0 0 0 "Continuous Frequency" [flag "supported"];
                },
            ),
            (
                &[],
                Size { bytes: 1, least: 1 },
                field_rows! {
                    0 7 7 "Standby" [flag "supported"];
                    0 6 6 "Suspend" [flag "supported"];
                    0 5 5 "Active Off" [flag "supported"];
                    0 4 3 "Display Color Type" [0 0 "monochrome or grayscale", 1 1 "RGB color", 2 2 "non-RGB color", 3 3 "undefined"];
                    0 2 2 "sRGB" [flag "default color space"];
                    0 1 1 "Preferred Timing Mode" [0 0 "not native", 1 1 "native"];
                    0 0 0 "Continuous Frequency" [flag "supported"];
                },
            ),
        ],
    ),
];

#[tactic(auto, unfolding(crate::specs::Sections::display_parts))]
pub(crate) fn display_parts() -> &'static [Part]
    ensures { table_in_code result.now ≡ display_parts }
{
    DISPLAY
}

/// Chromaticities (section 3.7).
const COLORS: &[Part] = &[(
    Times::Once,
    &[(
        &[],
        Size {
            bytes: 10,
            least: 10,
        },
        field_rows! {
            0 7 6 "Red x, bits 1 to 0" [any];
            0 5 4 "Red y, bits 1 to 0" [any];
            0 3 2 "Green x, bits 1 to 0" [any];
            0 1 0 "Green y, bits 1 to 0" [any];
            1 7 6 "Blue x, bits 1 to 0" [any];
            1 5 4 "Blue y, bits 1 to 0" [any];
            1 3 2 "White x, bits 1 to 0" [any];
            1 1 0 "White y, bits 1 to 0" [any];
            2 7 0 "Red x, bits 9 to 2" [any];
            3 7 0 "Red y, bits 9 to 2" [any];
            4 7 0 "Green x, bits 9 to 2" [any];
            5 7 0 "Green y, bits 9 to 2" [any];
            6 7 0 "Blue x, bits 9 to 2" [any];
            7 7 0 "Blue y, bits 9 to 2" [any];
            8 7 0 "White x, bits 9 to 2" [any];
            9 7 0 "White y, bits 9 to 2" [any];
        },
    )],
)];

#[tactic(auto, unfolding(crate::specs::Sections::colors_parts))]
pub(crate) fn colors_parts() -> &'static [Part]
    ensures { table_in_code result.now ≡ colors_parts }
{
    COLORS
}

/// Established timings (section 3.8).
const ESTABLISHED: &[Part] = &[(
    Times::Once,
    &[(
        &[],
        Size { bytes: 3, least: 3 },
        field_rows! {
            0 7 7 "720x400 at 70 Hz" [flag "supported"];
            0 6 6 "720x400 at 88 Hz" [flag "supported"];
            0 5 5 "640x480 at 60 Hz" [flag "supported"];
            0 4 4 "640x480 at 67 Hz" [flag "supported"];
            0 3 3 "640x480 at 72 Hz" [flag "supported"];
            0 2 2 "640x480 at 75 Hz" [flag "supported"];
            0 1 1 "800x600 at 56 Hz" [flag "supported"];
            0 0 0 "800x600 at 60 Hz" [flag "supported"];
            1 7 7 "800x600 at 72 Hz" [flag "supported"];
            1 6 6 "800x600 at 75 Hz" [flag "supported"];
            1 5 5 "832x624 at 75 Hz" [flag "supported"];
            1 4 4 "1024x768 at 87 Hz interlaced" [flag "supported"];
            1 3 3 "1024x768 at 60 Hz" [flag "supported"];
            1 2 2 "1024x768 at 70 Hz" [flag "supported"];
            1 1 1 "1024x768 at 75 Hz" [flag "supported"];
            1 0 0 "1280x1024 at 75 Hz" [flag "supported"];
            2 7 7 "1152x870 at 75 Hz" [flag "supported"];
            2 6 0 "manufacturer's timings" [any];
        },
    )],
)];

#[tactic(auto, unfolding(crate::specs::Sections::established_parts))]
pub(crate) fn established_parts() -> &'static [Part]
    ensures { table_in_code result.now ≡ established_parts }
{
    ESTABLISHED
}

/// A part that no table has: the bits are of the part itself.
const OWN: usize = 16;

const PIXELS: Bits = Bits {
    part: OWN,
    byte: 0,
    high: 7,
    low: 0,
};

const RATE: Bits = Bits {
    part: OWN,
    byte: 1,
    high: 7,
    low: 0,
};

/// A standard timing, or its unused place (section 3.9).
const STANDARD_SHAPES: &[Shape] = &[
    (
        &[test!(PIXELS, 1, 1), test!(RATE, 1, 1)],
        Size { bytes: 2, least: 2 },
        field_rows! {
            0 7 0 "Standard Timing, pixels a line" [1 1 "unused"];
            1 7 0 "Standard Timing" [1 1 "unused"];
        },
    ),
    (
        &[],
        Size { bytes: 2, least: 2 },
        field_rows! {
            0 7 0 "Standard Timing, pixels a line / 8 - 31" [1 255 ""];
            1 7 6 "Image Aspect Ratio" [0 0 "16:10", 1 1 "4:3", 2 2 "5:4", 3 3 "16:9"];
            1 5 0 "Field Refresh Rate less 60 Hz" [any];
        },
    ),
];

/// One standard timing.
pub(crate) const STANDARD_TIMING: Part = (Times::Once, STANDARD_SHAPES);

/// Standard timings.
const STANDARD: &[Part] = &[(Times::ToEnd, STANDARD_SHAPES)];

#[tactic(auto, unfolding(crate::specs::Sections::standard_parts))]
pub(crate) fn standard_parts() -> &'static [Part]
    ensures { table_in_code result.now ≡ standard_parts }
{
    STANDARD
}

/// How many blocks follow (section 3.11).
const COUNT: &[Part] = &[(
    Times::Once,
    &[(
        &[],
        Size { bytes: 1, least: 1 },
        field_rows! {
            0 7 0 "Extension Block Count N" [any];
        },
    )],
)];

#[tactic(auto, unfolding(crate::specs::Sections::count_parts))]
pub(crate) fn count_parts() -> &'static [Part]
    ensures { table_in_code result.now ≡ count_parts }
{
    COUNT
}

/// The sum of a block is 0 (section 3.11).
const CHECKSUM: &[Part] = &[(
    Times::Once,
    &[(
        &[],
        Size { bytes: 1, least: 1 },
        field_rows! {
            0 7 0 "Checksum" [any];
        },
    )],
)];

#[tactic(auto, unfolding(crate::specs::Sections::checksum_parts))]
pub(crate) fn checksum_parts() -> &'static [Part]
    ensures { table_in_code result.now ≡ checksum_parts }
{
    CHECKSUM
}

/// The first four bytes of an extension of CTA-861 of revision 3 (CTA-861-H, section 7.3.3).
const CTA: &[Part] = &[(
    Times::Once,
    &[(
        &[],
        Size { bytes: 4, least: 4 },
        field_rows! {
            0 7 0 "CTA Extension Tag" [2 2 ""];
            1 7 0 "Revision Number" [3 3 ""];
            2 7 0 "Byte number offset d" [0 0 "no data blocks and timings", 4 127 ""];
            3 7 7 "underscan" [flag "supported"];
            3 6 6 "basic audio" [flag "supported"];
            3 5 5 "YCbCr 4:4:4" [flag "supported"];
            3 4 4 "YCbCr 4:2:2" [flag "supported"];
            3 3 0 "total number of native DTDs" [any];
        },
    )],
)];

#[tactic(auto, unfolding(crate::specs::Sections::cta_parts))]
pub(crate) fn cta_parts() -> &'static [Part]
    ensures { table_in_code result.now ≡ cta_parts }
{
    CTA
}
