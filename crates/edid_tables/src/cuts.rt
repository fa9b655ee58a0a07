//! How a base block is cut into sections.
ghost use Rattle.std.specs.Prelude.{◌≡◌};
ghost use Rattle.edid_tables.specs.Cuts.{byte_at, descriptor_section, display_section};

use crate::sections::Section;

/// The byte at a place, and 0 past the end.
fn byte_at(bytes: &[u8], place: usize) -> u8
    ensures { result ≡ byte_at bytes.now place }
{
    if place < bytes.len() { bytes[place] } else { 0 }
}

/// What a display descriptor is by its tag (E-EDID Release A, revision 2, table 3.22).
fn display_section(tag: u8) -> Section
    ensures { result ≡ display_section tag }
{
    match tag {
        0xff | 0xfe | 0xfc => Section::Text,
        0xfd => Section::Limits,
        0xfb => Section::Points,
        0xfa => Section::More,
        0xf9 => Section::Management,
        0xf8 => Section::Codes,
        0xf7 => Section::EstablishedIii,
        0x10 => Section::Dummy,
        _ => Section::Other,
    }
}

/// What eighteen bytes are: a detailed timing, whose first two bytes are not both 0, or a display descriptor (section 3.10).
pub fn descriptor_section(bytes: &[u8]) -> Section
    ensures { result ≡ descriptor_section bytes.now }
{
    if byte_at(bytes, 0) == 0 && byte_at(bytes, 1) == 0 {
        display_section(byte_at(bytes, 3))
    } else {
        Section::Timing
    }
}

/// The sections of a base block, and how many bytes each has; its four descriptors are what their bytes say.
pub const BASE: &[(usize, Option<Section>)] = &[
    (8, Some(Section::Header)),
    (10, Some(Section::Product)),
    (7, Some(Section::Display)),
    (10, Some(Section::Colors)),
    (3, Some(Section::Established)),
    (16, Some(Section::Standard)),
    (18, None),
    (18, None),
    (18, None),
    (18, None),
    (1, Some(Section::Count)),
    (1, Some(Section::Checksum)),
];
