//! The tables by their names.
ghost use Rattle.std.specs.Prelude.{◌≡◌, IsTrue};
ghost use Rattle.edid_fields.specs.Fields.{is_table};
ghost use Rattle.edid_fields.specs.Forms.{table_in_code};
ghost use Rattle.edid_tables.specs.Sections.{section_name, section_parts};

use crate::base::{
    checksum_parts, colors_parts, count_parts, cta_parts, display_parts, established_parts,
    header_parts, product_parts, standard_parts,
};
use crate::displays::{
    codes_parts, dummy_parts, established_iii_parts, limits_parts, management_parts, more_parts,
    other_parts, points_parts, text_parts,
};
use crate::timings::timing_parts;
use edid_fields::Part;

/// A stretch of bytes that belong together.
#[derive(Clone, Copy, Debug, PartialEq, Eq)]
pub enum Section {
    /// The header.
    Header,
    /// Maker, product, serial number and date.
    Product,
    /// Version, input, size, gamma and features.
    Display,
    /// Chromaticities.
    Colors,
    /// Established timings.
    Established,
    /// Standard timings.
    Standard,
    /// How many blocks follow.
    Count,
    /// The sum of a block is 0.
    Checksum,
    /// The first four bytes of an extension of CTA-861.
    Cta,
    /// A detailed timing.
    Timing,
    /// A name, a text or a serial number.
    Text,
    /// A manufacturer's descriptor, or one whose tag is reserved.
    Other,
    /// A descriptor that stands for none.
    Dummy,
    /// Range limits.
    Limits,
    /// White points.
    Points,
    /// Six more standard timings.
    More,
    /// Color management.
    Management,
    /// CVT timings of three bytes.
    Codes,
    /// Established timings III.
    EstablishedIii,
}

/// The parts of a table.
pub fn section_parts(section: Section) -> &'static [Part]
    ensures value { table_in_code result.now ≡ section_parts section }
    ensures table { IsTrue (is_table (table_in_code result.now)) }
{
    match section {
        Section::Header => header_parts(),
        Section::Product => product_parts(),
        Section::Display => display_parts(),
        Section::Colors => colors_parts(),
        Section::Established => established_parts(),
        Section::Standard => standard_parts(),
        Section::Count => count_parts(),
        Section::Checksum => checksum_parts(),
        Section::Cta => cta_parts(),
        Section::Timing => timing_parts(),
        Section::Text => text_parts(),
        Section::Other => other_parts(),
        Section::Dummy => dummy_parts(),
        Section::Limits => limits_parts(),
        Section::Points => points_parts(),
        Section::More => more_parts(),
        Section::Management => management_parts(),
        Section::Codes => codes_parts(),
        Section::EstablishedIii => established_iii_parts(),
    }
}

/// What a section is called.
pub fn section_name(section: Section) -> &'static str
    ensures { result.now ≡ section_name section }
{
    match section {
        Section::Header => "Header",
        Section::Product => "Vendor & Product Identification",
        Section::Display =>
            "EDID Structure Version & Revision, Basic Display Parameters & Features",
        Section::Colors => "Color Characteristics",
        Section::Established => "Established Timings",
        Section::Standard => "Standard Timings",
        Section::Count => "Extension Block Count N",
        Section::Checksum => "Checksum C",
        Section::Cta => "CTA Extension",
        Section::Timing => "Detailed Timing Descriptor",
        Section::Text => "Display Descriptor, text",
        Section::Other => "Display Descriptor",
        Section::Dummy => "Dummy Descriptor",
        Section::Limits => "Display Range Limits",
        Section::Points => "Color Point Data",
        Section::More => "Standard Timing Identifications",
        Section::Management => "Display Color Management Data",
        Section::Codes => "CVT 3 Byte Timing Codes",
        Section::EstablishedIii => "Established Timings III",
    }
}
