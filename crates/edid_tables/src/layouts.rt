//! Which table a data block has, and what its fields are found to be.
ghost use Rattle.std.specs.Prelude.{◌≡◌, ◌≤◌, length, map, drop, option_map, find, IfSome, IsTrue};
ghost use Rattle.edid_fields.specs.Fields.{is_table};
ghost use Rattle.edid_fields.specs.Forms.{table_in_code};
ghost use Rattle.edid_tables.specs.Layouts.{are_short, begins_with, body_of, cut_of, fits, has_reserved, layout_in_code, layout_of, left_of};
ghost use Rattle.edid_tables.specs.Tables.{parts_of};

use crate::audio::audio_parts;
use crate::cta::{
    capability_parts, colorimetry_parts, hdr_parts, map_420_parts, preferences_parts,
    speakers_parts, video_420_parts, video_parts,
};
use crate::dolby::dolby_parts;
use crate::forum::{count_parts, forum_parts, sink_capabilities_parts};
use crate::hdmi::hdmi_parts;
use edid_cta::DataBlock;
use edid_fields::{Part, some_reserved, walk};

/// The tables of data blocks.
#[derive(Clone, Copy, Debug, PartialEq, Eq)]
pub enum Table {
    /// Audio formats.
    Audio,
    /// Video codes.
    Video,
    /// The HDMI block.
    Hdmi,
    /// The HDMI Forum's vendor block.
    Forum,
    /// Speakers.
    Speakers,
    /// Video capability.
    Capability,
    /// Dolby's block.
    Dolby,
    /// Colorimetry.
    Colorimetry,
    /// Static metadata of HDR.
    Hdr,
    /// Preferred formats.
    Preferences,
    /// Video codes in 4:2:0 alone.
    Video420,
    /// Which video codes are there in 4:2:0 too.
    Map420,
    /// The HDMI Forum's override of the count of extensions.
    Count,
    /// The HDMI Forum's sink capabilities.
    SinkCapabilities,
}

/// The parts of a table.
pub fn parts_of(table: Table) -> &'static [Part]
    ensures value { table_in_code result.now ≡ parts_of table }
    ensures table { IsTrue (is_table (table_in_code result.now)) }
{
    match table {
        Table::Audio => audio_parts(),
        Table::Video => video_parts(),
        Table::Hdmi => hdmi_parts(),
        Table::Forum => forum_parts(),
        Table::Speakers => speakers_parts(),
        Table::Capability => capability_parts(),
        Table::Dolby => dolby_parts(),
        Table::Colorimetry => colorimetry_parts(),
        Table::Hdr => hdr_parts(),
        Table::Preferences => preferences_parts(),
        Table::Video420 => video_420_parts(),
        Table::Map420 => map_420_parts(),
        Table::Count => count_parts(),
        Table::SinkCapabilities => sink_capabilities_parts(),
    }
}

/// A data block that has a table: its tag, the bytes that its payload begins with (an extended tag, and the identifier of a vendor, its
/// lowest byte first), and the table of the bytes after these.
pub type Layout = (u8, &'static [u8], Table);

/// The data blocks that have a table (CTA-861-H, tables 55 and 56).
const LAYOUTS: &[Layout] = &[
    (1, &[], Table::Audio),
    (2, &[], Table::Video),
    (3, &[0x03, 0x0c, 0x00], Table::Hdmi),
    (3, &[0xd8, 0x5d, 0xc4], Table::Forum),
    (4, &[], Table::Speakers),
    (7, &[0x00], Table::Capability),
    (7, &[0x01, 0x46, 0xd0, 0x00], Table::Dolby),
    (7, &[0x05], Table::Colorimetry),
    (7, &[0x06], Table::Hdr),
    (7, &[0x0d], Table::Preferences),
    (7, &[0x0e], Table::Video420),
    (7, &[0x0f], Table::Map420),
    (7, &[0x78], Table::Count),
    (7, &[0x79], Table::SinkCapabilities),
];

#[tactic(auto, unfolding(crate::specs::Layouts::begins_with))]
fn begins_with(front: &[u8], payload: &[u8]) -> bool
    ensures { result ≡ begins_with front.now payload.now }
{
    match front {
        [] => true,
        [byte, rest @ ..] => match payload {
            [] => false,
            [first, others @ ..] => byte == first && begins_with(rest, others),
        },
    }
}

fn fits(block: &DataBlock, layout: Layout) -> bool
    ensures { result ≡ fits block.now (layout_in_code layout.entry) }
{
    layout.0 == block.kind.number() && begins_with(layout.1, block.payload.as_slice())
}

fn first_fit(block: &DataBlock, layouts: &[Layout]) -> Option<Layout>
    requires { IsTrue (are_short (map layout_in_code layouts.now)) }
    ensures value { option_map layout_in_code result ≡ find (fits block.now) (map layout_in_code layouts.now) }
    ensures short { IfSome result (λ l. length l.1.now ≤ 31) }
{
    match layouts {
        [layout, rest @ ..] => {
            if fits(block, *layout) {
                return Some(*layout);
            }
            first_fit(block, rest)
        }
        _ => None,
    }
}

/// The layout of a data block, where it has a table.
#[tactic(auto, unfolding(crate::specs::Layouts::layouts))]
pub fn layout_of(block: &DataBlock) -> Option<Layout>
    ensures value { option_map layout_in_code result ≡ layout_of block.now }
    ensures short { IfSome result (λ l. length l.1.now ≤ 31) }
{
    first_fit(block, LAYOUTS)
}

/// The bytes of a data block that its table is of.
pub fn body_of(block: &DataBlock, layout: Layout) -> &[u8]
    ensures value { result.now ≡ body_of block.now (layout_in_code layout.entry) }
    ensures few { length result.now ≤ 31 }
{
    let payload = block.payload.as_slice();
    if layout.1.len() < payload.len() {
        &payload[layout.1.len()..]
    } else {
        &[]
    }
}

/// Whether a field of a data block has a value that its standard keeps reserved. A block without a table has none.
pub fn has_reserved(block: &DataBlock) -> bool
    ensures { result ≡ has_reserved block.now }
{
    match layout_of(block) {
        None => false,
        Some(layout) => some_reserved(parts_of(layout.2), body_of(block, layout)),
    }
}

/// How many bytes a data block has too few for its table, as far as the bytes that are there tell; 0 exactly where it is long enough.
pub fn cut_of(block: &DataBlock) -> usize
    ensures { result ≡ cut_of block.now }
{
    match layout_of(block) {
        None => 0,
        Some(layout) => {
            let body = body_of(block, layout);
            edid_fields::cut_of(body, walk(parts_of(layout.2), body).end)
        }
    }
}

/// How many bytes of a data block are left over after its table.
pub fn left_of(block: &DataBlock) -> usize
    ensures { result ≡ left_of block.now }
{
    match layout_of(block) {
        None => 0,
        Some(layout) => {
            let body = body_of(block, layout);
            edid_fields::left_of(body, walk(parts_of(layout.2), body).end)
        }
    }
}
