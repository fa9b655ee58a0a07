//! What is said of a whole EDID.
ghost use Rattle.std.specs.Prelude.{◌≡◌, ◌≤◌, ◌+◌, ◌*◌, length, drop, take, IsTrue};
ghost use Rattle.text_core.specs.Adds.{Adds};
ghost use Rattle.edid_cta.specs.Ext.{ext_bytes};
ghost use Rattle.edid_tables.specs.Sections.{section_name};
ghost use Rattle.conversion_fields.specs.Objects.{part_object};
ghost use Rattle.conversion_fields.specs.Parts.{part_text, parts_text};
ghost use Rattle.conversion_fields.specs.Whole.{are_short, base_parts, content_parts, cut_parts, edid_text, ext_front, ext_parts, exts_text, plain_parts, section_cut, section_left, section_of, section_part, timings_parts};

use crate::blocks::{add_all, add_blocks, after, end_of};
use crate::objects::{Lengths, add_bytes, add_part};
use edid_base::{Base, Timing, write_base};
use edid_cta::{Cta, Ext, write_ext};
use edid_fields::{cut_of, left_of};
use edid_tables::{BASE, Section, descriptor_section, section_name, section_parts};
use text_core::{Counted, Sink};

/// The first bytes of an extension of CTA-861, before its data blocks.
pub(crate) const CTA_FRONT: usize = 4;

/// The bytes of a detailed timing.
const TIMING: usize = 18;

/// Where the checksum of a block stands.
pub(crate) const CHECKSUM: usize = 127;

/// The first bytes, so many at most.
pub(crate) fn before(bytes: &[u8], count: usize) -> &[u8]
    ensures value { result.now ≡ take count bytes.now }
    ensures few { length result.now ≤ count }
{
    if count < bytes.len() {
        &bytes[..count]
    } else {
        bytes
    }
}

fn lengths_of(section: Section, bytes: &[u8]) -> Lengths
    requires few { length bytes.now ≤ 31 }
    ensures cut { result.cut ≡ section_cut section bytes.now }
    ensures left { result.left ≡ section_left section bytes.now }
{
    let end = end_of(section_parts(section), bytes);
    Lengths {
        cut: cut_of(bytes, end),
        left: left_of(bytes, end),
    }
}

// Adds the object of a section.
fn add_object<S: Sink>(
    out: &mut Counted<'_, S>,
    number: u64,
    at: usize,
    section: Section,
    bytes: &[u8],
)
    requires few { length bytes.now ≤ 31 }
    ensures { Adds out.old out.new (part_object number at bytes.now (section_name section) (section_cut section bytes.now) (section_left section bytes.now)) }
{
    let name = section_name(section);
    add_part(out, number, at, bytes, name, lengths_of(section, bytes));
}

// Adds the object of a section, and those of its fields.
#[tactic(auto, unfolding(crate::specs::Parts::part_text))]
fn add_section<S: Sink>(
    out: &mut Counted<'_, S>,
    number: u64,
    at: usize,
    section: Section,
    bytes: &[u8],
)
    requires start { at ≤ 5000 }
    requires few { length bytes.now ≤ 31 }
    ensures { Adds out.old out.new (part_text number (section_part at section bytes.now)) }
{
    add_object(out, number, at, section, bytes);
    add_all(out, number, at, section_parts(section), bytes);
}

/// What a row of a list of sections says of bytes.
pub(crate) fn section_of(section: Option<Section>, bytes: &[u8]) -> Section
    ensures { result ≡ section_of section bytes.now }
{
    match section {
        None => descriptor_section(bytes),
        Some(section) => section,
    }
}

// Adds sections, one after another.
#[tactic(auto, unfolding(crate::specs::Whole::cut_parts), using(crate::proofs::Adding::short_row, crate::proofs::Adding::short_rest))]
fn add_cut<S: Sink>(
    out: &mut Counted<'_, S>,
    at: usize,
    rows: &[(usize, Option<Section>)],
    bytes: &[u8],
)
    requires few { at + 31 * length rows.now ≤ 5000 }
    requires short { IsTrue (are_short rows.now) }
    ensures { Adds out.old out.new (parts_text 0 (cut_parts at rows.now bytes.now)) }
{
    if let [row, others @ ..] = rows {
        let own = before(bytes, row.0);
        add_section(out, 0, at, section_of(row.1, own), own);
        add_cut(out, at + row.0, others, after(bytes, row.0));
    }
}

#[tactic(auto, unfolding(crate::specs::Whole::sections_of))]
fn add_base<S: Sink>(out: &mut Counted<'_, S>, base: &Base)
    ensures { Adds out.old out.new (parts_text 0 (base_parts base.now)) }
{
    add_cut(out, 0, BASE, &write_base(base));
}

#[tactic(auto, unfolding(crate::specs::Whole::timings_parts))]
fn add_timings<S: Sink>(out: &mut Counted<'_, S>, number: u64, at: usize, timings: &[Timing])
    requires few { at + 18 * length timings.now ≤ 5000 }
    ensures { Adds out.old out.new (parts_text number (timings_parts at timings.now)) }
{
    if let [timing, others @ ..] = timings {
        add_section(out, number, at, Section::Timing, &timing.write());
        add_timings(out, number, at + TIMING, others);
    }
}

// Adds a part of bytes that have no table, where there are some.
#[tactic(auto, unfolding(crate::specs::Parts::part_text))]
fn add_plain<S: Sink>(out: &mut Counted<'_, S>, number: u64, at: usize, name: &str, bytes: &[u8])
    requires few { at + length bytes.now ≤ 5000 }
    ensures { Adds out.old out.new (parts_text number (plain_parts at name.now bytes.now)) }
{
    if let [_, ..] = bytes {
        let lengths = Lengths { cut: 0, left: 0 };
        add_part(out, number, at, bytes, name, lengths);
        add_bytes(out, number, at, name, "null", bytes);
    }
}

// Adds data blocks, timings and padding.
fn add_content<S: Sink>(out: &mut Counted<'_, S>, number: u64, cta: &Cta)
    ensures { Adds out.old out.new (parts_text number (content_parts cta.now.blocks.items cta.now.timings.items cta.now.tail.items)) }
{
    let timings = add_blocks(out, number, CTA_FRONT, cta.blocks.as_slice());
    add_timings(out, number, timings, cta.timings.as_slice());
    let padding = timings + TIMING * cta.timings.len();
    add_plain(out, number, padding, "padding", cta.tail.as_slice());
}

// Adds all parts of an extension of these bytes but its checksum.
#[tactic(auto, unfolding(crate::specs::Whole::ext_front))]
fn add_front<S: Sink>(out: &mut Counted<'_, S>, number: u64, ext: &Ext, bytes: &[u8])
    requires { bytes.now ≡ ext_bytes ext.now }
    ensures { Adds out.old out.new (parts_text number (ext_front ext.now)) }
{
    match ext {
        Ext::Cta(cta) => {
            add_section(out, number, 0, Section::Cta, before(bytes, CTA_FRONT));
            add_content(out, number, cta);
        }
        Ext::Bare(bare) => {
            add_section(out, number, 0, Section::Cta, before(bytes, CTA_FRONT));
            add_plain(out, number, CTA_FRONT, "padding", &bare.tail);
        }
        Ext::Raw(_) => add_plain(out, number, 0, "extension", before(bytes, CHECKSUM)),
    }
}

// Adds the parts of an extension of these bytes.
fn add_ext_bytes<S: Sink>(out: &mut Counted<'_, S>, number: u64, ext: &Ext, bytes: &[u8; 128])
    requires { bytes.now ≡ ext_bytes ext.now }
    ensures { Adds out.old out.new (parts_text number (ext_parts ext.now)) }
{
    add_front(out, number, ext, bytes);
    let sum = after(bytes, CHECKSUM);
    add_section(out, number, CHECKSUM, Section::Checksum, sum);
}

fn add_ext<S: Sink>(out: &mut Counted<'_, S>, number: u64, ext: &Ext)
    ensures { Adds out.old out.new (parts_text number (ext_parts ext.now)) }
{
    add_ext_bytes(out, number, ext, &write_ext(ext));
}

#[tactic(auto, unfolding(crate::specs::Whole::exts_text))]
fn add_exts<S: Sink>(out: &mut Counted<'_, S>, number: u64, extensions: &[Ext])
    requires few { number + length extensions.now ≤ 200 }
    ensures { Adds out.old out.new (exts_text number extensions.now) }
{
    if let [ext, others @ ..] = extensions {
        add_ext(out, number, ext);
        add_exts(out, number + 1, others);
    }
}

/// Adds the parts of an EDID.
pub(crate) fn add_edid<S: Sink>(out: &mut Counted<'_, S>, base: &Base, extensions: &[Ext])
    requires few { length extensions.now ≤ 3 }
    ensures { Adds out.old out.new (edid_text base.now extensions.now) }
{
    add_base(out, base);
    add_exts(out, 1, extensions);
}
