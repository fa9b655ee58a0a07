//! Laws of what is said.
ghost use Rattle.std.specs.Prelude.{◌≡◌, ℕ, ◌*◌, length, flat_map};
ghost use Rattle.edid_base.specs.Base.{base_bytes};
ghost use Rattle.edid_base.specs.Timing.{timing_bytes};
ghost use Rattle.edid_tables.specs.Sections.{section_parts};
ghost use Rattle.edid_cta.specs.Block.{block_bytes};
ghost use Rattle.edid_cta.specs.Ext.{ext_bytes};
ghost use Rattle.conversion_fields.specs.Blocks.{block_said, blocks_parts};
ghost use Rattle.conversion_fields.specs.Parts.{Tiled};
ghost use Rattle.conversion_fields.specs.Said.{all_said, said_bits};
ghost use Rattle.conversion_fields.specs.Whole.{base_parts, cut_parts, ext_parts, sections_of, timings_parts, total};
ghost use Rattle.edid_fields.specs.Tiling.{count};

use crate::blocks::{after, body_of, body_parts, front_parts, head_of};
use crate::whole::{CHECKSUM, CTA_FRONT, before, section_of};
use edid_base::{Base, Timing, write_base};
use edid_cta::{DataBlock, Ext, write_ext};
use edid_fields::every_bit_stands_once;
use edid_tables::{BASE, Frame, Section, frame_parts, section_parts};

/// Each bit of a data block, from wherever it begins, stands in one field, in order.
pub fn block_bits_stand_once(block: &DataBlock)
    ensures { (at : ℕ) → said_bits (block_said at block.now) ≡ count (8 * at) (8 * length (block_bytes block.now)) }
{
    every_bit_stands_once(frame_parts(Frame::Head), &head_of(block));
    every_bit_stands_once(front_parts(block), block.payload.as_slice());
    every_bit_stands_once(body_parts(block), body_of(block));
}

/// Data blocks, one after another, have their bytes, and each bit of them stands in one field, in order.
pub fn blocks_bits_stand_once(blocks: &[DataBlock])
    ensures { (at : ℕ) → Tiled at (blocks_parts at blocks.now) (flat_map block_bytes blocks.now) }
{
    if let [block, others @ ..] = blocks {
        block_bits_stand_once(block);
        blocks_bits_stand_once(others);
    }
}

// Each bit of a section, from wherever it begins, stands in one field, in order.
fn section_bits_stand_once(section: Section, bytes: &[u8])
    ensures { (at : ℕ) → said_bits (all_said at (section_parts section) bytes.now) ≡ count (8 * at) (8 * length bytes.now) }
{
    every_bit_stands_once(section_parts(section), bytes);
}

// Sections that have as many bytes as there are have these, and each bit of them stands in one field, in order.
#[tactic(auto, using(crate::proofs::Tiles::total_rest))]
fn cut_bits_stand_once(rows: &[(usize, Option<Section>)], bytes: &[u8])
    requires { total rows.now ≡ length bytes.now }
    ensures { (at : ℕ) → Tiled at (cut_parts at rows.now bytes.now) bytes.now }
{
    if let [row, others @ ..] = rows {
        let own = before(bytes, row.0);
        section_bits_stand_once(section_of(row.1, own), own);
        cut_bits_stand_once(others, after(bytes, row.0));
    }
}

// The same of timings.
fn timings_bits_stand_once(timings: &[Timing])
    ensures { (at : ℕ) → Tiled at (timings_parts at timings.now) (flat_map timing_bytes timings.now) }
{
    if let [timing, others @ ..] = timings {
        section_bits_stand_once(Section::Timing, &timing.write());
        timings_bits_stand_once(others);
    }
}

// The sections of a base block have its bytes, and each bit of them stands in one field, in order.
#[tactic(auto, unfolding(crate::specs::Whole::sections_of, crate::specs::Whole::total))]
fn sections_bits_stand_once(bytes: &[u8; 128])
    ensures { Tiled 0 (sections_of bytes.now) bytes.now }
{
    cut_bits_stand_once(BASE, bytes);
}

/// The parts of a base block have its bytes, in order, and each bit of them stands in one field, in order.
pub fn base_bits_stand_once(base: &Base)
    ensures { Tiled 0 (base_parts base.now) (base_bytes base.now) }
{
    sections_bits_stand_once(&write_base(base));
}

// The same of an extension of these bytes.
fn ext_bits_stand_once(ext: &Ext, bytes: &[u8; 128])
    requires { bytes.now ≡ ext_bytes ext.now }
    ensures { Tiled 0 (ext_parts ext.now) (ext_bytes ext.now) }
{
    let sum = after(bytes, CHECKSUM);
    section_bits_stand_once(Section::Checksum, sum);
    let front = before(bytes, CTA_FRONT);
    section_bits_stand_once(Section::Cta, front);
    match ext {
        Ext::Cta(cta) => {
            timings_bits_stand_once(cta.timings.as_slice());
            blocks_bits_stand_once(cta.blocks.as_slice());
        }
        Ext::Bare(_) => (),
        Ext::Raw(_) => (),
    }
}

/// The same of an extension.
pub fn extension_bits_stand_once(ext: &Ext)
    ensures { Tiled 0 (ext_parts ext.now) (ext_bytes ext.now) }
{
    ext_bits_stand_once(ext, &write_ext(ext));
}
