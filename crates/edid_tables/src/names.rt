//! What a data block is called, and what it begins with.
ghost use Rattle.std.specs.Prelude.{◌≡◌};
ghost use Rattle.edid_fields.specs.Forms.{row_in_code};
ghost use Rattle.edid_tables.specs.Names.{block_name, extended_name, extended_tag, front_frame, table_name, tag_name, word_in};

use crate::frames::Frame;
use crate::heads::{EXTENDED_TAG, TAG};
use crate::{Table, layout_of};
use edid_cta::{BlockKind, DataBlock};
use edid_fields::{Report, Row, word_of};

/// What a row says of a value.
fn word_in(row: Row, value: u8) -> &'static str
    ensures { result.now ≡ word_in (row_in_code row.entry) value }
{
    let report = Report {
        at: 0,
        width: 0,
        value,
        row,
    };
    word_of(&report)
}

/// What an extended tag says.
fn extended_word(tag: u8) -> &'static str
    ensures { result.now ≡ word_in extended_tag tag }
{
    word_in(EXTENDED_TAG, tag)
}

/// The name that a data block of tag 7 has by its extended tag.
#[tactic(auto, unfolding(crate::specs::Names::tag))]
fn extended_name(payload: &[u8]) -> &'static str
    ensures { result.now ≡ extended_name payload.now }
{
    if 0 < payload.len() {
        extended_word(payload[0])
    } else {
        word_in(TAG, 7)
    }
}

/// The name that a data block has by its tags.
#[tactic(auto, unfolding(crate::specs::Names::tag))]
fn tag_name(block: &DataBlock) -> &'static str
    ensures { result.now ≡ tag_name block.now }
{
    let number = block.kind.number();
    if number == 7 {
        extended_name(block.payload.as_slice())
    } else {
        word_in(TAG, number)
    }
}

/// The name of a block of a vendor that has a table, and else the one given.
fn table_name(table: Table, other: &'static str) -> &'static str
    ensures { result.now ≡ table_name table other.now }
{
    match table {
        Table::Hdmi => "HDMI Vendor-Specific Data Block",
        Table::Forum => "HDMI Forum Vendor-Specific Data Block",
        Table::Dolby => "Dolby Vision Vendor-Specific Video Data Block",
        _ => other,
    }
}

/// What a data block is called.
pub fn block_name(block: &DataBlock) -> &'static str
    ensures { result.now ≡ block_name block.now }
{
    let other = tag_name(block);
    match layout_of(block) {
        None => other,
        Some(layout) => table_name(layout.2, other),
    }
}

/// What the payload of a data block begins with.
pub fn front_frame(kind: BlockKind) -> Frame
    ensures { result ≡ front_frame kind }
{
    match kind {
        BlockKind::Vendor => Frame::Identifier,
        BlockKind::Extended => Frame::Extended,
        _ => Frame::Nothing,
    }
}
