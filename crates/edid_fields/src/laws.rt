//! Laws of every table.
ghost use Rattle.std.specs.Prelude.{◌≡◌, ◌↔◌, ◌++◌, codes, map, IsTrue};
ghost use Rattle.edid_fields.specs.Fields.{is_table, fields_of};
ghost use Rattle.edid_fields.specs.Forms.{field_in_code, table_in_code};
ghost use Rattle.edid_fields.specs.Tiling.{all_bits, covered, left_bits};
ghost use Rattle.edid_fields.specs.Values.{bit, value_bits};
ghost use Rattle.edid_fields.specs.Words.{are_words, is_reserved, word_of};

use crate::tables::Part;
use crate::walking::Report;

/// Each bit of a block stands in one field, or is left over: the bits of the fields, one after the other, and those that are
/// left over are all bits of the block, in order.
pub fn every_bit_stands_once(table: &[Part], payload: &[u8])
    requires { IsTrue (is_table (table_in_code table.now)) }
    ensures { covered (fields_of (table_in_code table.now) payload.now) ++ left_bits (table_in_code table.now) payload.now ≡ all_bits payload.now }
{}

/// The values of the fields are the block's bits at their places: nothing of the bytes is lost.
pub fn values_are_the_bits(table: &[Part], payload: &[u8])
    requires { IsTrue (is_table (table_in_code table.now)) }
    ensures { value_bits (fields_of (table_in_code table.now) payload.now) ≡ map (bit payload.now) (covered (fields_of (table_in_code table.now) payload.now)) }
{}

/// A field is told as reserved exactly where its value is.
pub fn reserved_is_told(report: Report)
    requires { IsTrue (are_words (field_in_code report).row.2) }
    ensures { IsTrue (is_reserved (field_in_code report)) ↔ (word_of (field_in_code report) ≡ codes "reserved") }
{}
