//! Laws of what stands in data blocks.
ghost use Rattle.std.specs.Prelude.{◌≡◌, ◌||◌};
ghost use Rattle.edid_tables.specs.Layouts.{has_reserved};
ghost use Rattle.rules_contents.specs.Contents.{has_other_length, has_other_reserved, is_cut_or_left, is_named_length, is_named_reserved};

use edid_cta::DataBlock;

/// A data block with a reserved value, by its table or by a rule that names it, is one that a rule finds, by its own name or as
/// reserved; and no other is found.
pub fn reserved_values_are_found(block: &DataBlock)
    ensures { (is_named_reserved block.now || has_other_reserved block.now) ≡ (has_reserved block.now || is_named_reserved block.now) }
{}

/// A data block with bytes that are missing or left over, by its table or by a rule that names them, is one that a rule finds; and no
/// other is found.
pub fn lengths_are_found(block: &DataBlock)
    ensures { (is_named_length block.now || has_other_length block.now) ≡ (is_cut_or_left block.now || is_named_length block.now) }
{}
