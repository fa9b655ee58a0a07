//! A line of a block.
ghost use Rattle.std.specs.Prelude.{◌≡◌, ◌≤◌, ◌+◌, ◌*◌, ◌++◌, length, map, flat_map, IsTrue};
ghost use Rattle.arrayvec.specs.ArrayVec.{array_vec_len};
ghost use Rattle.meaning_words.specs.Notes.{own_line};
ghost use Rattle.meaning_fields.specs.Fields.{are_fields, block_meanings, row_in_code};

use crate::fields::{Field, append_fields};
use arrayvec::ArrayVec;
use edid_base::append;
use meaning_words::{Note, PAGE, Page, after, append_rest, append_words};

/// Appends a line: a name, what at most twenty fields say, and in hex what stands after so many bytes. The name and each
/// field have a comma and a space before them.
#[tactic(auto, unfolding(crate::specs::Fields::block_meanings))]
pub fn append_block(page: &mut Page, name: &[u8], fields: &[Field], size: usize, bytes: &[u8])
    requires short { length name.now ≤ 40 }
    requires few { length fields.now ≤ 18 }
    requires fields { IsTrue (are_fields fields.now) }
    requires few_bytes { length bytes.now ≤ 128 }
    requires room { array_vec_len page.old + 1536 ≤ PAGE }
    ensures items { page.new.items ≡ page.old.items ++ flat_map own_line (block_meanings name.now (map row_in_code fields.now) size bytes.now) }
    ensures len { array_vec_len page.new ≤ array_vec_len page.old + 1400 }
{
    let mut words: Note = ArrayVec::new();
    append(&mut words, name);
    append_fields(&mut words, fields, bytes);
    append_rest(&mut words, after(bytes, size));
    append_words(page, words.as_slice());
}
