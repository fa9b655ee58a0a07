//! What the count of extensions of the HDMI Forum means.
ghost use Rattle.std.specs.Prelude.{◌≡◌, ◌≤◌, ◌+◌, ◌++◌, length, flat_map};
ghost use Rattle.arrayvec.specs.ArrayVec.{array_vec_len};
ghost use Rattle.meaning_words.specs.Notes.{own_line};
ghost use Rattle.meaning_extended.specs.Counts.{count_meanings, count_rows};

use meaning_fields::{Field, FieldSays, append_block, field_rows};
use meaning_words::{PAGE, Page};

const COUNT: &[Field] = field_rows! {
    0 1 1 256 FieldSays::Number { before: " ", times: 1, plus: 0, after: "" };
};

/// Appends the count of extensions that stands in the place of that in the base block (HDMI 2.1, section 10.3.7).
pub fn append_count(page: &mut Page, payload: &[u8])
    requires few { length payload.now ≤ 128 }
    requires room { array_vec_len page.old + 1536 ≤ PAGE }
    ensures { page.new.items ≡ page.old.items ++ flat_map own_line (count_meanings payload.now) }
{
    append_block(page, b", count of extensions", COUNT, 1, payload);
}
