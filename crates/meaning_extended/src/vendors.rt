//! What blocks of HDR10+, of Dolby's audio and of Microsoft mean.
ghost use Rattle.std.specs.Prelude.{◌≡◌, ◌≤◌, ◌+◌, ◌++◌, length, flat_map};
ghost use Rattle.arrayvec.specs.ArrayVec.{array_vec_len};
ghost use Rattle.meaning_words.specs.Notes.{own_line};
ghost use Rattle.meaning_extended.specs.Vendors.{plus_meanings, plus_rows, soft_meanings, soft_rows, sound_meanings, sound_rows};

use meaning_fields::{Field, FieldSays, append_block, field_rows};
use meaning_words::{PAGE, Page};

const PLUS: &[Field] = field_rows! {
    0 1 1 4 FieldSays::Number { before: " version ", times: 1, plus: 0, after: "" };
    0 1 4 64 FieldSays::Hex(", other bits of byte 1 are ");
};

const SOUND: &[Field] = field_rows! {
    0 1 1 8 FieldSays::Number { before: " version ", times: 1, plus: 1, after: "" };
    0 1 128 2 FieldSays::Word(", headphones alone");
    0 1 64 2 FieldSays::Word(", height speakers");
    0 1 32 2 FieldSays::Word(", surround speakers");
    0 1 16 2 FieldSays::Word(", centre speaker");
};

const SOFT: &[Field] = field_rows! {
    0 1 1 256 FieldSays::Number { before: " version ", times: 1, plus: 0, after: "" };
    1 1 64 2 FieldSays::Word(", for the desktop");
    1 1 32 2 FieldSays::Word(", by others");
    1 1 1 32 FieldSays::Number { before: ", use case ", times: 1, plus: 0, after: "" };
};

/// Appends what a block of HDR10+ means, of the bytes after the identifier.
pub fn append_plus(page: &mut Page, payload: &[u8])
    requires few { length payload.now ≤ 128 }
    requires room { array_vec_len page.old + 1536 ≤ PAGE }
    ensures { page.new.items ≡ page.old.items ++ flat_map own_line (plus_meanings payload.now) }
{
    append_block(page, b", HDR10+", PLUS, 1, payload);
}

/// Appends what a block of Dolby's audio means, of the bytes after the identifier, and these bytes.
pub fn append_sound(page: &mut Page, payload: &[u8])
    requires few { length payload.now ≤ 128 }
    requires room { array_vec_len page.old + 1536 ≤ PAGE }
    ensures { page.new.items ≡ page.old.items ++ flat_map own_line (sound_meanings payload.now) }
{
    append_block(page, b", Dolby audio", SOUND, 0, payload);
}

/// Appends what a block of Microsoft means, of the bytes after the identifier, and these bytes.
pub fn append_soft(page: &mut Page, payload: &[u8])
    requires few { length payload.now ≤ 128 }
    requires room { array_vec_len page.old + 1536 ≤ PAGE }
    ensures { page.new.items ≡ page.old.items ++ flat_map own_line (soft_meanings payload.now) }
{
    append_block(page, b", Microsoft", SOFT, 0, payload);
}
