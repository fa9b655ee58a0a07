//! What a descriptor means that has a form of its own.
ghost use Rattle.std.specs.Prelude.{◌≡◌, ◌≤◌, ◌+◌, ◌++◌, length, flat_map};
ghost use Rattle.arrayvec.specs.ArrayVec.{array_vec_len};
ghost use Rattle.meaning_words.specs.Notes.{own_line};
ghost use Rattle.meaning_base.specs.Descriptors.{colour_meanings, colour_rows, descriptor_meanings, has_tag, tagged_meanings};

use crate::cvt::append_cvt;
use crate::established_iii::append_established;
use meaning_fields::{Field, FieldSays, append_block, field_rows};
use meaning_words::{PAGE, Page, byte_at};

/// The tag of established timings III.
const ESTABLISHED: u8 = 0xf7;
/// The tag of CVT codes.
const CVT: u8 = 0xf8;
/// The tag of colour management.
const COLOURS: u8 = 0xf9;

const COLOUR_FIELDS: &[Field] = field_rows! {
    4 1 1 256 FieldSays::Hex(", byte 5 is ");
    5 1 1 256 FieldSays::Number { before: ", revision ", times: 1, plus: 0, after: "" };
    6 2 1 65536 FieldSays::Number { before: ", red a3 ", times: 1, plus: 0, after: " hundredths" };
    8 2 1 65536 FieldSays::Number { before: ", red a2 ", times: 1, plus: 0, after: " hundredths" };
    10 2 1 65536 FieldSays::Number { before: ", green a3 ", times: 1, plus: 0, after: " hundredths" };
    12 2 1 65536 FieldSays::Number { before: ", green a2 ", times: 1, plus: 0, after: " hundredths" };
    14 2 1 65536 FieldSays::Number { before: ", blue a3 ", times: 1, plus: 0, after: " hundredths" };
    16 2 1 65536 FieldSays::Number { before: ", blue a2 ", times: 1, plus: 0, after: " hundredths" };
};

fn append_colours(page: &mut Page, bytes: &[u8])
    requires few { length bytes.now ≤ 128 }
    requires room { array_vec_len page.old + 4000 ≤ PAGE }
    ensures { page.new.items ≡ page.old.items ++ flat_map own_line (colour_meanings bytes.now) }
{
    append_block(page, b"", COLOUR_FIELDS, 18, bytes);
}

fn has_tag(bytes: &[u8]) -> bool
    ensures { result ≡ has_tag bytes.now }
{
    byte_at(bytes, 0) == 0 && (byte_at(bytes, 1) == 0 && byte_at(bytes, 2) == 0)
}

fn append_tagged(page: &mut Page, tag: u8, bytes: &[u8])
    requires few { length bytes.now ≤ 128 }
    requires room { array_vec_len page.old + 4000 ≤ PAGE }
    ensures { page.new.items ≡ page.old.items ++ flat_map own_line (tagged_meanings tag bytes.now) }
{
    match tag {
        ESTABLISHED => append_established(page, bytes),
        CVT => append_cvt(page, bytes),
        COLOURS => append_colours(page, bytes),
        _ => {}
    }
}

/// Appends what a descriptor means, of its 18 bytes: established timings III, CVT codes, or colour management.
#[tactic(auto, unfolding(crate::specs::Descriptors::descriptor_meanings))]
pub fn append_descriptor(page: &mut Page, bytes: &[u8])
    requires few { length bytes.now ≤ 128 }
    requires room { array_vec_len page.old + 4000 ≤ PAGE }
    ensures { page.new.items ≡ page.old.items ++ flat_map own_line (descriptor_meanings bytes.now) }
{
    if has_tag(bytes) {
        append_tagged(page, byte_at(bytes, 3), bytes);
    }
}
