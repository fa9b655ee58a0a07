//! What the descriptor of CVT codes means.
ghost use Rattle.std.specs.Prelude.{◌≡◌, ◌≤◌, ◌<◌, ◌+◌, ◌++◌, length, flat_map};
ghost use Rattle.arrayvec.specs.ArrayVec.{array_vec_len};
ghost use Rattle.meaning_words.specs.Notes.{own_line};
ghost use Rattle.meaning_fields.specs.Fields.{field_words};
ghost use Rattle.meaning_base.specs.Cvt.{code_line, code_text, cvt_meanings, head_lines, head_rows, line_count, picture_text, rate_rows, used_line, width_of};

use arrayvec::ArrayVec;
use meaning_fields::{Field, FieldSays, append_block, append_fields, choices, field_rows};
use meaning_words::{NOTE, Note, PAGE, Page, after, append_between, append_line, before, byte_at};

const RATES: &[Field] = field_rows! {
    2 1 32 4 FieldSays::Words { before: "", texts: choices! { ", preferred at 50 Hz"; ", preferred at 60 Hz"; ", preferred at 75 Hz"; ", preferred at 85 Hz"; } };
    2 1 16 2 FieldSays::Word(", 50 Hz");
    2 1 8 2 FieldSays::Word(", 60 Hz");
    2 1 4 2 FieldSays::Word(", 75 Hz");
    2 1 2 2 FieldSays::Word(", 85 Hz");
    2 1 1 2 FieldSays::Word(", 60 Hz with reduced blanking");
    1 1 1 4 FieldSays::Hex(", reserved bits ");
    2 1 128 2 FieldSays::Hex(", reserved bits ");
};

const HEAD: &[Field] = field_rows! {
    4 1 1 256 FieldSays::Hex(", byte 5 is ");
    5 1 1 256 FieldSays::Number { before: ", revision ", times: 1, plus: 0, after: "" };
};

fn line_count(code: &[u8]) -> u64
    ensures value { result ≡ line_count code.now }
    ensures small { result < 16384 }
{
    2 * (u64::from(byte_at(code, 0)) + u64::from(byte_at(code, 1) / 16) * 256 + 1)
}

fn width_of(aspect: u8, lines: u64) -> u64
    requires { lines < 16384 }
    ensures { result ≡ width_of aspect lines }
{
    match aspect {
        0 => lines * 4 / 3 / 8 * 8,
        1 => lines * 16 / 9 / 8 * 8,
        2 => lines * 16 / 10 / 8 * 8,
        _ => lines * 15 / 9 / 8 * 8,
    }
}

fn append_picture(note: &mut Note, code: &[u8])
    requires { array_vec_len note.old + 200 ≤ NOTE }
    ensures items { note.new.items ≡ note.old.items ++ picture_text code.now }
    ensures len { array_vec_len note.new ≤ array_vec_len note.old + 41 }
{
    let lines = line_count(code);
    append_between(note, b"", width_of(byte_at(code, 1) / 4 % 4, lines), b"x");
    append_between(note, b"", lines, b"");
}

fn append_rates(note: &mut Note, code: &[u8])
    requires { array_vec_len note.old + 600 ≤ NOTE }
    ensures items { note.new.items ≡ note.old.items ++ field_words rate_rows code.now }
    ensures len { array_vec_len note.new ≤ array_vec_len note.old + 480 }
{
    append_fields(note, RATES, code);
}

fn code_note(code: &[u8]) -> Note
    ensures value { result.items ≡ code_text code.now }
    ensures len { array_vec_len result ≤ 521 }
{
    let mut note = ArrayVec::new();
    append_picture(&mut note, code);
    append_rates(&mut note, code);
    note
}

fn append_used(page: &mut Page, code: &[u8])
    requires { array_vec_len page.old + 524 ≤ PAGE }
    ensures items { page.new.items ≡ page.old.items ++ flat_map own_line (used_line code.now) }
    ensures len { array_vec_len page.new ≤ array_vec_len page.old + 524 }
{
    if byte_at(code, 0) == 0 && (byte_at(code, 1) == 0 && byte_at(code, 2) == 0) {
        return;
    }
    append_line(page, code_note(code).as_slice());
}

fn append_code(page: &mut Page, place: usize, bytes: &[u8])
    requires { array_vec_len page.old + 524 ≤ PAGE }
    ensures items { page.new.items ≡ page.old.items ++ flat_map own_line (code_line place bytes.now) }
    ensures len { array_vec_len page.new ≤ array_vec_len page.old + 524 }
{
    append_used(page, before(after(bytes, place), 3));
}

fn append_head(page: &mut Page, bytes: &[u8])
    requires few { length bytes.now ≤ 128 }
    requires room { array_vec_len page.old + 1536 ≤ PAGE }
    ensures items { page.new.items ≡ page.old.items ++ flat_map own_line (head_lines bytes.now) }
    ensures len { array_vec_len page.new ≤ array_vec_len page.old + 1400 }
{
    append_block(page, b"", HEAD, 18, bytes);
}

/// Appends the revision of a descriptor of CVT codes, and a line for each code: its picture and field rates.
pub(crate) fn append_cvt(page: &mut Page, bytes: &[u8])
    requires few { length bytes.now ≤ 128 }
    requires room { array_vec_len page.old + 4000 ≤ PAGE }
    ensures { page.new.items ≡ page.old.items ++ flat_map own_line (cvt_meanings bytes.now) }
{
    append_head(page, bytes);
    append_code(page, 6, bytes);
    append_code(page, 9, bytes);
    append_code(page, 12, bytes);
    append_code(page, 15, bytes);
}
