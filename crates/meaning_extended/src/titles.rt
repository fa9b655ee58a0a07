//! What an extended block is called above what its bytes mean, and makers without a known name.
ghost use Rattle.std.specs.Prelude.{◌≡◌, ◌≤◌, ◌+◌, ◌++◌, length, flat_map};
ghost use Rattle.arrayvec.specs.ArrayVec.{array_vec_len};
ghost use Rattle.meaning_words.specs.Notes.{own_line};
ghost use Rattle.meaning_extended.specs.Titles.{is_timing_block, maker_meanings, maker_words, tag_meanings, title, title_lines};

use arrayvec::ArrayVec;
use meaning_words::{
    Note, PAGE, Page, after, append_named_hex, append_rest, append_words, byte_at,
};

fn title(tag: u8) -> &'static str
    ensures value { result.now ≡ title tag }
    ensures short { length result.now ≤ 40 }
{
    match tag {
        0x00 => ", video capability",
        0x05 => ", colorimetry",
        0x06 => ", static HDR metadata",
        0x0d => ", preferred formats",
        0x0e => ", formats in 4:2:0 alone",
        0x0f => ", formats in 4:2:0 too",
        0x22 => ", DisplayID type VII timing",
        0x23 => ", DisplayID type VIII timings",
        0x2a => ", DisplayID type X timings",
        _ => "",
    }
}

/// Appends what an extended block is called, where the lines of its bytes do not begin with its name.
pub fn append_title(page: &mut Page, tag: u8)
    requires { array_vec_len page.old + 50 ≤ PAGE }
    ensures items { page.new.items ≡ page.old.items ++ flat_map own_line (title_lines tag) }
    ensures len { array_vec_len page.new ≤ array_vec_len page.old + 50 }
{
    append_words(page, title(tag).as_bytes());
}

/// Whether an extended block has DisplayID's timings of type VII, VIII or X.
pub(crate) fn is_timing_block(tag: u8) -> bool
    ensures { result ≡ is_timing_block tag }
{
    tag == 0x22 || tag == 0x23 || tag == 0x2a
}

/// Appends the tag of an extended block without a known name, and its bytes in hex.
#[tactic(auto, unfolding(crate::specs::Titles::tag_meanings))]
pub fn append_tag(page: &mut Page, tag: u8, payload: &[u8])
    requires few { length payload.now ≤ 128 }
    requires room { array_vec_len page.old + 1536 ≤ PAGE }
    ensures { page.new.items ≡ page.old.items ++ flat_map own_line (tag_meanings tag payload.now) }
{
    let mut words: Note = ArrayVec::new();
    append_named_hex(&mut words, b", extended tag ", &[tag]);
    append_rest(&mut words, payload);
    append_words(page, words.as_slice());
}

fn maker_note(name: &[u8], payload: &[u8]) -> Note
    requires short { length name.now ≤ 20 }
    requires few { length payload.now ≤ 128 }
    ensures value { result.items ≡ maker_words name.now payload.now }
    ensures len { array_vec_len result ≤ 400 }
{
    let mut words: Note = ArrayVec::new();
    let lowest = byte_at(payload, 0);
    let middle = byte_at(payload, 1);
    let highest = byte_at(payload, 2);
    append_named_hex(&mut words, name, &[highest, middle, lowest]);
    append_rest(&mut words, after(payload, 3));
    words
}

/// Appends the identifier of a maker without a known name after a text, and the bytes after it in hex.
pub fn append_maker(page: &mut Page, name: &[u8], payload: &[u8])
    requires short { length name.now ≤ 20 }
    requires few { length payload.now ≤ 128 }
    requires room { array_vec_len page.old + 1536 ≤ PAGE }
    ensures { page.new.items ≡ page.old.items ++ flat_map own_line (maker_meanings name.now payload.now) }
{
    if 3 <= payload.len() {
        append_words(page, maker_note(name, payload).as_slice());
    }
}
