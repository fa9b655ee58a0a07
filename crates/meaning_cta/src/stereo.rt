//! 3D of the video codes of an EDID, in an HDMI block (HDMI 1.4, section 8.3.2).
ghost use Rattle.std.specs.Prelude.{◌≡◌, ◌≤◌, ◌<◌, ◌+◌, ◌*◌, ◌++◌, [], All, length, drop, flat_map};
ghost use Rattle.arrayvec.specs.ArrayVec.{array_vec_len};
ghost use Rattle.meaning_words.specs.Notes.{own_line, set_words};
ghost use Rattle.meaning_cta.specs.Stereo.{entries, entry_rows, entry_text, first_meanings, first_part, high_first, left_line, mask_meanings, masked_line, masked_lines, masked_text, some_meanings, some_part, stereo_meanings, structure_line, structure_rows, weights};

use arrayvec::ArrayVec;
use edid_base::append;
use meaning_fields::{Field, FieldSays, append_fields, append_place, choices, field_rows};
use meaning_words::{
    Bit, NOTE, Note, PAGE, Page, after, append_bits, append_line, append_rest, append_words,
    bit_rows, byte_at, is_set,
};

/// 3D_Structure_ALL
const STRUCTURES: &[Bit] = bit_rows! {
    1 "3D frame packing";
    2 "3D field alternative";
    4 "3D line alternative";
    8 "3D side by side (full)";
    16 "3D L + depth";
    32 "3D L + depth + graphics";
    64 "3D top and bottom";
    128 "reserved 3D structure 7";
    256 "3D side by side (half)";
    512 "reserved 3D structure 9";
    1024 "reserved 3D structure 10";
    2048 "reserved 3D structure 11";
    4096 "reserved 3D structure 12";
    8192 "reserved 3D structure 13";
    16384 "reserved 3D structure 14";
    32768 "3D side by side (half) quincunx";
};

/// The bits of 3D_MASK, the lowest first.
const WEIGHTS: &[u32] = &[
    1, 2, 4, 8, 16, 32, 64, 128, 256, 512, 1024, 2048, 4096, 8192, 16384, 32768,
];

/// 2D_VIC_order, 3D_Structure and 3D_Detail
const ENTRIES: &[Field] = field_rows! {
    0 1 1 16 FieldSays::Words { before: ", 3D structure ", texts: choices! { ", 3D frame packing"; ", 3D field alternative"; ", 3D line alternative"; ", 3D side by side (full)"; ", 3D L + depth"; ", 3D L + depth + graphics"; ", 3D top and bottom"; ", reserved 3D structure 7"; ", 3D side by side (half)"; } };
    1 1 16 16 FieldSays::Words { before: ", detail ", texts: choices! { ""; ", horizontal"; ", reserved detail 2"; ", reserved detail 3"; ", reserved detail 4"; ", reserved detail 5"; ", all quincunx"; ", quincunx odd left, odd right"; ", quincunx odd left, even right"; ", quincunx even left, odd right"; ", quincunx even left, even right"; } };
    1 1 1 16 FieldSays::Hex(", reserved bits ");
};

fn high_first(bytes: &[u8]) -> u32
    ensures { result ≡ high_first bytes.now }
{
    u32::from(byte_at(bytes, 0)) * 256 + u32::from(byte_at(bytes, 1))
}

fn append_structure_bits(note: &mut Note, bits: u32)
    requires { array_vec_len note.old + 640 ≤ NOTE }
    ensures items { note.new.items ≡ note.old.items ++ set_words structure_rows bits }
    ensures len { array_vec_len note.new ≤ array_vec_len note.old + 640 }
{
    append_bits(note, STRUCTURES, bits);
}

fn structure_note(bytes: &[u8]) -> Note
    ensures value { result.items ≡ set_words structure_rows (high_first bytes.now) }
    ensures len { array_vec_len result ≤ 640 }
{
    let mut words = ArrayVec::new();
    append_structure_bits(&mut words, high_first(bytes));
    words
}

fn append_structure_line(page: &mut Page, bytes: &[u8])
    requires { array_vec_len page.old + 641 ≤ PAGE }
    ensures items { page.new.items ≡ page.old.items ++ flat_map own_line (structure_line bytes.now) }
    ensures len { array_vec_len page.new ≤ array_vec_len page.old + 641 }
{
    append_words(page, structure_note(bytes).as_slice());
}

fn masked_note(codes: &[u8], place: usize) -> Note
    requires { place ≤ 1000 }
    ensures value { result.items ≡ masked_text codes.now place }
    ensures len { array_vec_len result ≤ 103 }
{
    let mut note = ArrayVec::new();
    append_place(&mut note, codes, place);
    append(&mut note, b", 3D");
    note
}

fn append_masked(page: &mut Page, codes: &[u8], place: usize, is: bool)
    requires small { place ≤ 1000 }
    requires room { array_vec_len page.old + 106 ≤ PAGE }
    ensures items { page.new.items ≡ page.old.items ++ flat_map own_line (masked_line codes.now place is) }
    ensures len { array_vec_len page.new ≤ array_vec_len page.old + 106 }
{
    if is {
        append_line(page, masked_note(codes, place).as_slice());
    }
}

#[tactic(auto, unfolding(crate::specs::Stereo::masked_lines))]
fn append_masked_lines(page: &mut Page, codes: &[u8], weights: &[u32], place: usize, bits: u32)
    requires all { All (λ w. 0 < w) weights.now }
    requires small { place + length weights.now ≤ 1000 }
    requires room { array_vec_len page.old + 106 * length weights.now ≤ PAGE }
    ensures items { page.new.items ≡ page.old.items ++ flat_map own_line (masked_lines codes.now weights.now place bits) }
    ensures len { array_vec_len page.new ≤ array_vec_len page.old + 106 * length weights.now }
{
    if let [weight, rest @ ..] = weights {
        append_masked(page, codes, place, is_set(bits, *weight));
        append_masked_lines(page, codes, rest, place + 1, bits);
    }
}

fn append_mask(page: &mut Page, codes: &[u8], bytes: &[u8])
    requires { array_vec_len page.old + 1696 ≤ PAGE }
    ensures items { page.new.items ≡ page.old.items ++ flat_map own_line (mask_meanings codes.now bytes.now) }
    ensures len { array_vec_len page.new ≤ array_vec_len page.old + 1696 }
{
    append_masked_lines(page, codes, WEIGHTS, 0, high_first(bytes));
}

fn entry_note(codes: &[u8], entry: &[u8]) -> Note
    ensures value { result.items ≡ entry_text codes.now entry.now }
    ensures len { array_vec_len result ≤ 279 }
{
    let mut note = ArrayVec::new();
    append_place(&mut note, codes, usize::from(byte_at(entry, 0) / 16));
    append_fields(&mut note, ENTRIES, entry);
    note
}

#[tactic(auto, unfolding(crate::specs::Stereo::entries))]
fn append_entries(page: &mut Page, codes: &[u8], bytes: &[u8])
    requires { array_vec_len page.old + 282 * length bytes.now ≤ PAGE }
    ensures items { page.new.items ≡ page.old.items ++ flat_map own_line (entries codes.now bytes.now) }
    ensures len { array_vec_len page.new ≤ array_vec_len page.old + 282 * length bytes.now }
{
    match bytes {
        [] => {}
        [entry] => append_line(page, entry_note(codes, &[*entry]).as_slice()),
        [entry, detail, more @ ..] => {
            if *entry % 16 < 8 {
                append_line(page, entry_note(codes, &[*entry]).as_slice());
                append_entries(page, codes, after(bytes, 1));
            } else {
                append_line(page, entry_note(codes, &[*entry, *detail]).as_slice());
                append_entries(page, codes, more);
            }
        }
    }
}

fn append_left_line(page: &mut Page, bytes: &[u8])
    requires few { length bytes.now ≤ 128 }
    requires room { array_vec_len page.old + 271 ≤ PAGE }
    ensures items { page.new.items ≡ page.old.items ++ flat_map own_line (left_line bytes.now) }
    ensures len { array_vec_len page.new ≤ array_vec_len page.old + 271 }
{
    let mut words: Note = ArrayVec::new();
    append_rest(&mut words, bytes);
    append_words(page, words.as_slice());
}

fn append_entries_after(page: &mut Page, codes: &[u8], count: usize, bytes: &[u8])
    requires few { length bytes.now ≤ 31 }
    requires room { array_vec_len page.old + 8742 ≤ PAGE }
    ensures items { page.new.items ≡ page.old.items ++ flat_map own_line (entries codes.now (drop count bytes.now)) }
    ensures len { array_vec_len page.new ≤ array_vec_len page.old + 8742 }
{
    append_entries(page, codes, after(bytes, count));
}

fn append_first(page: &mut Page, codes: &[u8], bytes: &[u8])
    requires few { length bytes.now ≤ 31 }
    requires room { array_vec_len page.old + 9400 ≤ PAGE }
    ensures items { page.new.items ≡ page.old.items ++ flat_map own_line (first_meanings codes.now bytes.now) }
    ensures len { array_vec_len page.new ≤ array_vec_len page.old + 9400 }
{
    append_structure_line(page, bytes);
    append_entries_after(page, codes, 2, bytes);
}

fn append_mask_after(page: &mut Page, codes: &[u8], bytes: &[u8])
    requires { array_vec_len page.old + 1696 ≤ PAGE }
    ensures items { page.new.items ≡ page.old.items ++ flat_map own_line (mask_meanings codes.now (drop 2 bytes.now)) }
    ensures len { array_vec_len page.new ≤ array_vec_len page.old + 1696 }
{
    append_mask(page, codes, after(bytes, 2));
}

fn append_some(page: &mut Page, codes: &[u8], bytes: &[u8])
    requires few { length bytes.now ≤ 31 }
    requires room { array_vec_len page.old + 11100 ≤ PAGE }
    ensures items { page.new.items ≡ page.old.items ++ flat_map own_line (some_meanings codes.now bytes.now) }
    ensures len { array_vec_len page.new ≤ array_vec_len page.old + 11100 }
{
    append_structure_line(page, bytes);
    append_mask_after(page, codes, bytes);
    append_entries_after(page, codes, 4, bytes);
}

fn append_first_part(page: &mut Page, codes: &[u8], bytes: &[u8])
    requires few { length bytes.now ≤ 31 }
    requires room { array_vec_len page.old + 11100 ≤ PAGE }
    ensures items { page.new.items ≡ page.old.items ++ flat_map own_line (first_part codes.now bytes.now) }
    ensures len { array_vec_len page.new ≤ array_vec_len page.old + 11100 }
{
    if 2 <= bytes.len() {
        append_first(page, codes, bytes);
    } else {
        append_left_line(page, bytes);
    }
}

fn append_some_part(page: &mut Page, codes: &[u8], bytes: &[u8])
    requires few { length bytes.now ≤ 31 }
    requires room { array_vec_len page.old + 11100 ≤ PAGE }
    ensures items { page.new.items ≡ page.old.items ++ flat_map own_line (some_part codes.now bytes.now) }
    ensures len { array_vec_len page.new ≤ array_vec_len page.old + 11100 }
{
    if 4 <= bytes.len() {
        append_some(page, codes, bytes);
    } else {
        append_left_line(page, bytes);
    }
}

/// Appends what the bytes of 3D mean, of the video codes of the EDID and 3D_Multi_present.
#[tactic(auto, unfolding(crate::specs::Stereo::stereo_meanings))]
pub(crate) fn append_stereo(page: &mut Page, codes: &[u8], multi: u8, bytes: &[u8])
    requires few { length bytes.now ≤ 31 }
    requires room { array_vec_len page.old + 11100 ≤ PAGE }
    ensures items { page.new.items ≡ page.old.items ++ flat_map own_line (stereo_meanings codes.now multi bytes.now) }
    ensures len { array_vec_len page.new ≤ array_vec_len page.old + 11100 }
{
    match multi {
        1 => append_first_part(page, codes, bytes),
        2 => append_some_part(page, codes, bytes),
        _ => append_entries(page, codes, bytes),
    }
}
