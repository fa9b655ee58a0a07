//! What the blocks of format preference and of the 4:2:0 capability map mean.
ghost use Rattle.std.specs.Prelude.{◌≡◌, ◌≤◌, ◌+◌, ◌*◌, ◌++◌, ◌<◌, [], All, codes, length, take, flat_map};
ghost use Rattle.arrayvec.specs.ArrayVec.{array_vec_len};
ghost use Rattle.meaning_words.specs.Notes.{text_between, own_line};
ghost use Rattle.meaning_words.specs.Videos.{code_text};
ghost use Rattle.meaning_extended.specs.Videos.{also_text, is_reserved, map_meanings, mapped_meanings, place_line, places, preference_meanings, preference_text, reserved_text, set_places, some_meanings, unmapped_meanings, weights};

use arrayvec::ArrayVec;
use edid_base::append;
use meaning_fields::append_place;
use meaning_words::{
    NOTE, Note, PAGE, Page, after, append_between, append_code, append_line, append_rest,
    append_words, before, is_set,
};

/// The bits of a byte, the lowest first.
const WEIGHTS: &[u32] = &[1, 2, 4, 8, 16, 32, 64, 128];

/// How many bytes of a map have lines: 128 video codes.
const MAP: usize = 16;

fn is_reserved(reference: u8) -> bool
    ensures { result ≡ is_reserved reference }
{
    reference == 0 || reference == 128 || (161 <= reference && reference <= 192) || reference == 255
}

fn append_reserved(note: &mut Note, reference: u8)
    requires { array_vec_len note.old + 100 ≤ NOTE }
    ensures items { note.new.items ≡ note.old.items ++ reserved_text reference }
    ensures len { array_vec_len note.new ≤ array_vec_len note.old + 30 }
{
    append_between(note, b"", u64::from(reference), b": reserved");
}

fn append_coded(note: &mut Note, code: u8)
    requires { array_vec_len note.old + 200 ≤ NOTE }
    ensures items { note.new.items ≡ note.old.items ++ (text_between [] code (codes ": ") ++ code_text code) }
    ensures len { array_vec_len note.new ≤ array_vec_len note.old + 100 }
{
    append_between(note, b"", u64::from(code), b": ");
    append_code(note, code);
}

fn preference_note(reference: u8) -> Note
    ensures value { result.items ≡ preference_text reference }
    ensures len { array_vec_len result ≤ 100 }
{
    let mut note = ArrayVec::new();
    if is_reserved(reference) {
        append_reserved(&mut note, reference);
    } else if 129 <= reference && reference <= 144 {
        append_between(
            &mut note,
            b"detailed timing ",
            u64::from(reference - 128),
            b"",
        );
    } else if 145 <= reference && reference <= 160 {
        append_between(
            &mut note,
            b"further timing ",
            u64::from(reference - 144),
            b"",
        );
    } else if reference == 254 {
        append(&mut note, b"first timing by a code of DMT");
    } else {
        append_coded(&mut note, reference);
    }
    note
}

/// Appends a line for each preference, the most preferred first (CTA-861-G, section 7.5.12).
pub fn append_preferences(page: &mut Page, payload: &[u8])
    requires { array_vec_len page.old + 103 * length payload.now ≤ PAGE }
    ensures { page.new.items ≡ page.old.items ++ flat_map own_line (preference_meanings payload.now) }
{
    if let [reference, rest @ ..] = payload {
        append_line(page, preference_note(*reference).as_slice());
        append_preferences(page, rest);
    }
}

// The line of a place of the map: the code there, and its format; or that there is none.
fn place_note(codes: &[u8], place: usize) -> Note
    requires { place ≤ 1000 }
    ensures value { result.items ≡ also_text codes.now place }
    ensures len { array_vec_len result ≤ 114 }
{
    let mut note = ArrayVec::new();
    append_place(&mut note, codes, place);
    append(&mut note, b", also in 4:2:0");
    note
}

fn append_place_line(page: &mut Page, codes: &[u8], place: usize, is: bool)
    requires small { place ≤ 1000 }
    requires room { array_vec_len page.old + 117 ≤ PAGE }
    ensures items { page.new.items ≡ page.old.items ++ flat_map own_line (place_line codes.now place is) }
    ensures len { array_vec_len page.new ≤ array_vec_len page.old + 117 }
{
    if is {
        append_line(page, place_note(codes, place).as_slice());
    }
}

#[tactic(auto, unfolding(crate::specs::Videos::set_places))]
fn append_set_places(page: &mut Page, codes: &[u8], weights: &[u32], place: usize, bits: u8)
    requires all { All (λ w. 0 < w) weights.now }
    requires small { place + length weights.now ≤ 1000 }
    requires room { array_vec_len page.old + 117 * length weights.now ≤ PAGE }
    ensures items { page.new.items ≡ page.old.items ++ flat_map own_line (set_places codes.now weights.now place bits) }
    ensures len { array_vec_len page.new ≤ array_vec_len page.old + 117 * length weights.now }
{
    if let [weight, rest @ ..] = weights {
        append_place_line(page, codes, place, is_set(u32::from(bits), *weight));
        append_set_places(page, codes, rest, place + 1, bits);
    }
}

fn append_byte_places(page: &mut Page, codes: &[u8], place: usize, bits: u8)
    requires small { place ≤ 900 }
    requires room { array_vec_len page.old + 936 ≤ PAGE }
    ensures items { page.new.items ≡ page.old.items ++ flat_map own_line (set_places codes.now weights place bits) }
    ensures len { array_vec_len page.new ≤ array_vec_len page.old + 936 }
{
    append_set_places(page, codes, WEIGHTS, place, bits);
}

#[tactic(auto, unfolding(crate::specs::Videos::places))]
fn append_places(page: &mut Page, codes: &[u8], place: usize, bytes: &[u8])
    requires small { place + 8 * length bytes.now ≤ 900 }
    requires room { array_vec_len page.old + 936 * length bytes.now ≤ PAGE }
    ensures items { page.new.items ≡ page.old.items ++ flat_map own_line (places codes.now place bytes.now) }
    ensures len { array_vec_len page.new ≤ array_vec_len page.old + 936 * length bytes.now }
{
    if let [bits, rest @ ..] = bytes {
        append_byte_places(page, codes, place, *bits);
        append_places(page, codes, place + 8, rest);
    }
}

// The bytes of a map whose places have lines.
fn mapped(payload: &[u8]) -> &[u8]
    ensures value { result.now ≡ take 16 payload.now }
    ensures few { length result.now ≤ 16 }
{
    before(payload, MAP)
}

fn append_mapped(page: &mut Page, codes: &[u8], payload: &[u8])
    requires { array_vec_len page.old + 14976 ≤ PAGE }
    ensures items { page.new.items ≡ page.old.items ++ flat_map own_line (mapped_meanings codes.now payload.now) }
    ensures len { array_vec_len page.new ≤ array_vec_len page.old + 14976 }
{
    append_places(page, codes, 0, mapped(payload));
}

fn append_unmapped(page: &mut Page, payload: &[u8])
    requires few { length payload.now ≤ 128 }
    requires room { array_vec_len page.old + 271 ≤ PAGE }
    ensures { page.new.items ≡ page.old.items ++ flat_map own_line (unmapped_meanings payload.now) }
{
    let mut words: Note = ArrayVec::new();
    append_rest(&mut words, after(payload, MAP));
    append_words(page, words.as_slice());
}

fn append_some(page: &mut Page, codes: &[u8], payload: &[u8])
    requires few { length payload.now ≤ 128 }
    requires room { array_vec_len page.old + 15600 ≤ PAGE }
    ensures { page.new.items ≡ page.old.items ++ flat_map own_line (some_meanings codes.now payload.now) }
{
    append_mapped(page, codes, payload);
    append_unmapped(page, payload);
}

/// Appends what a 4:2:0 capability map means, of the video codes of the EDID: a line for each code that is there in YCbCr
/// 4:2:0 too, and one for each place without a code (CTA-861-G, section 7.5.11).
pub fn append_map(page: &mut Page, codes: &[u8], payload: &[u8])
    requires few { length payload.now ≤ 128 }
    requires room { array_vec_len page.old + 15600 ≤ PAGE }
    ensures { page.new.items ≡ page.old.items ++ flat_map own_line (map_meanings codes.now payload.now) }
{
    if payload.is_empty() {
        append_line(page, b"each video code also in 4:2:0");
    } else {
        append_some(page, codes, payload);
    }
}
