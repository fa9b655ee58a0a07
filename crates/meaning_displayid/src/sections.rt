//! What a section of DisplayID means.
ghost use Rattle.std.specs.Prelude.{◌≡◌, ◌≤◌, ◌<◌, ◌+◌, ◌*◌, ◌++◌, [], ◌∷◌, codes, length, take, drop, flat_map, IsTrue};
ghost use Rattle.arrayvec.specs.ArrayVec.{array_vec_len};
ghost use Rattle.hex.specs.Hex.{encode_lower};
ghost use Rattle.meaning_words.specs.Notes.{own_line};
ghost use Rattle.meaning_displayid.specs.Forms.{form_in_code, is_form};
ghost use Rattle.meaning_displayid.specs.Sections.{all_data, block_lines, by_form, data_lines, data_of, displayid_lines, filled_lines, first_lines, head_lines, is_filled, named_lines, payload_length, revision_lines, section_lines, section_name, timing_block};

use crate::forms::{Form, append_form};
use crate::kinds::form_of;
use crate::timings::append_left;
use arrayvec::ArrayVec;
use edid_base::{append, are_zeros};
use meaning_fields::{Field, FieldSays, append_block, choices, field_rows};
use meaning_words::{
    NOTE, Note, PAGE, Page, after, append_line, append_named_hex, append_rest, append_words,
    before, byte_at,
};

const HEAD: &[Field] = field_rows! {
    1 1 16 16 FieldSays::Number { before: ", version ", times: 1, plus: 0, after: "" };
    1 1 1 16 FieldSays::Number { before: ".", times: 1, plus: 0, after: "" };
    2 1 1 256 FieldSays::Number { before: ", ", times: 1, plus: 0, after: " bytes of data" };
    3 1 1 256 FieldSays::Words { before: ", product type ", texts: choices! { ", an extension"; ", a test structure"; ", a panel"; ", a stand-alone display"; ", a television receiver"; ", a repeater"; ", a direct drive monitor"; } };
    4 1 1 256 FieldSays::Above { before: ", ", times: 1, after: " further sections" };
};

const USES: &[Field] = field_rows! {
    1 1 16 16 FieldSays::Number { before: ", version ", times: 1, plus: 0, after: "" };
    1 1 1 16 FieldSays::Number { before: ".", times: 1, plus: 0, after: "" };
    2 1 1 256 FieldSays::Number { before: ", ", times: 1, plus: 0, after: " bytes of data" };
    3 1 1 256 FieldSays::Words { before: ", use ", texts: choices! { ", an extension"; ", a test structure"; ", a generic display"; ", a television"; ", for desktop work"; ", for desktop games"; ", for presentations"; ", for virtual reality"; ", for augmented reality"; } };
    4 1 1 256 FieldSays::Above { before: ", ", times: 1, after: " further sections" };
};

fn append_head(page: &mut Page, bytes: &[u8])
    requires few { length bytes.now ≤ 128 }
    requires room { array_vec_len page.old + 1536 ≤ PAGE }
    ensures items { page.new.items ≡ page.old.items ++ flat_map own_line (head_lines bytes.now) }
    ensures len { array_vec_len page.new ≤ array_vec_len page.old + 1400 }
{
    if 32 <= byte_at(bytes, 1) {
        append_block(page, b"", USES, 128, bytes);
    } else {
        append_block(page, b"", HEAD, 128, bytes);
    }
}

fn append_tag(note: &mut Note, tag: u8)
    requires { array_vec_len note.old + 60 ≤ NOTE }
    ensures items { note.new.items ≡ note.old.items ++ section_name tag }
    ensures len { array_vec_len note.new ≤ array_vec_len note.old + 30 }
{
    match tag {
        0x00 | 0x20 => append(note, b", product"),
        0x07 => append(note, b", timings by codes of DMT"),
        0x08 => append(note, b", timings by codes of CTA-861"),
        0x26 => append(note, b", interface features"),
        0x29 => append(note, b", container"),
        0x81 => append(note, b", data blocks of CTA-861"),
        _ => append_named_hex(note, b", data block ", &[tag]),
    }
}

fn append_named(page: &mut Page, tag: u8, payload: &[u8])
    requires few { length payload.now ≤ 128 }
    requires room { array_vec_len page.old + 2 * length payload.now + 50 ≤ PAGE }
    ensures items { page.new.items ≡ page.old.items ++ flat_map own_line (named_lines tag payload.now) }
    ensures len { array_vec_len page.new ≤ array_vec_len page.old + 2 * length payload.now + 50 }
{
    let mut words: Note = ArrayVec::new();
    append_tag(&mut words, tag);
    append_rest(&mut words, payload);
    append_words(page, words.as_slice());
}

fn append_by(page: &mut Page, tag: u8, payload: &[u8], form: &Form)
    requires form { IsTrue (is_form form.now) }
    requires few { length payload.now ≤ 128 }
    requires room { array_vec_len page.old + 165 * length payload.now + 445 ≤ PAGE }
    ensures items { page.new.items ≡ page.old.items ++ flat_map own_line (by_form tag payload.now (form_in_code form.now)) }
    ensures len { array_vec_len page.new ≤ array_vec_len page.old + 165 * length payload.now + 445 }
{
    if form.least <= payload.len() {
        append_form(page, form, payload);
    } else {
        append_named(page, tag, payload);
    }
}

#[tactic(auto, unfolding(crate::specs::Sections::section_lines))]
fn append_section(page: &mut Page, tag: u8, revision: u8, payload: &[u8])
    requires few { length payload.now ≤ 128 }
    requires room { array_vec_len page.old + 165 * length payload.now + 445 ≤ PAGE }
    ensures items { page.new.items ≡ page.old.items ++ flat_map own_line (section_lines tag revision payload.now) }
    ensures len { array_vec_len page.new ≤ array_vec_len page.old + 165 * length payload.now + 445 }
{
    match form_of(tag, revision, payload) {
        Some(form) => append_by(page, tag, payload, &form),
        None => append_named(page, tag, payload),
    }
}

fn revision_note(tag: u8, revision: u8) -> Note
    ensures value { result.items ≡ (codes "data block " ++ encode_lower (tag ∷ [])) ++ (codes ", revision and flags " ++ encode_lower (revision ∷ [])) }
    ensures len { array_vec_len result ≤ 36 }
{
    let mut note = ArrayVec::new();
    append_named_hex(&mut note, b"data block ", &[tag]);
    append_named_hex(&mut note, b", revision and flags ", &[revision]);
    note
}

fn append_revision(page: &mut Page, tag: u8, revision: u8)
    requires { array_vec_len page.old + 39 ≤ PAGE }
    ensures items { page.new.items ≡ page.old.items ++ flat_map own_line (revision_lines tag revision) }
    ensures len { array_vec_len page.new ≤ array_vec_len page.old + 39 }
{
    if revision != 0 {
        append_line(page, revision_note(tag, revision).as_slice());
    }
}

#[tactic(auto, unfolding(crate::specs::Sections::block_lines))]
fn append_data_block(page: &mut Page, tag: u8, revision: u8, payload: &[u8])
    requires few { length payload.now ≤ 128 }
    requires room { array_vec_len page.old + 165 * length payload.now + 484 ≤ PAGE }
    ensures items { page.new.items ≡ page.old.items ++ flat_map own_line (block_lines tag revision payload.now) }
    ensures len { array_vec_len page.new ≤ array_vec_len page.old + 165 * length payload.now + 484 }
{
    append_revision(page, tag, revision);
    append_section(page, tag, revision, payload);
}

/// Appends what a timing block of CTA-861 means, of type VII, VIII or X: its extended tag, which is the tag of the data block of
/// DisplayID, and the bytes after it.
pub fn append_timing_block(page: &mut Page, tag: u8, payload: &[u8])
    requires few { length payload.now ≤ 128 }
    requires room { array_vec_len page.old + 165 * length payload.now + 484 ≤ PAGE }
    ensures items { page.new.items ≡ page.old.items ++ flat_map own_line (timing_block tag payload.now) }
    ensures len { array_vec_len page.new ≤ array_vec_len page.old + 165 * length payload.now + 484 }
{
    if let [revision, rest @ ..] = payload {
        append_data_block(page, tag, *revision, rest);
    }
}

fn append_filled(page: &mut Page, bytes: &[u8])
    requires few { length bytes.now ≤ 128 }
    requires room { array_vec_len page.old + 165 * length bytes.now + 15 ≤ PAGE }
    ensures items { page.new.items ≡ page.old.items ++ flat_map own_line (filled_lines bytes.now) }
    ensures len { array_vec_len page.new ≤ array_vec_len page.old + 165 * length bytes.now + 15 }
{
    if !are_zeros(bytes) {
        append_left(page, bytes);
    }
}

// Whether no data block stands here.
fn is_filled(bytes: &[u8]) -> bool
    ensures { result ≡ is_filled bytes.now }
{
    bytes.len() < 3 || are_zeros(bytes)
}

fn payload_length(bytes: &[u8]) -> usize
    ensures value { result ≡ payload_length bytes.now }
    ensures small { result < 256 }
{
    usize::from(byte_at(bytes, 2))
}

// The payload of the first data block.
fn first_payload(bytes: &[u8]) -> &[u8]
    requires { length bytes.now ≤ 128 }
    ensures value { result.now ≡ take (payload_length bytes.now) (drop 3 bytes.now) }
    ensures few { length result.now ≤ 128 }
    ensures short { length result.now ≤ payload_length bytes.now }
{
    before(after(bytes, 3), payload_length(bytes))
}

#[tactic(auto, unfolding(crate::specs::Sections::first_lines))]
fn append_first(page: &mut Page, bytes: &[u8])
    requires few { length bytes.now ≤ 128 }
    requires room { array_vec_len page.old + 165 * payload_length bytes.now + 484 ≤ PAGE }
    ensures items { page.new.items ≡ page.old.items ++ flat_map own_line (first_lines bytes.now) }
    ensures len { array_vec_len page.new ≤ array_vec_len page.old + 165 * payload_length bytes.now + 484 }
{
    append_data_block(
        page,
        byte_at(bytes, 0),
        byte_at(bytes, 1),
        first_payload(bytes),
    );
}

#[tactic(auto, unfolding(crate::specs::Sections::data_lines))]
fn append_data(page: &mut Page, count: &[u8], bytes: &[u8])
    requires few { length bytes.now ≤ 128 }
    requires room { array_vec_len page.old + 165 * length bytes.now + 15 ≤ PAGE }
    ensures { page.new.items ≡ page.old.items ++ flat_map own_line (data_lines count.now bytes.now) }
{
    match count {
        [] => append_filled(page, bytes),
        [_, fewer @ ..] => {
            if is_filled(bytes) {
                append_filled(page, bytes);
            } else if bytes.len() < 3 + payload_length(bytes) {
                append_left(page, bytes);
            } else {
                append_first(page, bytes);
                append_data(page, fewer, after(bytes, 3 + payload_length(bytes)));
            }
        }
    }
}

// The bytes of data, as the header counts them.
fn data_of(bytes: &[u8]) -> &[u8]
    requires { length bytes.now ≤ 128 }
    ensures value { result.now ≡ data_of bytes.now }
    ensures few { length result.now ≤ 128 }
{
    before(after(bytes, 5), usize::from(byte_at(bytes, 2)))
}

fn append_all_data(page: &mut Page, bytes: &[u8])
    requires few { length bytes.now ≤ 128 }
    requires room { array_vec_len page.old + 21200 ≤ PAGE }
    ensures { page.new.items ≡ page.old.items ++ flat_map own_line (all_data bytes.now) }
{
    let data = data_of(bytes);
    append_data(page, data, data);
}

/// Appends what a section of DisplayID means, an extension of 128 bytes: a line of its header, and lines for each data block.
#[tactic(auto, unfolding(crate::specs::Sections::displayid_lines))]
pub fn append_displayid(page: &mut Page, bytes: &[u8])
    requires few { length bytes.now ≤ 128 }
    requires room { array_vec_len page.old + 22700 ≤ PAGE }
    ensures { page.new.items ≡ page.old.items ++ flat_map own_line (displayid_lines bytes.now) }
{
    append_head(page, bytes);
    append_all_data(page, bytes);
}
