//! What descriptors of no known form and extensions that are kept as they are report of themselves.
ghost use Rattle.std.specs.Prelude.{◌≡◌, ◌≤◌, ◌+◌, ◌++◌, length, flat_map};
ghost use Rattle.arrayvec.specs.ArrayVec.{array_vec_len};
ghost use Rattle.meaning_words.specs.Notes.{own_line};
ghost use Rattle.meaning_base.specs.Raws.{tag_name, has_characters, characters, tagged_text, raw_text, raw_meanings, cta_text, ext_name, ext_text, ext_meanings};

use crate::heads::head_fields;
use arrayvec::ArrayVec;
use edid_base::{append, are_zeros};
use meaning_fields::append_fields;
use meaning_words::{NOTE, Note, PAGE, Page, after, append_between, append_line, byte_at};

/// The only revision of a CTA block whose parts are told apart.
const CTA_REVISION: u8 = 3;

fn tag_name(tag: u8) -> &'static str
    ensures value { result.now ≡ tag_name tag }
    ensures short { length result.now ≤ 23 }
{
    match tag {
        0xff => "serial number",
        0xfe => "text",
        0xfd => "range limits",
        0xfc => "name",
        0xfb => "colour point",
        0xfa => "standard timings",
        0xf9 => "colour management",
        0xf8 => "CVT codes",
        0xf7 => "established timings III",
        0x10 => "dummy",
        0x00..=0x0f => "of the maker's own",
        _ => "reserved",
    }
}

fn has_characters(tag: u8) -> bool
    ensures { result ≡ has_characters tag }
{
    tag == 0xff || tag == 0xfe || tag == 0xfc
}

fn append_characters(note: &mut Note, tag: u8, bytes: &[u8])
    requires few { length bytes.now ≤ 128 }
    requires room { array_vec_len note.old + 130 ≤ NOTE }
    ensures items { note.new.items ≡ note.old.items ++ characters tag bytes.now }
    ensures len { array_vec_len note.new ≤ array_vec_len note.old + 130 }
{
    if has_characters(tag) {
        append(note, b": ");
        append(note, after(bytes, 5));
    }
}

fn append_tagged(note: &mut Note, bytes: &[u8])
    requires few { length bytes.now ≤ 128 }
    requires room { array_vec_len note.old + 153 ≤ NOTE }
    ensures items { note.new.items ≡ note.old.items ++ tagged_text bytes.now }
    ensures len { array_vec_len note.new ≤ array_vec_len note.old + 153 }
{
    let tag = byte_at(bytes, 3);
    append(note, tag_name(tag).as_bytes());
    append_characters(note, tag, bytes);
}

fn raw_note(bytes: &[u8]) -> Note
    requires { length bytes.now ≤ 128 }
    ensures value { result.items ≡ raw_text bytes.now }
    ensures len { array_vec_len result ≤ 153 }
{
    let mut note = ArrayVec::new();
    if are_zeros(bytes) {
        append(&mut note, b"empty");
    } else if byte_at(bytes, 0) == 0 && byte_at(bytes, 1) == 0 && byte_at(bytes, 2) == 0 {
        append_tagged(&mut note, bytes);
    } else {
        append(&mut note, b"no tag");
    }
    note
}

/// Appends what the tag of a descriptor of no known form says, and the characters of a name, a text and a serial number,
/// with a dot for each that is none of ASCII (E-EDID Release A, section 3.10.3).
#[tactic(auto, unfolding(crate::specs::Raws::raw_meanings))]
pub fn append_raw(page: &mut Page, bytes: &[u8])
    requires few { length bytes.now ≤ 128 }
    requires room { array_vec_len page.old + 160 ≤ PAGE }
    ensures items { page.new.items ≡ page.old.items ++ flat_map own_line (raw_meanings bytes.now) }
    ensures len { array_vec_len page.new ≤ array_vec_len page.old + 160 }
{
    append_line(page, raw_note(bytes).as_slice());
}

fn append_cta(note: &mut Note, revision: u8)
    requires { array_vec_len note.old + 100 ≤ NOTE }
    ensures items { note.new.items ≡ note.old.items ++ cta_text revision }
    ensures len { array_vec_len note.new ≤ array_vec_len note.old + 60 }
{
    if revision == CTA_REVISION {
        append(note, b"CTA-861, data blocks or timings that overrun");
    } else {
        append_between(note, b"CTA-861 of revision ", u64::from(revision), b"");
    }
}

fn name_note(bytes: &[u8]) -> Note
    ensures value { result.items ≡ ext_name bytes.now }
    ensures len { array_vec_len result ≤ 60 }
{
    let mut note = ArrayVec::new();
    match byte_at(bytes, 0) {
        0x02 => append_cta(&mut note, byte_at(bytes, 1)),
        0x10 => append(&mut note, b"video timing block"),
        0x40 => append(&mut note, b"display information"),
        0x50 => append(&mut note, b"localized strings"),
        0x60 => append(&mut note, b"digital packet video link"),
        0x70 => append(&mut note, b"DisplayID"),
        0xf0 => append(&mut note, b"block map"),
        0xff => append(&mut note, b"of the maker's own"),
        _ => append(&mut note, b"unknown extension"),
    }
    note
}

fn ext_note(bytes: &[u8]) -> Note
    ensures value { result.items ≡ ext_text bytes.now }
    ensures len { array_vec_len result ≤ 540 }
{
    let mut note = name_note(bytes);
    append_fields(&mut note, head_fields(bytes), bytes);
    note
}

/// Appends what kind of extension it is that is kept as it is, by its first byte, for a CTA block why, and what its first bytes
/// report (E-EDID Release A, section 2.2.1).
#[tactic(auto, unfolding(crate::specs::Raws::ext_meanings))]
pub fn append_ext(page: &mut Page, bytes: &[u8])
    requires { array_vec_len page.old + 550 ≤ PAGE }
    ensures items { page.new.items ≡ page.old.items ++ flat_map own_line (ext_meanings bytes.now) }
    ensures len { array_vec_len page.new ≤ array_vec_len page.old + 550 }
{
    append_line(page, ext_note(bytes).as_slice());
}
