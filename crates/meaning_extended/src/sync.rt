//! What a block of AMD means.
ghost use Rattle.std.specs.Prelude.{◌≡◌, ◌≤◌, ◌+◌, ◌++◌, length, flat_map, slice_index};
ghost use Rattle.arrayvec.specs.ArrayVec.{array_vec_len};
ghost use Rattle.meaning_words.specs.Notes.{own_line};
ghost use Rattle.meaning_fields.specs.Fields.{field_words};
ghost use Rattle.meaning_fields.specs.Luminance.{least_words};
ghost use Rattle.meaning_extended.specs.Sync.{light_rows, light_text, other_bits, other_text, plain_rows, plain_text, spare_rows, sync_meanings, sync_rows, sync_words};

use arrayvec::ArrayVec;
use edid_base::append;
use meaning_fields::{Field, FieldSays, append_fields, append_least, field_rows};
use meaning_words::{
    NOTE, Note, PAGE, Page, after, append_named_hex, append_rest, append_words, byte_at,
};

const SYNC: &[Field] = field_rows! {
    0 1 1 256 FieldSays::Number { before: " version ", times: 1, plus: 0, after: "" };
    1 1 1 256 FieldSays::Number { before: ".", times: 1, plus: 0, after: "" };
    2 1 1 256 FieldSays::Number { before: ", from ", times: 1, plus: 0, after: " Hz" };
    3 1 1 256 FieldSays::Number { before: " to ", times: 1, plus: 0, after: " Hz" };
    4 1 1 256 FieldSays::Hex(", by MCCS with VCP code ");
    5 1 4 2 FieldSays::Word(", luminances without local dimming");
};

const LIGHT: &[Field] = field_rows! {
    6 1 1 256 FieldSays::Light(", up to ");
};

const PLAIN: &[Field] = field_rows! {
    8 1 1 256 FieldSays::Light(", without local dimming up to ");
};

const SPARE: &[Field] = field_rows! {
    8 1 1 256 FieldSays::Hex(", byte 9 is ");
    9 1 1 256 FieldSays::Hex(", byte 10 is ");
};

// The bits of the flags but for that of local dimming.
fn other_bits(flags: u8) -> u8
    ensures { result ≡ other_bits flags }
{
    flags / 8 * 8 + flags % 4
}

fn append_other(note: &mut Note, bits: u8)
    requires { array_vec_len note.old + 100 ≤ NOTE }
    ensures items { note.new.items ≡ note.old.items ++ other_text bits }
    ensures len { array_vec_len note.new ≤ array_vec_len note.old + 30 }
{
    if bits != 0 {
        append_named_hex(note, b", other bits of byte 6 are ", &[bits]);
    }
}

fn append_light(note: &mut Note, payload: &[u8])
    requires { array_vec_len note.old + 260 ≤ NOTE }
    ensures items { note.new.items ≡ note.old.items ++ light_text payload.now }
    ensures len { array_vec_len note.new ≤ array_vec_len note.old + 120 }
{
    append_fields(note, LIGHT, payload);
    append_least(note, byte_at(payload, 6), byte_at(payload, 7));
}

fn append_dimmed(note: &mut Note, payload: &[u8])
    requires { array_vec_len note.old + 260 ≤ NOTE }
    ensures items { note.new.items ≡ note.old.items ++ (field_words plain_rows payload.now ++ least_words (slice_index payload.now 8) (slice_index payload.now 9)) }
    ensures len { array_vec_len note.new ≤ array_vec_len note.old + 120 }
{
    append_fields(note, PLAIN, payload);
    append_least(note, byte_at(payload, 8), byte_at(payload, 9));
}

fn append_spare(note: &mut Note, payload: &[u8])
    requires { array_vec_len note.old + 260 ≤ NOTE }
    ensures items { note.new.items ≡ note.old.items ++ field_words spare_rows payload.now }
    ensures len { array_vec_len note.new ≤ array_vec_len note.old + 120 }
{
    append_fields(note, SPARE, payload);
}

fn append_plain(note: &mut Note, payload: &[u8])
    requires { array_vec_len note.old + 260 ≤ NOTE }
    ensures items { note.new.items ≡ note.old.items ++ plain_text payload.now }
    ensures len { array_vec_len note.new ≤ array_vec_len note.old + 120 }
{
    if byte_at(payload, 5) / 4 % 2 == 1 {
        append_dimmed(note, payload);
    } else {
        append_spare(note, payload);
    }
}

fn sync_note(payload: &[u8]) -> Note
    requires { length payload.now ≤ 128 }
    ensures value { result.items ≡ sync_words payload.now }
    ensures len { array_vec_len result ≤ 1100 }
{
    let mut words: Note = ArrayVec::new();
    append(&mut words, b", AMD FreeSync");
    append_fields(&mut words, SYNC, payload);
    append_other(&mut words, other_bits(byte_at(payload, 5)));
    append_light(&mut words, payload);
    append_plain(&mut words, payload);
    append_rest(&mut words, after(payload, 10));
    words
}

/// Appends what a block of AMD means, of the bytes after the identifier.
pub fn append_sync(page: &mut Page, payload: &[u8])
    requires few { length payload.now ≤ 128 }
    requires room { array_vec_len page.old + 1536 ≤ PAGE }
    ensures { page.new.items ≡ page.old.items ++ flat_map own_line (sync_meanings payload.now) }
{
    append_words(page, sync_note(payload).as_slice());
}
