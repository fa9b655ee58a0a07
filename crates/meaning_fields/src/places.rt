//! Video codes by their places.
ghost use Rattle.std.specs.Prelude.{◌≡◌, ◌≤◌, ◌+◌, ◌++◌, slice_get};
ghost use Rattle.arrayvec.specs.ArrayVec.{array_vec_len};
ghost use Rattle.meaning_fields.specs.Places.{coded_text, place_text};

use meaning_words::{NOTE, Note, append_between, append_code};

// The code at a place, where there is one.
fn code_at(codes: &[u8], place: usize) -> Option<u8>
    ensures { result ≡ slice_get codes.now place }
{
    codes.get(place).copied()
}

// A code, and its format.
fn append_coded(note: &mut Note, code: u8)
    requires { array_vec_len note.old + 200 ≤ NOTE }
    ensures items { note.new.items ≡ note.old.items ++ coded_text code }
    ensures len { array_vec_len note.new ≤ array_vec_len note.old + 99 }
{
    append_between(note, b"", u64::from(code), b": ");
    append_code(note, code);
}

/// Appends the video code of a place, from 0 on, and its format; or the place, from 1 on, where it has no code.
pub fn append_place(note: &mut Note, codes: &[u8], place: usize)
    requires small { place ≤ 1000 }
    requires room { array_vec_len note.old + 200 ≤ NOTE }
    ensures items { note.new.items ≡ note.old.items ++ place_text codes.now place }
    ensures len { array_vec_len note.new ≤ array_vec_len note.old + 99 }
{
    match code_at(codes, place) {
        Some(code) => append_coded(note, code),
        None => append_between(note, b"place ", place as u64 + 1, b": no code"),
    }
}
