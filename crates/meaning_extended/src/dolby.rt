//! What a vendor-specific video block of Dolby means.
ghost use Rattle.std.specs.Prelude.{◌≡◌, ◌≤◌, ◌<◌, ◌+◌, ◌*◌, ◌++◌, length, flat_map};
ghost use Rattle.arrayvec.specs.ArrayVec.{array_vec_len};
ghost use Rattle.meaning_words.specs.Notes.{below, own_line};
ghost use Rattle.meaning_extended.specs.Dolby.{dolby_meanings, floor_text, long_rows, mode_rows, near_rows, nought_rows, one_meanings, one_more, one_rows, one_words, peak_text, point_rows, red_bits, short_meanings, short_rows, square_text, two_meanings, two_rows, two_words, vision};

use crate::lights::{floor, peak};
use arrayvec::ArrayVec;
use edid_base::append;
use meaning_fields::{
    Field, FieldSays, append_block, append_down_to, append_fields, append_share, choices,
    field_rows,
};
use meaning_words::{
    NOTE, Note, PAGE, Page, after, append_between, append_rest, append_words, byte_at,
};

/// The name of the block.
const VISION: &[u8] = b", Dolby Vision";
/// The units of which a least luminance of version 2 counts a thousandth of 1 cd/m2.
const FLOOR_UNITS: u64 = 1_000_000;

const NOUGHT: &[Field] = field_rows! {
    0 1 32 8 FieldSays::Number { before: " version ", times: 1, plus: 0, after: "" };
};

const ONE: &[Field] = field_rows! {
    0 1 32 8 FieldSays::Number { before: " version ", times: 1, plus: 0, after: "" };
    0 1 4 8 FieldSays::Number { before: ", display management ", times: 1, plus: 2, after: ".x" };
    0 1 1 2 FieldSays::Word(", YCbCr 4:2:2 at 12 bits");
    0 1 2 2 FieldSays::Word(", 2160p60");
    1 1 1 2 FieldSays::Word(", global dimming");
    1 1 2 128 FieldSays::Number { before: ", up to ", times: 50, plus: 100, after: " cd/m2" };
};

const NEAR: &[Field] = field_rows! {
    2 1 1 2 FieldSays::Words { before: "", texts: choices! { ", near BT.709"; ", near P3-D65"; } };
};

const LONG: &[Field] = field_rows! {
    3 1 1 256 FieldSays::Hex(", byte 4 is ");
    4 1 1 256 FieldSays::Share { before: ", red ", plus: 0, by: 256 };
    5 1 1 256 FieldSays::Share { before: " ", plus: 0, by: 256 };
    6 1 1 256 FieldSays::Share { before: ", green ", plus: 0, by: 256 };
    7 1 1 256 FieldSays::Share { before: " ", plus: 0, by: 256 };
    8 1 1 256 FieldSays::Share { before: ", blue ", plus: 0, by: 256 };
    9 1 1 256 FieldSays::Share { before: " ", plus: 0, by: 256 };
};

const SHORT: &[Field] = field_rows! {
    3 1 1 4 FieldSays::Words { before: ", latency ", texts: choices! { ", standard latency"; ", standard and low latency"; } };
    3 1 32 8 FieldSays::Share { before: ", blue ", plus: 32, by: 256 };
    3 1 4 8 FieldSays::Share { before: " ", plus: 8, by: 256 };
    4 1 2 128 FieldSays::Share { before: ", green ", plus: 0, by: 256 };
    5 1 2 128 FieldSays::Share { before: " ", plus: 128, by: 256 };
    6 1 8 32 FieldSays::Share { before: ", red ", plus: 160, by: 256 };
};

const TWO: &[Field] = field_rows! {
    0 1 32 8 FieldSays::Number { before: " version ", times: 1, plus: 0, after: "" };
    0 1 4 8 FieldSays::Number { before: ", display management ", times: 1, plus: 2, after: ".x" };
    0 1 1 2 FieldSays::Word(", YCbCr 4:2:2 at 12 bits");
    0 1 2 2 FieldSays::Word(", backlight control");
    1 1 1 4 FieldSays::Number { before: ", backlight from ", times: 25, plus: 25, after: " cd/m2 on" };
    1 1 4 2 FieldSays::Word(", global dimming");
};

const MODES: &[Field] = field_rows! {
    2 1 1 4 FieldSays::Words { before: "", texts: choices! { ", low latency"; ", low latency, also over HDMI"; ", standard and low latency"; ", standard and low latency, also over HDMI"; } };
    2 1 4 2 FieldSays::Hex(", reserved bits ");
    3 1 1 2 FieldSays::Word(", 4:4:4 at 12 bits");
    4 1 1 2 FieldSays::Word(", 4:4:4 at 10 bits");
};

const POINTS: &[Field] = field_rows! {
    5 1 8 32 FieldSays::Share { before: ", red ", plus: 160, by: 256 };
    6 1 8 32 FieldSays::Share { before: " ", plus: 64, by: 256 };
    3 1 2 128 FieldSays::Share { before: ", green ", plus: 0, by: 256 };
    4 1 2 128 FieldSays::Share { before: " ", plus: 128, by: 256 };
    5 1 1 8 FieldSays::Share { before: ", blue ", plus: 32, by: 256 };
    6 1 1 8 FieldSays::Share { before: " ", plus: 8, by: 256 };
};

// The y of red in a short block of version 1.
fn red_bits(payload: &[u8]) -> u64
    ensures value { result ≡ red_bits payload.now }
    ensures small { result < 256 }
{
    let high = u64::from(byte_at(payload, 6) % 8);
    high * 4 + u64::from(byte_at(payload, 5) % 2) * 2 + u64::from(byte_at(payload, 4) % 2)
}

fn append_short(page: &mut Page, payload: &[u8])
    requires few { length payload.now ≤ 128 }
    requires room { array_vec_len page.old + 1536 ≤ PAGE }
    ensures { page.new.items ≡ page.old.items ++ flat_map own_line (short_meanings payload.now) }
{
    let mut words: Note = ArrayVec::new();
    append_fields(&mut words, SHORT, payload);
    append_share(&mut words, " ", 64, 256, red_bits(payload));
    append_rest(&mut words, after(payload, 7));
    append_words(page, words.as_slice());
}

fn append_one_more(page: &mut Page, payload: &[u8])
    requires few { length payload.now ≤ 128 }
    requires room { array_vec_len page.old + 1536 ≤ PAGE }
    ensures { page.new.items ≡ page.old.items ++ flat_map own_line (one_more payload.now) }
{
    if payload.len() == 7 {
        append_short(page, payload);
    } else {
        append_block(page, b"", LONG, 10, payload);
    }
}

fn squared(code: u8) -> u64
    ensures value { result ≡ code * code }
    ensures small { result ≤ 65025 }
{
    u64::from(code) * u64::from(code)
}

// The square of a code's share of 127, in thousandths.
fn append_square(note: &mut Note, payload: &[u8])
    requires { array_vec_len note.old + 100 ≤ NOTE }
    ensures items { note.new.items ≡ note.old.items ++ square_text payload.now }
    ensures len { array_vec_len note.new ≤ array_vec_len note.old + 60 }
{
    if 2 < payload.len() {
        append_down_to(note, 1000 * squared(byte_at(payload, 2) / 2), 16129);
    }
}

#[tactic(auto, unfolding(crate::specs::Dolby::one_words))]
fn one_note(payload: &[u8]) -> Note
    ensures value { result.items ≡ one_words payload.now }
    ensures len { array_vec_len result ≤ 600 }
{
    let mut words: Note = ArrayVec::new();
    append(&mut words, VISION);
    append_fields(&mut words, ONE, payload);
    append_square(&mut words, payload);
    append_fields(&mut words, NEAR, payload);
    words
}

fn append_one_words(page: &mut Page, payload: &[u8])
    requires { array_vec_len page.old + 1536 ≤ PAGE }
    ensures items { page.new.items ≡ page.old.items ++ flat_map own_line (below (one_words payload.now)) }
    ensures len { array_vec_len page.new ≤ array_vec_len page.old + 1400 }
{
    append_words(page, one_note(payload).as_slice());
}

fn append_one(page: &mut Page, payload: &[u8])
    requires few { length payload.now ≤ 128 }
    requires room { array_vec_len page.old + 3072 ≤ PAGE }
    ensures { page.new.items ≡ page.old.items ++ flat_map own_line (one_meanings payload.now) }
{
    append_one_words(page, payload);
    append_one_more(page, payload);
}

fn append_peak(note: &mut Note, payload: &[u8])
    requires { array_vec_len note.old + 100 ≤ NOTE }
    ensures items { note.new.items ≡ note.old.items ++ peak_text payload.now }
    ensures len { array_vec_len note.new ≤ array_vec_len note.old + 60 }
{
    if 2 < payload.len() {
        append_between(note, b", up to ", peak(byte_at(payload, 2) / 8), b" cd/m2");
    }
}

fn append_floor(note: &mut Note, payload: &[u8])
    requires { array_vec_len note.old + 100 ≤ NOTE }
    ensures items { note.new.items ≡ note.old.items ++ floor_text payload.now }
    ensures len { array_vec_len note.new ≤ array_vec_len note.old + 60 }
{
    if 1 < payload.len() {
        append_down_to(note, floor(byte_at(payload, 1) / 8), FLOOR_UNITS);
    }
}

#[tactic(auto, unfolding(crate::specs::Dolby::two_words))]
fn two_note(payload: &[u8]) -> Note
    ensures value { result.items ≡ two_words payload.now }
    ensures len { array_vec_len result ≤ 900 }
{
    let mut words: Note = ArrayVec::new();
    append(&mut words, VISION);
    append_fields(&mut words, TWO, payload);
    append_peak(&mut words, payload);
    append_floor(&mut words, payload);
    append_fields(&mut words, MODES, payload);
    words
}

fn append_two_words(page: &mut Page, payload: &[u8])
    requires { array_vec_len page.old + 1536 ≤ PAGE }
    ensures items { page.new.items ≡ page.old.items ++ flat_map own_line (below (two_words payload.now)) }
    ensures len { array_vec_len page.new ≤ array_vec_len page.old + 1400 }
{
    append_words(page, two_note(payload).as_slice());
}

fn append_two(page: &mut Page, payload: &[u8])
    requires few { length payload.now ≤ 128 }
    requires room { array_vec_len page.old + 3072 ≤ PAGE }
    ensures { page.new.items ≡ page.old.items ++ flat_map own_line (two_meanings payload.now) }
{
    append_two_words(page, payload);
    append_block(page, b"", POINTS, 7, payload);
}

/// Appends what a block of Dolby Vision means, of the bytes after the identifier: by its version a line of what the display
/// does, and one of its primaries.
pub fn append_dolby(page: &mut Page, payload: &[u8])
    requires few { length payload.now ≤ 128 }
    requires room { array_vec_len page.old + 3072 ≤ PAGE }
    ensures { page.new.items ≡ page.old.items ++ flat_map own_line (dolby_meanings payload.now) }
{
    match byte_at(payload, 0) / 32 {
        1 => append_one(page, payload),
        2 => append_two(page, payload),
        _ => append_block(page, VISION, NOUGHT, 0, payload),
    }
}
