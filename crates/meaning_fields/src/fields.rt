//! Fields of a block, and what they say.
ghost use Rattle.std.specs.Prelude.{◌≡◌, ◌≤◌, ◌<◌, ◌+◌, ◌*◌, ◌^◌, ◌/◌, ◌%◌, ◌++◌, length, map, take, drop, slice_get, IsTrue};
ghost use Rattle.arrayvec.specs.ArrayVec.{array_vec_len};
ghost use Rattle.meaning_words.specs.Notes.{text_between};
ghost use Rattle.meaning_fields.specs.Fields.{above, are_fields, are_short, field_text, field_words, hex, hex_text, is_field, is_short, light, little, number, row_in_code, says_in_code, share, ten_thousandths, text_in_code, value_of, word, words};

use crate::brightness::luminance;
use edid_base::append;
use meaning_words::{
    NOTE, Note, after, append_between, append_decimal, append_digit, append_named_hex, before,
    byte_at, nearest,
};

/// One of the texts of a field, of at most 60 characters.
#[derive(Clone, Copy)]
pub struct Choice {
    pub text: &'static str,
}

/// Texts of a field, by its value from 0 on.
#[macro_export]
macro_rules! choices {
    ($($text:literal;)*) => {
        &[$($crate::Choice { text: $text },)*]
    };
}

/// What a field says of its value, in at most 60 characters.
#[derive(Clone, Copy)]
pub enum FieldSays {
    /// A text, where the value is not 0.
    Word(&'static str),
    /// One of some texts, by the value; past the last of them the value after `before`, as reserved.
    Words {
        before: &'static str,
        texts: &'static [Choice],
    },
    /// So many times the value, and some, between two texts.
    Number {
        before: &'static str,
        times: u64,
        plus: u64,
        after: &'static str,
    },
    /// So many times the value between two texts, and nothing of 0.
    Above {
        before: &'static str,
        times: u64,
        after: &'static str,
    },
    /// The bits in their byte in hex, and nothing of 0.
    Hex(&'static str),
    /// The value and some, in units of which `by` are 1, with four decimals.
    Share {
        before: &'static str,
        plus: u64,
        by: u64,
    },
    /// The luminance of a code, and nothing of 0.
    Light(&'static str),
}

/// Bits of a block: of `count` bytes from `place` on, the lowest first, those from `weight` on, below `range`.
#[derive(Clone, Copy)]
pub struct Field {
    pub place: usize,
    pub count: usize,
    pub weight: u64,
    pub range: u64,
    pub says: FieldSays,
}

/// Rows of fields: place and count of bytes, weight and range of bits, and what they say.
#[macro_export]
macro_rules! field_rows {
    ($($place:literal $count:literal $weight:literal $range:literal $says:expr;)*) => {
        &[$($crate::Field {
            place: $place,
            count: $count,
            weight: $weight,
            range: $range,
            says: $says,
        },)*]
    };
}

// The number of at most four bytes, the lowest first.
fn little(bytes: &[u8]) -> u64
    ensures value { result ≡ little bytes.now }
    ensures small { result < 4294967296 }
{
    u64::from(byte_at(bytes, 0))
        + u64::from(byte_at(bytes, 1)) * 256
        + u64::from(byte_at(bytes, 2)) * 65_536
        + u64::from(byte_at(bytes, 3)) * 16_777_216
}

fn value_of(field: &Field, bytes: &[u8]) -> u64
    requires { IsTrue (is_field field.now) }
    ensures value { result ≡ value_of (row_in_code field.now) bytes.now }
    ensures small { result < field.now.range }
{
    let own = before(after(bytes, field.place), field.count);
    little(own) / field.weight % field.range
}

fn append_word_of(note: &mut Note, text: &str, value: u64)
    requires short { length text.now ≤ 60 }
    requires room { array_vec_len note.old + 60 ≤ NOTE }
    ensures items { note.new.items ≡ note.old.items ++ word text.now value }
    ensures len { array_vec_len note.new ≤ array_vec_len note.old + 60 }
{
    if value != 0 {
        append(note, text.as_bytes());
    }
}

fn append_number(note: &mut Note, before: &str, number: u64, after: &str)
    requires short { length before.now + length after.now ≤ 40 }
    requires room { array_vec_len note.old + 100 ≤ NOTE }
    ensures items { note.new.items ≡ note.old.items ++ text_between before.now number after.now }
    ensures len { array_vec_len note.new ≤ array_vec_len note.old + 60 }
{
    append_between(note, before.as_bytes(), number, after.as_bytes());
}

// One of some texts, where there is one at that place.
fn text_at(texts: &[Choice], value: u64) -> Option<Choice>
    requires { value ≤ 4294967296 }
    ensures { result ≡ slice_get texts.now value }
{
    texts.get(value as usize).copied()
}

fn append_words_of(note: &mut Note, before: &str, texts: &[Choice], value: u64)
    requires small { value ≤ 4294967296 }
    requires short { length before.now ≤ 29 }
    requires short_texts { IsTrue (are_short texts.now) }
    requires room { array_vec_len note.old + 100 ≤ NOTE }
    ensures items { note.new.items ≡ note.old.items ++ words before.now (map text_in_code texts.now) value }
    ensures len { array_vec_len note.new ≤ array_vec_len note.old + 60 }
{
    match text_at(texts, value) {
        Some(choice) => append(note, choice.text.as_bytes()),
        None => append_number(note, before, value, " (reserved)"),
    }
}

fn append_product(note: &mut Note, before: &str, times: u64, plus: u64, value: u64, after: &str)
    requires short { length before.now + length after.now ≤ 40 }
    requires small { times * value + plus ≤ 1099511627776 }
    requires room { array_vec_len note.old + 100 ≤ NOTE }
    ensures items { note.new.items ≡ note.old.items ++ number before.now times plus after.now value }
    ensures len { array_vec_len note.new ≤ array_vec_len note.old + 60 }
{
    append_number(note, before, times * value + plus, after);
}

fn append_above(note: &mut Note, before: &str, times: u64, value: u64, after: &str)
    requires short { length before.now + length after.now ≤ 40 }
    requires small { times * value ≤ 1099511627776 }
    requires room { array_vec_len note.old + 100 ≤ NOTE }
    ensures items { note.new.items ≡ note.old.items ++ above before.now times after.now value }
    ensures len { array_vec_len note.new ≤ array_vec_len note.old + 60 }
{
    if value != 0 {
        append_number(note, before, times * value, after);
    }
}

#[tactic(auto, unfolding(crate::specs::Fields::hex_text))]
fn append_byte(note: &mut Note, before: &str, byte: u8)
    requires short { length before.now ≤ 40 }
    requires room { array_vec_len note.old + 60 ≤ NOTE }
    ensures items { note.new.items ≡ note.old.items ++ hex_text before.now byte }
    ensures len { array_vec_len note.new ≤ array_vec_len note.old + 42 }
{
    append_named_hex(note, before.as_bytes(), &[byte]);
}

fn append_hex_of(note: &mut Note, before: &str, weight: u64, value: u64)
    requires short { length before.now ≤ 40 }
    requires small { weight * value ≤ 18446744073709551615 }
    requires room { array_vec_len note.old + 60 ≤ NOTE }
    ensures items { note.new.items ≡ note.old.items ++ hex before.now weight value }
    ensures len { array_vec_len note.new ≤ array_vec_len note.old + 42 }
{
    if value != 0 {
        append_byte(note, before, (weight * value % 256) as u8);
    }
}

/// Appends a number of ten thousandths, with four decimals.
pub fn append_ten_thousandths(note: &mut Note, number: u64)
    requires { array_vec_len note.old + 25 ≤ NOTE }
    ensures items { note.new.items ≡ note.old.items ++ ten_thousandths number }
    ensures len { array_vec_len note.new ≤ array_vec_len note.old + 25 }
{
    append_decimal(note, number / 10_000);
    append(note, b".");
    append_digit(note, number / 1000);
    append_digit(note, number / 100);
    append_digit(note, number / 10);
    append_digit(note, number);
}

/// Appends a text, and a value and some, in units of which `by` are 1, with four decimals.
#[tactic(auto, unfolding(crate::specs::Fields::share))]
pub fn append_share(note: &mut Note, before: &str, plus: u64, by: u64, value: u64)
    requires short { length before.now ≤ 35 }
    requires some { 0 < by }
    requires small_by { by ≤ 4294967296 }
    requires small { value + plus ≤ 4294967296 }
    requires room { array_vec_len note.old + 60 ≤ NOTE }
    ensures items { note.new.items ≡ note.old.items ++ share before.now plus by value }
    ensures len { array_vec_len note.new ≤ array_vec_len note.old + 60 }
{
    append(note, before.as_bytes());
    append_ten_thousandths(note, nearest((value + plus) * 10_000, by));
}

fn append_light(note: &mut Note, before: &str, value: u64)
    requires short { length before.now ≤ 30 }
    requires room { array_vec_len note.old + 100 ≤ NOTE }
    ensures items { note.new.items ≡ note.old.items ++ light before.now value }
    ensures len { array_vec_len note.new ≤ array_vec_len note.old + 60 }
{
    if value != 0 {
        let code = (value % 256) as u8;
        append_number(note, before, u64::from(luminance(code)), " cd/m2");
    }
}

#[tactic(auto, using(crate::proofs::Products::product_small, crate::proofs::Products::plus_small))]
fn append_said(note: &mut Note, says: &FieldSays, weight: u64, range: u64, value: u64)
    requires short { IsTrue (is_short range says.now) }
    requires within { value < range }
    requires weight { weight ≤ 4294967296 }
    requires range { range ≤ 4294967296 }
    requires room { array_vec_len note.old + 100 ≤ NOTE }
    ensures items { note.new.items ≡ note.old.items ++ says_in_code says.now weight value }
    ensures len { array_vec_len note.new ≤ array_vec_len note.old + 60 }
{
    match says {
        FieldSays::Word(text) => append_word_of(note, text, value),
        FieldSays::Words { before, texts } => append_words_of(note, before, texts, value),
        FieldSays::Number {
            before,
            times,
            plus,
            after,
        } => append_product(note, before, *times, *plus, value, after),
        FieldSays::Above {
            before,
            times,
            after,
        } => append_above(note, before, *times, value, after),
        FieldSays::Hex(before) => append_hex_of(note, before, weight, value),
        FieldSays::Share { before, plus, by } => append_share(note, before, *plus, *by, value),
        FieldSays::Light(before) => append_light(note, before, value),
    }
}

fn append_field(note: &mut Note, field: &Field, bytes: &[u8])
    requires field { IsTrue (is_field field.now) }
    requires room { array_vec_len note.old + 100 ≤ NOTE }
    ensures items { note.new.items ≡ note.old.items ++ field_text bytes.now (row_in_code field.now) }
    ensures len { array_vec_len note.new ≤ array_vec_len note.old + 60 }
{
    if field.place + field.count <= bytes.len() {
        let value = value_of(field, bytes);
        append_said(note, &field.says, field.weight, field.range, value);
    }
}

/// Appends what fields say, in the order of the rows.
#[tactic(auto, unfolding(crate::specs::Fields::field_words))]
pub fn append_fields(note: &mut Note, fields: &[Field], bytes: &[u8])
    requires fields { IsTrue (are_fields fields.now) }
    requires room { array_vec_len note.old + 60 * length fields.now + 40 ≤ NOTE }
    ensures items { note.new.items ≡ note.old.items ++ field_words (map row_in_code fields.now) bytes.now }
    ensures len { array_vec_len note.new ≤ array_vec_len note.old + 60 * length fields.now }
{
    if let [field, rest @ ..] = fields {
        append_field(note, field, bytes);
        append_fields(note, rest, bytes);
    }
}
