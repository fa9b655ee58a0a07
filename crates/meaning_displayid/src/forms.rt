//! How a data block is told: lines of words, by a table.
ghost use Rattle.std.specs.Prelude.{◌≡◌, ◌≤◌, ◌<◌, ◌+◌, ◌*◌, ◌-◌, ◌^◌, ◌/◌, ◌%◌, ◌++◌, ◌==◌, nat_le, nat_lt, length, map, take, drop, flat_map, IsTrue};
ghost use Rattle.std.specs.List.{list_all};
ghost use Rattle.arrayvec.specs.ArrayVec.{array_vec_len};
ghost use Rattle.meaning_words.specs.Notes.{own_line};
ghost use Rattle.meaning_fields.specs.Fields.{row_in_code, text_in_code};
ghost use Rattle.meaning_displayid.specs.Forms.{bit_word, bit_words, bits, bytes, floor, form_in_code, form_lines, gamma, half_units, head_of, is_bit_word, is_form, is_line, is_say, item_length, item_lines, light, light_number, light_scale, line_in_code, line_of, lines_of, lines_width, list_lines, number_at, part, reserved_bits, reserved_light, said_words, say_in_code, say_width, text, whole_line, width};

use crate::timings::{append_front, append_left};
use arrayvec::ArrayVec;
use edid_base::append;
use meaning_fields::{Choice, Field, append_down_to, append_fields, append_share};
use meaning_words::{
    NOTE, Note, PAGE, Page, after, append_named_hex, append_rest, append_thousandths, append_words,
    before, byte_at, nearest,
};

/// The first number of IEEE 754 of 16 bits that is no finite one.
const INFINITE: u64 = 0x7c00;
/// Says that there is no luminance.
const NO_LUMINANCE: u64 = 0x8000;
/// Says that there is no gamma.
const NO_GAMMA: u8 = 255;
/// The significands of a power of 2.
const SIGNIFICANDS: u64 = 1024;
/// The units of a luminance, of 2^-25 cd/m2, are so many parts of a thousandth of 1 cd/m2, each this many times.
const LIGHT_TIMES: u64 = 125;

const LIGHT_SCALE: u64 = 4_194_304;

/// Words of a payload.
#[derive(Clone, Copy)]
pub(crate) enum Say {
    Named(&'static str),
    Fields(&'static [Field]),
    /// Words of the bits of a byte, from the lowest on, between two texts, where it is not 0.
    Bits {
        before: &'static str,
        place: usize,
        words: &'static [Choice],
        after: &'static str,
    },
    /// So many bytes from a place on, at most, as characters.
    Text {
        before: &'static str,
        place: usize,
        count: usize,
    },
    /// The same in hex.
    Bytes {
        before: &'static str,
        place: usize,
        count: usize,
    },
    /// A luminance, a number of IEEE 754 of 16 bits.
    Light {
        before: &'static str,
        place: usize,
    },
    /// A least luminance.
    Floor {
        place: usize,
    },
    /// A gamma.
    Gamma {
        place: usize,
    },
    /// The picture, the rate and the clock of a timing of 20 bytes, by the unit of its clock in kHz.
    Rate(u64),
}

/// What is said on one line.
#[derive(Clone, Copy)]
pub(crate) struct Line {
    pub says: &'static [Say],
}

/// How a data block is told that has so many bytes at least: by lines of words, the last of which has the bytes from a place on in
/// hex; and by a line for each item from a byte on, where items have a length: so many bytes, so many more, and so many more where
/// bit 6 of byte 2 of the item is set.
#[derive(Clone, Copy)]
pub(crate) struct Form {
    pub least: usize,
    pub lines: &'static [Line],
    pub last: Line,
    pub rest: usize,
    pub from: usize,
    pub step: usize,
    pub extra: usize,
    pub sized: usize,
    pub each: Line,
    /// The bytes of an item that its words are of.
    pub known: usize,
}

/// No words.
pub(crate) const NOTHING: Line = Line { says: &[] };

/// A block without items.
macro_rules! block {
    ($least:literal, $lines:expr, $last:expr, $rest:literal) => {
        $crate::forms::Form {
            least: $least,
            lines: $lines,
            last: $crate::forms::Line { says: $last },
            rest: $rest,
            from: $least,
            step: 0,
            extra: 0,
            sized: 0,
            each: $crate::forms::NOTHING,
            known: 0,
        }
    };
}

/// A block of items after some bytes.
macro_rules! list {
    ($lines:expr, $last:expr, $from:literal, $step:literal, $extra:expr, $sized:literal, $each:expr, $known:literal) => {
        $crate::forms::Form {
            least: $from,
            lines: $lines,
            last: $crate::forms::Line { says: $last },
            rest: 128,
            from: $from,
            step: $step,
            extra: $extra,
            sized: $sized,
            each: $crate::forms::Line { says: $each },
            known: $known,
        }
    };
}

pub(crate) use block;
pub(crate) use list;

fn part(payload: &[u8], place: usize, count: usize) -> &[u8]
    requires { length payload.now ≤ 128 }
    ensures value { result.now ≡ part place count payload.now }
    ensures few { length result.now ≤ 128 }
    ensures short { length result.now ≤ count }
{
    before(after(payload, place), count)
}

fn append_reserved_bits(note: &mut Note, bits: u8)
    requires { array_vec_len note.old + 20 ≤ NOTE }
    ensures items { note.new.items ≡ note.old.items ++ reserved_bits bits }
    ensures len { array_vec_len note.new ≤ array_vec_len note.old + 20 }
{
    if bits != 0 {
        append(note, b" and reserved");
    }
}

fn append_bit_word(note: &mut Note, word: &str, bits: u8)
    requires short { length word.now ≤ 16 }
    requires room { array_vec_len note.old + 16 ≤ NOTE }
    ensures items { note.new.items ≡ note.old.items ++ bit_word word.now bits }
    ensures len { array_vec_len note.new ≤ array_vec_len note.old + 16 }
{
    if bits % 2 == 1 {
        append(note, word.as_bytes());
    }
}

#[tactic(auto, unfolding(crate::specs::Forms::bit_words))]
fn append_bit_words(note: &mut Note, words: &[Choice], bits: u8)
    requires words { IsTrue (list_all is_bit_word words.now) }
    requires room { array_vec_len note.old + 16 * length words.now + 20 ≤ NOTE }
    ensures items { note.new.items ≡ note.old.items ++ bit_words (map text_in_code words.now) bits }
    ensures len { array_vec_len note.new ≤ array_vec_len note.old + 16 * length words.now + 20 }
{
    match words {
        [] => append_reserved_bits(note, bits),
        [word, rest @ ..] => {
            append_bit_word(note, word.text, bits);
            append_bit_words(note, rest, bits / 2);
        }
    }
}

#[tactic(auto, unfolding(crate::specs::Forms::bits))]
fn append_bits(
    note: &mut Note,
    before: &str,
    place: usize,
    words: &[Choice],
    after: &str,
    payload: &[u8],
)
    requires short { length before.now ≤ 40 }
    requires short_after { length after.now ≤ 40 }
    requires words { IsTrue (list_all is_bit_word words.now) }
    requires room { array_vec_len note.old + 16 * length words.now + 200 ≤ NOTE }
    ensures items { note.new.items ≡ note.old.items ++ bits before.now place (map text_in_code words.now) after.now payload.now }
    ensures len { array_vec_len note.new ≤ array_vec_len note.old + 16 * length words.now + 100 }
{
    let byte = byte_at(payload, place);
    if byte != 0 {
        append(note, before.as_bytes());
        append_bit_words(note, words, byte);
        append(note, after.as_bytes());
    }
}

fn append_text(note: &mut Note, before: &str, place: usize, count: usize, payload: &[u8])
    requires short { length before.now ≤ 40 }
    requires few { length payload.now ≤ 128 }
    requires count { count ≤ 128 }
    requires room { array_vec_len note.old + count + 140 ≤ NOTE }
    ensures items { note.new.items ≡ note.old.items ++ text before.now place count payload.now }
    ensures len { array_vec_len note.new ≤ array_vec_len note.old + 40 + count }
{
    let own = part(payload, place, count);
    if !own.is_empty() {
        append(note, before.as_bytes());
        append(note, own);
    }
}

fn append_bytes(note: &mut Note, before: &str, place: usize, count: usize, payload: &[u8])
    requires short { length before.now ≤ 40 }
    requires few { length payload.now ≤ 128 }
    requires count { count ≤ 128 }
    requires room { array_vec_len note.old + 2 * count + 140 ≤ NOTE }
    ensures items { note.new.items ≡ note.old.items ++ bytes before.now place count payload.now }
    ensures len { array_vec_len note.new ≤ array_vec_len note.old + 40 + 2 * count }
{
    let own = part(payload, place, count);
    if !own.is_empty() {
        append_named_hex(note, before.as_bytes(), own);
    }
}

fn number_at(payload: &[u8], place: usize) -> u64
    requires { place ≤ 128 }
    ensures value { result ≡ number_at place payload.now }
    ensures small { result < 65536 }
{
    u64::from(byte_at(payload, place)) + u64::from(byte_at(payload, place + 1)) * 256
}

fn power(exponent: u64) -> u64
    requires { exponent ≤ 30 }
    ensures value { result ≡ 2 ^ exponent }
    ensures small { result < 2147483648 }
{
    1u64 << exponent
}

fn scaled(significand: u64, power: u64) -> u64
    requires significand { significand ≤ 2047 }
    requires power { power < 2147483648 }
    ensures value { result ≡ significand * power }
    ensures small { result ≤ 2047 * 2147483648 }
{
    significand * power
}

fn half_units(number: u64) -> u64
    requires { number < 31744 }
    ensures value { result ≡ half_units number }
    ensures small { result ≤ 2047 * 2147483648 }
{
    if number / SIGNIFICANDS == 0 {
        2 * number
    } else {
        scaled(
            SIGNIFICANDS + number % SIGNIFICANDS,
            power(number / SIGNIFICANDS),
        )
    }
}

fn light_number(number: u64) -> u64
    requires { number < 31744 }
    ensures value { result ≡ light_number number }
    ensures small { result ≤ 125 * 2047 * 2147483648 }
{
    LIGHT_TIMES * half_units(number)
}

fn append_reserved(note: &mut Note, place: usize, payload: &[u8])
    requires place { place ≤ 128 }
    requires few { length payload.now ≤ 128 }
    requires room { array_vec_len note.old + 180 ≤ NOTE }
    ensures items { note.new.items ≡ note.old.items ++ reserved_light place payload.now }
    ensures len { array_vec_len note.new ≤ array_vec_len note.old + 80 }
{
    if number_at(payload, place) != NO_LUMINANCE {
        append_named_hex(note, b", reserved luminance ", part(payload, place, 2));
    }
}

#[tactic(auto, unfolding(crate::specs::Forms::light))]
fn append_light(note: &mut Note, before: &str, place: usize, payload: &[u8])
    requires short { length before.now ≤ 40 }
    requires place { place ≤ 128 }
    requires few { length payload.now ≤ 128 }
    requires room { array_vec_len note.old + 180 ≤ NOTE }
    ensures items { note.new.items ≡ note.old.items ++ light before.now place payload.now }
    ensures len { array_vec_len note.new ≤ array_vec_len note.old + 80 }
{
    let number = number_at(payload, place);
    if number < INFINITE {
        append(note, before.as_bytes());
        append_thousandths(note, nearest(light_number(number), LIGHT_SCALE));
        append(note, b" cd/m2");
    } else {
        append_reserved(note, place, payload);
    }
}

#[tactic(auto, unfolding(crate::specs::Forms::floor))]
fn append_floor(note: &mut Note, place: usize, payload: &[u8])
    requires place { place ≤ 128 }
    requires few { length payload.now ≤ 128 }
    requires room { array_vec_len note.old + 180 ≤ NOTE }
    ensures items { note.new.items ≡ note.old.items ++ floor place payload.now }
    ensures len { array_vec_len note.new ≤ array_vec_len note.old + 80 }
{
    let number = number_at(payload, place);
    if number < INFINITE {
        append_down_to(note, light_number(number), LIGHT_SCALE);
    } else {
        append_reserved(note, place, payload);
    }
}

#[tactic(auto, unfolding(crate::specs::Forms::gamma))]
fn append_gamma(note: &mut Note, place: usize, payload: &[u8])
    requires { array_vec_len note.old + 60 ≤ NOTE }
    ensures items { note.new.items ≡ note.old.items ++ gamma place payload.now }
    ensures len { array_vec_len note.new ≤ array_vec_len note.old + 60 }
{
    let code = byte_at(payload, place);
    if code != NO_GAMMA {
        append_share(note, ", gamma ", 100, 100, u64::from(code));
    }
}

fn append_said(note: &mut Note, say: &Say, payload: &[u8])
    requires say { IsTrue (is_say say.now) }
    requires few { length payload.now ≤ 128 }
    requires room { array_vec_len note.old + say_width say.now + 100 ≤ NOTE }
    ensures items { note.new.items ≡ note.old.items ++ say_in_code say.now payload.now }
    ensures len { array_vec_len note.new ≤ array_vec_len note.old + say_width say.now }
{
    match say {
        Say::Named(text) => append(note, text.as_bytes()),
        Say::Fields(fields) => append_fields(note, fields, payload),
        Say::Bits {
            before,
            place,
            words,
            after,
        } => append_bits(note, before, *place, words, after, payload),
        Say::Text {
            before,
            place,
            count,
        } => append_text(note, before, *place, *count, payload),
        Say::Bytes {
            before,
            place,
            count,
        } => append_bytes(note, before, *place, *count, payload),
        Say::Light { before, place } => append_light(note, before, *place, payload),
        Say::Floor { place } => append_floor(note, *place, payload),
        Say::Gamma { place } => append_gamma(note, *place, payload),
        Say::Rate(unit) => append_front(note, *unit, payload),
    }
}

#[tactic(auto, unfolding(crate::specs::Forms::said_words, crate::specs::Forms::width))]
fn append_says(note: &mut Note, says: &[Say], payload: &[u8])
    requires says { IsTrue (list_all is_say says.now) }
    requires few { length payload.now ≤ 128 }
    requires room { array_vec_len note.old + width says.now + 100 ≤ NOTE }
    ensures items { note.new.items ≡ note.old.items ++ said_words (map say_in_code says.now) payload.now }
    ensures len { array_vec_len note.new ≤ array_vec_len note.old + width says.now }
{
    if let [say, rest @ ..] = says {
        append_said(note, say, payload);
        append_says(note, rest, payload);
    }
}

// Appends a line of words.
fn append_plain(page: &mut Page, line: &Line, payload: &[u8])
    requires line { IsTrue (is_line line.now) }
    requires few { length payload.now ≤ 128 }
    requires room { array_vec_len page.old + width line.now.says.now + 3 ≤ PAGE }
    ensures items { page.new.items ≡ page.old.items ++ flat_map own_line (line_of payload.now (line_in_code line.now)) }
    ensures len { array_vec_len page.new ≤ array_vec_len page.old + width line.now.says.now + 3 }
{
    let mut words: Note = ArrayVec::new();
    append_says(&mut words, line.says, payload);
    append_words(page, words.as_slice());
}

// Appends lines of words.
#[tactic(auto, unfolding(crate::specs::Forms::lines_of, crate::specs::Forms::lines_width))]
fn append_lines(page: &mut Page, lines: &[Line], payload: &[u8])
    requires lines { IsTrue (list_all is_line lines.now) }
    requires few { length payload.now ≤ 128 }
    requires room { array_vec_len page.old + lines_width lines.now ≤ PAGE }
    ensures items { page.new.items ≡ page.old.items ++ flat_map own_line (lines_of (map line_in_code lines.now) payload.now) }
    ensures len { array_vec_len page.new ≤ array_vec_len page.old + lines_width lines.now }
{
    if let [line, rest @ ..] = lines {
        append_plain(page, line, payload);
        append_lines(page, rest, payload);
    }
}

// Appends a line of words with the bytes from a place on in hex.
fn append_whole(page: &mut Page, line: &Line, rest: usize, payload: &[u8])
    requires line { IsTrue (is_line line.now) }
    requires few { length payload.now ≤ 128 }
    requires room { array_vec_len page.old + width line.now.says.now + 2 * length payload.now + 17 ≤ PAGE }
    ensures items { page.new.items ≡ page.old.items ++ flat_map own_line (whole_line (line_in_code line.now) rest payload.now) }
    ensures len { array_vec_len page.new ≤ array_vec_len page.old + width line.now.says.now + 2 * length payload.now + 17 }
{
    let mut words: Note = ArrayVec::new();
    append_says(&mut words, line.says, payload);
    append_rest(&mut words, after(payload, rest));
    append_words(page, words.as_slice());
}

fn item_length(form: &Form, bytes: &[u8]) -> usize
    requires step { form.now.step ≤ 128 }
    requires extra { form.now.extra ≤ 128 }
    requires sized { form.now.sized ≤ 128 }
    ensures value { result ≡ item_length (form_in_code form.now) bytes.now }
    ensures least { form.now.step ≤ result }
{
    if byte_at(bytes, 2) / 64 % 2 == 1 {
        form.step + form.extra + form.sized
    } else {
        form.step + form.extra
    }
}

// Appends a line for each item, at most as many as there are bytes in a list, and what is left in hex.
#[tactic(auto, unfolding(crate::specs::Forms::item_lines))]
fn append_items(page: &mut Page, count: &[u8], form: &Form, bytes: &[u8])
    requires each { IsTrue (is_line form.now.each) }
    requires fits { width form.now.each.says.now ≤ 133 * form.now.step }
    requires some { 0 < form.now.step }
    requires step { form.now.step ≤ 128 }
    requires extra { form.now.extra ≤ 128 }
    requires sized { form.now.sized ≤ 128 }
    requires few { length bytes.now ≤ 128 }
    requires room { array_vec_len page.old + 152 * length bytes.now + 15 ≤ PAGE }
    ensures items { page.new.items ≡ page.old.items ++ flat_map own_line (item_lines count.now (form_in_code form.now) bytes.now) }
    ensures len { array_vec_len page.new ≤ array_vec_len page.old + 152 * length bytes.now + 15 }
{
    match count {
        [] => append_left(page, bytes),
        [_, fewer @ ..] => {
            let size = item_length(form, bytes);
            if bytes.len() < size {
                append_left(page, bytes);
            } else {
                append_whole(page, &form.each, form.known, before(bytes, size));
                append_items(page, fewer, form, after(bytes, size));
            }
        }
    }
}

// Appends the lines of a block before its items.
fn append_head(page: &mut Page, form: &Form, payload: &[u8])
    requires lines { IsTrue (list_all is_line form.now.lines.now) }
    requires last { IsTrue (is_line form.now.last) }
    requires few { length payload.now ≤ 128 }
    requires room { array_vec_len page.old + lines_width form.now.lines.now + width form.now.last.says.now + 2 * length payload.now + 17 ≤ PAGE }
    ensures items { page.new.items ≡ page.old.items ++ flat_map own_line (head_of (form_in_code form.now) payload.now) }
    ensures len { array_vec_len page.new ≤ array_vec_len page.old + lines_width form.now.lines.now + width form.now.last.says.now + 2 * length payload.now + 17 }
{
    append_lines(page, form.lines, payload);
    append_whole(page, &form.last, form.rest, payload);
}

// Appends the lines of a block of items.
fn append_list(page: &mut Page, form: &Form, payload: &[u8])
    requires lines { IsTrue (list_all is_line form.now.lines.now) }
    requires last { IsTrue (is_line form.now.last) }
    requires each { IsTrue (is_line form.now.each) }
    requires fits { width form.now.each.says.now ≤ 133 * form.now.step }
    requires some { 0 < form.now.step }
    requires step { form.now.step ≤ 128 }
    requires extra { form.now.extra ≤ 128 }
    requires sized { form.now.sized ≤ 128 }
    requires few { length payload.now ≤ 128 }
    requires from { form.now.from ≤ length payload.now }
    requires head { lines_width form.now.lines.now + width form.now.last.says.now + 17 ≤ 430 + 150 * form.now.from }
    requires room { array_vec_len page.old + 165 * length payload.now + 445 ≤ PAGE }
    ensures items { page.new.items ≡ page.old.items ++ flat_map own_line (list_lines (form_in_code form.now) payload.now) }
    ensures len { array_vec_len page.new ≤ array_vec_len page.old + 165 * length payload.now + 445 }
{
    append_head(page, form, payload);
    append_items(page, payload, form, after(payload, form.from));
}

/// Appends the lines of a data block by its form.
pub(crate) fn append_form(page: &mut Page, form: &Form, payload: &[u8])
    requires form { IsTrue (is_form form.now) }
    requires few { length payload.now ≤ 128 }
    requires least { form.now.least ≤ length payload.now }
    requires room { array_vec_len page.old + 165 * length payload.now + 445 ≤ PAGE }
    ensures items { page.new.items ≡ page.old.items ++ flat_map own_line (form_lines (form_in_code form.now) payload.now) }
    ensures len { array_vec_len page.new ≤ array_vec_len page.old + 165 * length payload.now + 445 }
{
    if form.step == 0 {
        append_head(page, form, payload);
    } else {
        append_list(page, form, payload);
    }
}
