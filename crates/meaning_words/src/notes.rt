//! The lines below a line of a text, and the words of one of them.
ghost use Rattle.std.specs.Prelude.{◌≡◌, ◌≤◌, ◌<◌, ◌+◌, ◌*◌, ◌++◌, length, map, flat_map};
ghost use Rattle.std.specs.Fmt.{decimal};
ghost use Rattle.arrayvec.specs.ArrayVec.{array_vec_len};
ghost use Rattle.meaning_words.specs.Notes.{printable, own_line, comma, below, text_between, counted_text, digit, hundredths, thousandths, rest_words};
ghost use Rattle.hex.specs.Hex.{encode_lower};

use arrayvec::ArrayVec;
use edid_base::append;

/// The bytes that a line's words have room in.
pub const NOTE: usize = 1536;
/// The bytes that a line of a text and all lines below it have room in.
pub const PAGE: usize = 24_576;

/// What is said on one line.
pub type Note = ArrayVec<u8, NOTE>;
/// A line of a text, and the lines below it.
pub type Page = ArrayVec<u8, PAGE>;

fn printable(byte: u8) -> u8
    ensures { result ≡ printable byte }
{
    if 0x20 <= byte && byte <= 0x7e {
        byte
    } else {
        b'.'
    }
}

/// Appends a text, a dot for each byte that is no character of ASCII.
fn append_printable(page: &mut Page, text: &[u8])
    requires { array_vec_len page.old + length text.now ≤ PAGE }
    ensures items { page.new.items ≡ page.old.items ++ map printable text.now }
    ensures len { array_vec_len page.new ≡ array_vec_len page.old + length text.now }
{
    for byte in text {
        page.push(printable(*byte));
    }
}

/// Appends a line of its own, after two spaces.
pub fn append_line(page: &mut Page, text: &[u8])
    requires { array_vec_len page.old + length text.now + 3 ≤ PAGE }
    ensures items { page.new.items ≡ page.old.items ++ own_line text.now }
    ensures len { array_vec_len page.new ≡ array_vec_len page.old + length text.now + 3 }
{
    append(page, b"  ");
    append_printable(page, text);
    append(page, b"\n");
}

/// Appends a line of words, each of which has a comma and a space before it, without the first comma. It appends nothing
/// where there is no word.
pub fn append_words(page: &mut Page, words: &[u8])
    requires { array_vec_len page.old + length words.now + 1 ≤ PAGE }
    ensures items { page.new.items ≡ page.old.items ++ flat_map own_line (below words.now) }
    ensures len { array_vec_len page.new ≤ array_vec_len page.old + length words.now + 1 }
{
    if let [_, _, text @ ..] = words {
        append_line(page, text);
    }
}

/// Appends a word, with a comma and a space before it.
pub fn append_word(note: &mut Note, word: &[u8])
    requires { array_vec_len note.old + length word.now + 2 ≤ NOTE }
    ensures items { note.new.items ≡ note.old.items ++ comma word.now }
    ensures len { array_vec_len note.new ≡ array_vec_len note.old + length word.now + 2 }
{
    append(note, b", ");
    append(note, word);
}

/// Appends a number in decimal digits.
pub fn append_decimal(note: &mut Note, number: u64)
    requires { array_vec_len note.old + 20 ≤ NOTE }
    ensures items { note.new.items ≡ note.old.items ++ decimal number }
    ensures len { array_vec_len note.new ≤ array_vec_len note.old + 20 }
{
    let mut digits = itoa::Buffer::new();
    append(note, digits.format(number).as_bytes());
}

/// Appends the last digit of a number.
pub fn append_digit(note: &mut Note, number: u64)
    requires { array_vec_len note.old + 1 ≤ NOTE }
    ensures items { note.new.items ≡ note.old.items ++ digit number }
    ensures len { array_vec_len note.new ≡ array_vec_len note.old + 1 }
{
    append(note, &[b'0' + (number % 10) as u8]);
}

/// Appends a count of hundredths, with two decimals.
pub fn append_hundredths(note: &mut Note, number: u64)
    requires { array_vec_len note.old + 23 ≤ NOTE }
    ensures items { note.new.items ≡ note.old.items ++ hundredths number }
    ensures len { array_vec_len note.new ≤ array_vec_len note.old + 23 }
{
    append_decimal(note, number / 100);
    append(note, b".");
    append_digit(note, number / 10);
    append_digit(note, number);
}

/// Appends a count of thousandths, with three decimals.
pub fn append_thousandths(note: &mut Note, number: u64)
    requires { array_vec_len note.old + 24 ≤ NOTE }
    ensures items { note.new.items ≡ note.old.items ++ thousandths number }
    ensures len { array_vec_len note.new ≤ array_vec_len note.old + 24 }
{
    append_decimal(note, number / 1000);
    append(note, b".");
    append_digit(note, number / 100);
    append_digit(note, number / 10);
    append_digit(note, number);
}

/// Appends a number in decimal digits between two texts.
#[tactic(auto, unfolding(crate::specs::Notes::text_between))]
pub fn append_between(note: &mut Note, before: &[u8], number: u64, after: &[u8])
    requires short_before { length before.now ≤ 40 }
    requires short_after { length after.now ≤ 40 }
    requires room { array_vec_len note.old + 100 ≤ NOTE }
    ensures items { note.new.items ≡ note.old.items ++ text_between before.now number after.now }
    ensures len { array_vec_len note.new ≤ array_vec_len note.old + length before.now + length after.now + 20 }
{
    append(note, before);
    append_decimal(note, number);
    append(note, after);
}

/// Appends a text and bytes in hex.
pub fn append_named_hex(note: &mut Note, name: &[u8], bytes: &[u8])
    requires short { length name.now ≤ 40 }
    requires few { length bytes.now ≤ 128 }
    requires room { array_vec_len note.old + 2 * length bytes.now + 40 ≤ NOTE }
    ensures items { note.new.items ≡ note.old.items ++ (name.now ++ encode_lower bytes.now) }
    ensures len { array_vec_len note.new ≡ array_vec_len note.old + length name.now + 2 * length bytes.now }
{
    append(note, name);
    append_hex(note, bytes);
}

/// Appends a number and what it counts, with an `s` but for one.
#[tactic(auto, unfolding(crate::specs::Notes::counted_text))]
pub fn append_counted(note: &mut Note, number: u64, word: &[u8])
    requires short { length word.now ≤ 30 }
    requires room { array_vec_len note.old + 51 ≤ NOTE }
    ensures items { note.new.items ≡ note.old.items ++ counted_text number word.now }
    ensures len { array_vec_len note.new ≤ array_vec_len note.old + 51 }
{
    append_decimal(note, number);
    append(note, word);
    if number != 1 {
        append(note, b"s");
    }
}

/// Appends two hex digits for each byte.
pub fn append_hex(note: &mut Note, bytes: &[u8])
    requires few { length bytes.now ≤ 128 }
    requires room { array_vec_len note.old + 2 * length bytes.now ≤ NOTE }
    ensures items { note.new.items ≡ note.old.items ++ encode_lower bytes.now }
    ensures len { array_vec_len note.new ≡ array_vec_len note.old + 2 * length bytes.now }
{
    let mut digits = [0; 256];
    let digits = &mut digits[..2 * bytes.len()];
    let _ = hex::encode_to_slice(bytes, digits);
    append(note, digits);
}

/// Appends bytes of no known meaning, where there are some.
#[tactic(auto, unfolding(crate::specs::Notes::rest_words))]
pub fn append_rest(note: &mut Note, bytes: &[u8])
    requires few { length bytes.now ≤ 128 }
    requires room { array_vec_len note.old + 2 * length bytes.now + 40 ≤ NOTE }
    ensures items { note.new.items ≡ note.old.items ++ rest_words bytes.now }
    ensures len { array_vec_len note.new ≤ array_vec_len note.old + 2 * length bytes.now + 14 }
{
    if !bytes.is_empty() {
        append_named_hex(note, b", then in hex ", bytes);
    }
}
