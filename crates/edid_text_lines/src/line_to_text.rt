//! Writing a line.
ghost use Rattle.std.specs.Prelude.{◌≡◌, ◌≤◌, ◌<◌, ◌+◌, ◌*◌, ◌++◌, ◌∷◌, [], length, flat_map};
ghost use Rattle.arrayvec.specs.ArrayVec.{array_vec_len};
ghost use Rattle.hex.specs.Hex.{encode_lower};
ghost use Rattle.edid_text_lines.specs.Text.{number_text, hex_word, fields_text, line_text};

use crate::line::{Fields, Line};
use arrayvec::ArrayVec;
use edid_base::append;

/// Appends a space and a number.
fn append_number(text: &mut ArrayVec<u8, 300>, number: u32)
    requires { array_vec_len text.old + 11 ≤ 300 }
    ensures items { text.new.items ≡ text.old.items ++ number_text number }
    ensures len { array_vec_len text.new ≤ array_vec_len text.old + 11 }
{
    let mut digits = itoa::Buffer::new();
    append(text, b" ");
    append(text, digits.format(number).as_bytes());
}

/// Appends numbers, a space before each.
fn append_numbers(text: &mut ArrayVec<u8, 300>, numbers: &[u32])
    requires { array_vec_len text.old + 11 * length numbers.now ≤ 300 }
    ensures items { text.new.items ≡ text.old.items ++ flat_map number_text numbers.now }
    ensures len { array_vec_len text.new ≤ array_vec_len text.old + 11 * length numbers.now }
{
    for number in numbers {
        append_number(text, *number);
    }
}

/// Appends two hex digits for each byte.
fn append_digits(text: &mut ArrayVec<u8, 300>, bytes: &[u8])
    requires few { length bytes.now ≤ 128 }
    requires room { array_vec_len text.old + 2 * length bytes.now ≤ 300 }
    ensures items { text.new.items ≡ text.old.items ++ encode_lower bytes.now }
    ensures len { array_vec_len text.new ≡ array_vec_len text.old + 2 * length bytes.now }
{
    let mut digits = [0; 256];
    let digits = &mut digits[..2 * bytes.len()];
    let _ = hex::encode_to_slice(bytes, digits);
    append(text, digits);
}

/// Appends a space and bytes in hex, `-` for none.
fn append_bytes(text: &mut ArrayVec<u8, 300>, bytes: &[u8])
    requires few { length bytes.now ≤ 128 }
    requires room { array_vec_len text.old + 2 * length bytes.now + 2 ≤ 300 }
    ensures items { text.new.items ≡ text.old.items ++ 32 ∷ hex_word bytes.now }
    ensures len { array_vec_len text.new ≤ array_vec_len text.old + 2 * length bytes.now + 2 }
{
    append(text, b" ");
    if bytes.is_empty() {
        append(text, b"-");
    } else {
        append_digits(text, bytes);
    }
}

/// Appends the fields of a line.
fn append_fields(text: &mut ArrayVec<u8, 300>, fields: &Fields)
    requires { array_vec_len text.old ≤ 11 }
    ensures items { text.new.items ≡ text.old.items ++ fields_text fields.now }
    ensures len { array_vec_len text.new ≤ 299 }
{
    match fields {
        Fields::Nothing => {}
        Fields::Letters(letters) => {
            append(text, b" ");
            append(text, letters.as_slice());
        }
        Fields::Numbers(numbers) => append_numbers(text, numbers.as_slice()),
        Fields::Timed(numbers, flags) => {
            append_numbers(text, numbers.as_slice());
            append(text, b" ");
            append_digits(text, &[*flags]);
        }
        Fields::Bytes(bytes) => append_bytes(text, bytes.as_slice()),
        Fields::Address(phys, bytes) => {
            append(text, b" ");
            append(text, &phys.text());
            append_bytes(text, bytes.as_slice());
        }
        Fields::Quoted(chars) => {
            append(text, b" \"");
            append(text, chars.as_slice());
            append(text, b"\"");
        }
    }
}

impl Line {
    /// The line as it stands in a text, with its line feed.
    pub fn write(&self) -> ArrayVec<u8, 300>
        ensures { result.items ≡ line_text self.now }
    {
        let mut text = ArrayVec::new();
        append(&mut text, self.word.text().as_bytes());
        append_fields(&mut text, &self.fields);
        append(&mut text, b"\n");
        text
    }
}
