//! Reading a line of the text. Each reader takes what may be the spelling of a value, and the line that
//! was read is spelled again and compared.
ghost use Rattle.std.specs.Prelude.{◌≡◌, ℕ, ◌+◌, ◌<◌, ◌≤◌, ◌^◌, ◌/◌, ◌==◌, List, [], ◌∷◌, ◌++◌, length, position, flat_map, IfSome, IsSomeAnd, true, Some};
ghost use Rattle.std.specs.Fmt.{decimal};
ghost use Rattle.hex.specs.Hex.{encode_lower};
ghost use Rattle.text_core.specs.Piece.{phys_text};
ghost use Rattle.text_core.specs.declared.phys.Phys.{Phys as PhysValue};
ghost use Rattle.edid_base.specs.Bytes.{are_bytes};
ghost use Rattle.edid_text_lines.specs.Text.{word_text, number_text, hex_word, fields_text, line_text};
ghost use Rattle.edid_text_lines.specs.Formed.{is_spaceless, BeginsSpaced, are_numbers, FormedFields, Formed};
ghost use Rattle.edid_text_lines.specs.declared.line.Fields.{Fields as FieldsValue};
ghost use Rattle.edid_text_lines.specs.declared.line.Line.{Line as LineValue};
ghost use Rattle.edid_text_lines.specs.declared.line.Keyword.{Keyword as WordValue};

use crate::line::{Fields, Keyword, Line, LineContent, WORDS};
use arrayvec::ArrayVec;
use text_core::Phys;

/// Where the first space stands.
pub fn space_in(text: &[u8]) -> Option<usize>
    ensures { result ≡ position (λ b. b == 32) text.now }
{
    text.iter().position(|byte| *byte == b' ')
}

/// The characters before the first space, and what begins with it.
fn next_word(text: &[u8]) -> (&[u8], &[u8])
    ensures { (w t : List ℕ) → is_spaceless w ≡ true → BeginsSpaced t → w ++ t ≡ text.now → (result.0.now ≡ w) × (result.1.now ≡ t) }
{
    match space_in(text) {
        None => (text, &[]),
        Some(end) => (&text[..end], &text[end..]),
    }
}

/// The number that some digits may spell.
pub fn read_number(digits: &[u8]) -> Option<u32>
    ensures { (n : ℕ) → n < 2 ^ 32 → decimal n ≡ digits.now → result ≡ Some n }
{
    match str::from_utf8(digits) {
        Err(_) => None,
        Ok(text) => text.parse().ok(),
    }
}

/// So many numbers, a space before each, and what stands after them.
fn read_numbers(text: &[u8], count: usize) -> Option<(ArrayVec<u32, 13>, &[u8])>
    requires { count ≤ 13 }
    ensures { (ns t : List ℕ) → length ns ≡ count → are_numbers ns ≡ true → BeginsSpaced t → flat_map number_text ns ++ t ≡ text.now
        → IsSomeAnd result (λ r. (r.0.items ≡ ns) × (r.1.now ≡ t)) }
{
    let mut numbers = ArrayVec::new();
    let mut rest = text;
    'numbers: for _i in 0..count {
        if rest.is_empty() {
            return None;
        }
        let (digits, more) = next_word(&rest[1..]);
        let Some(number) = read_number(digits) else {
            return None;
        };
        numbers.push(number);
        rest = more;
    }
    Some((numbers, rest))
}

/// Decodes hex digits, and answers whether they are some.
fn decode_digits(digits: &[u8], bytes: &mut [u8]) -> bool
    requires { length bytes.old ≡ length digits.now / 2 }
    ensures { (bs : List ℕ) → are_bytes bs ≡ true → 2 ≤ length digits.now → hex_word bs ≡ digits.now → (result ≡ true) × (bytes.new ≡ bs) }
{
    hex::decode_to_slice(digits, bytes).is_ok()
}

/// The bytes that hex digits may spell, `-` for none.
fn read_hex(digits: &[u8]) -> Option<ArrayVec<u8, 128>>
    ensures { (bs : List ℕ) → are_bytes bs ≡ true → length bs ≤ 128 → hex_word bs ≡ digits.now → IsSomeAnd result (λ r. r.items ≡ bs) }
{
    let mut bytes = ArrayVec::new();
    if digits.len() < 2 {
        return Some(bytes);
    }
    if digits.len() > 256 {
        return None;
    }
    let mut block = [0; 128];
    let front = &mut block[..digits.len() / 2];
    if !decode_digits(digits, front) {
        return None;
    }
    let _ = bytes.try_extend_from_slice(front);
    Some(bytes)
}

/// Letters after a space.
fn letters_field(text: &[u8]) -> Option<Fields>
    ensures { (xs : List ℕ) → length xs ≤ 8 → 32 ∷ xs ≡ text.now → result ≡ Some (Fields.Letters (record { items = xs })) }
{
    if text.is_empty() || text.len() > 9 {
        return None;
    }
    let mut letters = ArrayVec::new();
    let _ = letters.try_extend_from_slice(&text[1..]);
    Some(Fields::Letters(letters))
}

/// So many numbers.
fn numbers_field(text: &[u8], count: usize) -> Option<Fields>
    requires { count ≤ 13 }
    ensures { (ns : List ℕ) → length ns ≡ count → are_numbers ns ≡ true → flat_map number_text ns ≡ text.now → result ≡ Some (Fields.Numbers (record { items = ns })) }
{
    match read_numbers(text, count) {
        None => None,
        Some((numbers, _)) => Some(Fields::Numbers(numbers)),
    }
}

/// The numbers and the flags of a detailed timing.
fn timing_field(text: &[u8]) -> Option<Fields>
    ensures { (ns : List ℕ) (flags : ℕ) → length ns ≡ 13 → are_numbers ns ≡ true → flags < 256 → flat_map number_text ns ++ (32 ∷ encode_lower (flags ∷ [])) ≡ text.now
        → result ≡ Some (Fields.Timed (record { items = ns }) flags) }
{
    let Some((numbers, rest)) = read_numbers(text, 13) else {
        return None;
    };
    if rest.is_empty() {
        return None;
    }
    let Some(flags) = read_hex(&rest[1..]) else {
        return None;
    };
    if flags.is_empty() {
        return None;
    }
    Some(Fields::Timed(numbers, flags.as_slice()[0]))
}

/// Bytes in hex after a space.
fn bytes_field(text: &[u8]) -> Option<Fields>
    ensures { (bs : List ℕ) → are_bytes bs ≡ true → length bs ≤ 128 → 32 ∷ hex_word bs ≡ text.now → result ≡ Some (Fields.Bytes (record { items = bs })) }
{
    if text.is_empty() {
        return None;
    }
    let bytes = read_hex(&text[1..])?;
    Some(Fields::Bytes(bytes))
}

/// At most 26 bytes that hex digits may spell.
fn read_payload(digits: &[u8]) -> Option<ArrayVec<u8, 26>>
    ensures { (bs : List ℕ) → are_bytes bs ≡ true → length bs ≤ 26 → hex_word bs ≡ digits.now → IsSomeAnd result (λ r. r.items ≡ bs) }
{
    let bytes = read_hex(digits)?;
    let mut payload = ArrayVec::new();
    if payload.try_extend_from_slice(bytes.as_slice()).is_err() {
        return None;
    }
    Some(payload)
}

/// A physical address and bytes.
fn address_field(text: &[u8]) -> Option<Fields>
    ensures { (p : PhysValue) (bs : List ℕ) → p.high < 256 → p.low < 256 → are_bytes bs ≡ true → length bs ≤ 26 → 32 ∷ (phys_text p ++ (32 ∷ hex_word bs)) ≡ text.now
        → result ≡ Some (Fields.Address p (record { items = bs })) }
{
    if text.len() < 9 {
        return None;
    }
    let phys = Phys::read(&text[1..8])?;
    let bytes = read_payload(&text[9..])?;
    Some(Fields::Address(phys, bytes))
}

/// Characters in quotes.
fn quoted_field(text: &[u8]) -> Option<Fields>
    ensures { (xs : List ℕ) → length xs ≤ 13 → 32 ∷ 34 ∷ (xs ++ (34 ∷ [])) ≡ text.now → result ≡ Some (Fields.Quoted (record { items = xs })) }
{
    if text.len() < 3 || text.len() > 16 {
        return None;
    }
    let mut chars = ArrayVec::new();
    let _ = chars.try_extend_from_slice(&text[2..text.len() - 1]);
    Some(Fields::Quoted(chars))
}

/// The fields of a form that a text may spell.
fn read_fields(form: LineContent, text: &[u8]) -> Option<Fields>
    ensures { (f : FieldsValue) → FormedFields form f → fields_text f ≡ text.now → result ≡ Some f }
{
    match form {
        LineContent::Empty => Some(Fields::Nothing),
        LineContent::Three => letters_field(text),
        LineContent::One => numbers_field(text, 1),
        LineContent::Two => numbers_field(text, 2),
        LineContent::Eight => numbers_field(text, 8),
        LineContent::Unused if text == b" unused".as_slice() => letters_field(text),
        LineContent::Unused => numbers_field(text, 3),
        LineContent::Timing => timing_field(text),
        LineContent::Hex => bytes_field(text),
        LineContent::Address => address_field(text),
        LineContent::Quoted => quoted_field(text),
    }
}

/// The word that a text is.
pub fn word_of(text: &[u8]) -> Option<Keyword>
    ensures found { IfSome result (λ w. word_text w ≡ text.now) }
    ensures only { (w : WordValue) → word_text w ≡ text.now → result ≡ Some w }
{
    for word in WORDS {
        if word.text().as_bytes() == text {
            return Some(word);
        }
    }
    None
}

/// The line that a text may spell.
fn candidate(line: &[u8]) -> Option<Line>
    ensures { (l : LineValue) → Formed l → line_text l ≡ line.now → result ≡ Some l }
{
    if line.is_empty() {
        return None;
    }
    let (word, after) = next_word(&line[..line.len() - 1]);
    let Some(word) = word_of(word) else {
        return None;
    };
    let Some(fields) = read_fields(word.form(), after) else {
        return None;
    };
    Some(Line { word, fields })
}

/// The line that a text spells.
pub fn read_line(line: &[u8]) -> Option<Line>
    ensures found { IfSome result (λ l. line_text l ≡ line.now) }
    ensures only { (l : LineValue) → Formed l → line_text l ≡ line.now → result ≡ Some l }
{
    let Some(read) = candidate(line) else {
        return None;
    };
    if read.write().as_slice() == line {
        Some(read)
    } else {
        None
    }
}
