//! The values of a line: its numbers with their names, and the bytes of the rest.
ghost use Rattle.std.specs.Prelude.{◌≡◌, ◌≤◌, ◌++◌, ◌∷◌, [], drop, length, map};
ghost use Rattle.hex.specs.Hex.{encode_lower};
ghost use Rattle.edid_text_lines.specs.Text.{fields_text, line_text, word_text};
ghost use Rattle.edid_difference.specs.Values.{name_at, names, numbers_in, rest_in, rest_name, rest_text, shape, whole_text};

use arrayvec::ArrayVec;
use edid_base::append;
use edid_text_lines::{Fields, Keyword, Line};

/// The names of numbers (E-EDID Release A, sections 3.4, 3.6, 3.7, 3.9 and 3.10.2).
const MADE: &[&str] = &["week", "year"];

const SIZE: &[&str] = &["width", "height"];

const CHROMA: &[&str] = &[
    "red-x", "red-y", "green-x", "green-y", "blue-x", "blue-y", "white-x", "white-y",
];

const STANDARD: &[&str] = &["width", "aspect", "rate"];

const TIMING: &[&str] = &[
    "clock",
    "h-active",
    "h-blanking",
    "v-active",
    "v-blanking",
    "h-sync-offset",
    "h-sync-width",
    "v-sync-offset",
    "v-sync-width",
    "width",
    "height",
    "h-border",
    "v-border",
];

fn names(word: Keyword) -> &'static [&'static str]
    ensures { map (λ n. n.now) result.now ≡ names word }
{
    match word {
        Keyword::Made => MADE,
        Keyword::Size => SIZE,
        Keyword::Chroma => CHROMA,
        Keyword::Standard => STANDARD,
        Keyword::Timing => TIMING,
        _ => &[],
    }
}

/// The name of a number of a line with this word, or none.
pub(crate) fn name_at(word: Keyword, number: usize) -> &'static str
    ensures { result.now ≡ name_at word number }
{
    let names = names(word);
    if number < names.len() {
        names[number]
    } else {
        ""
    }
}

/// The name of what stands after the numbers.
pub(crate) fn rest_name(word: Keyword) -> &'static str
    ensures { result.now ≡ rest_name word }
{
    match word {
        Keyword::Timing => "flags",
        _ => "",
    }
}

/// Which form the fields have.
pub(crate) fn shape(fields: &Fields) -> u8
    ensures { result ≡ shape fields.now }
{
    match fields {
        Fields::Nothing => 0,
        Fields::Letters(_) => 1,
        Fields::Numbers(_) => 2,
        Fields::Timed(..) => 3,
        Fields::Bytes(_) => 4,
        Fields::Address(..) => 5,
        Fields::Quoted(_) => 6,
    }
}

/// The numbers in the fields.
pub(crate) fn numbers_in(fields: &Fields) -> &[u32]
    ensures value { result.now ≡ numbers_in fields.now }
    ensures few { length result.now ≤ 13 }
{
    match fields {
        Fields::Numbers(numbers) => numbers.as_slice(),
        Fields::Timed(numbers, _) => numbers.as_slice(),
        _ => &[],
    }
}

/// The bytes of what stands after the numbers.
pub(crate) fn rest_in(fields: &Fields) -> ArrayVec<u8, 130>
    ensures { result.items ≡ rest_in fields.now }
{
    let mut rest = ArrayVec::new();
    match fields {
        Fields::Nothing | Fields::Numbers(_) => {}
        Fields::Letters(letters) => append(&mut rest, letters.as_slice()),
        Fields::Timed(_, flags) => append(&mut rest, &[*flags]),
        Fields::Bytes(bytes) => append(&mut rest, bytes.as_slice()),
        Fields::Address(phys, bytes) => {
            append(&mut rest, &[phys.high, phys.low]);
            append(&mut rest, bytes.as_slice());
        }
        Fields::Quoted(chars) => append(&mut rest, chars.as_slice()),
    }
    rest
}

/// The line as it stands in a text, without its line feed.
pub(crate) fn line_said(line: &Line) -> ArrayVec<u8, 300>
    ensures { result.items ≡ word_text line.now.word ++ fields_text line.now.fields }
{
    let mut text = line.write();
    let _ = text.pop();
    text
}

/// The fields of a line as they stand in a text, without the space before them.
pub(crate) fn whole_text(line: &Line) -> ArrayVec<u8, 300>
    ensures { result.items ≡ whole_text line.now.fields }
{
    let said = line_said(line);
    let (_word, fields) = said.as_slice().split_at(line.word.text().len());
    let mut text = ArrayVec::new();
    if let [_space, fields @ ..] = fields {
        append(&mut text, fields);
    }
    text
}

fn hex_text(byte: u8) -> ArrayVec<u8, 300>
    ensures { result.items ≡ encode_lower (byte ∷ []) }
{
    let mut digits = [0; 2];
    let _ = hex::encode_to_slice(&[byte], &mut digits);
    let mut text = ArrayVec::new();
    append(&mut text, &digits);
    text
}

/// What stands after the numbers of a line.
pub(crate) fn rest_text(line: &Line) -> ArrayVec<u8, 300>
    ensures { result.items ≡ rest_text line.now.fields }
{
    match &line.fields {
        Fields::Timed(_, flags) => hex_text(*flags),
        _ => whole_text(line),
    }
}
