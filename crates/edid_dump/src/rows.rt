//! Rows of a hex dump, and the forms that they have.
ghost use Rattle.std.specs.Prelude.{◌≡◌, ◌+◌, ◌<◌, ◌≤◌, ◌^◌, length, IsSome, Some};
ghost use Rattle.std.specs.Option.{option_map};
ghost use Rattle.std.specs.List.{list_all};
ghost use Rattle.std.specs.Char.{is_ascii_hexdigit};
ghost use Rattle.edid_dump.specs.Digits.{bytes_with_row};
ghost use Rattle.edid_dump.specs.Rows.{after_number, after_tag, begins_with, digits_read, digits_start, form_of, has_header, has_number, has_offset, has_wide_offset, header_at, header_in, is_repeat, is_short, is_star, may_have, next_form, place_of, reading_of, row, spells_header, table_start, tail_start};

use crate::digits::{Column, is_blank, octal_of, offset_of};
use crate::lists::{begins, list_start};
use crate::readings::{Ending, Reading, count_by, push_by};
use crate::spelled::Spelling;
use arrayvec::ArrayVec;
use text_core::{after, before, byte_at, len_before};

/// The form of a dump's rows.
#[derive(Clone, Copy, Debug, PartialEq, Eq)]
pub enum DumpForm {
    /// Digits and blanks alone, as `xxd -p`, `edid-decode` and `xrandr` print them.
    Plain,
    /// An offset and a colon, digits, two spaces and characters, as `xxd` prints them.
    Colon,
    /// An offset and two spaces, digits, and characters between bars, as `hexdump -C` prints them.
    Bars,
    /// An offset of seven digits, octal ones, and digits, as `od -tx1` prints them; characters may stand after an angle.
    Octal,
    /// The same with an offset of six hex digits, as `od -Ax -tx1` prints them.
    Six,
    /// A line of a log that ends in sixteen pairs one blank apart.
    LogPairs,
    /// A line of a log that ends in 32 digits.
    LogDigits,
    /// An offset of two digits and a colon, digits, two spaces and characters, as `i2cdump` prints them.
    Short,
    /// An offset of seven hex digits, and words of two bytes, as `hexdump` prints them.
    Words,
    /// A list of bytes that may begin after `<`, `{` or `hex:`, as programs and registries have them.
    Opened,
    /// A further line of such a list.
    Listed,
    /// Digits between two tags, as `edid-decode -o xml` prints them.
    Tagged,
    /// An offset, sixteen pairs and characters, as Format-Hex of PowerShell prints them.
    Table,
    /// A record of Intel HEX.
    Record,
    /// Pairs with dashes between, as BitConverter of .NET prints them, from the header on.
    Dashed,
    /// A further line of such pairs.
    DashedMore,
    /// Escapes in strings of a program, from the header on.
    Escaped,
    /// A further line of such strings.
    EscapedMore,
    /// Decimal numbers, as JSON has them, from the header on.
    Decimal,
    /// A further line of such numbers.
    DecimalMore,
    /// One word with all digits, as `reg query` prints it.
    Word,
    /// No row: after a form that has one row.
    Over,
}

/// The forms of a dump's first row, in the order in which a line is tried.
const FIRST_FORMS: &[DumpForm] = &[
    DumpForm::Plain,
    DumpForm::Colon,
    DumpForm::Bars,
    DumpForm::Octal,
    DumpForm::Six,
    DumpForm::LogPairs,
    DumpForm::LogDigits,
    DumpForm::Short,
    DumpForm::Words,
    DumpForm::Opened,
    DumpForm::Tagged,
    DumpForm::Table,
    DumpForm::Record,
    DumpForm::Dashed,
    DumpForm::Escaped,
    DumpForm::Decimal,
    DumpForm::Word,
];

/// The header of an EDID (VESA E-EDID, 3.3).
const HEADER: &[u8] = &[0, 0xff, 0xff, 0xff, 0xff, 0xff, 0xff, 0];

/// The same, in words.
const WORDS_HEADER: &[u8] = &[0xff, 0, 0xff, 0xff, 0xff, 0xff, 0, 0xff];

fn all_digits(text: &[u8]) -> bool
    ensures { result ≡ list_all is_ascii_hexdigit text.now }
{
    text.iter().all(|b| b.is_ascii_hexdigit())
}

fn has_offset(line: &[u8]) -> bool
    ensures { result ≡ has_offset line.now }
{
    line.len() >= 8 && all_digits(before(line, 8))
}

fn has_number(count: usize, line: &[u8]) -> bool
    ensures { result ≡ has_number count line.now }
{
    count <= line.len()
        && (all_digits(before(line, count))
            && (line.len() == count || is_blank(byte_at(line, count))))
}

// Where the digits begin after a number of so many.
fn after_number(count: usize, line: &[u8]) -> Option<usize>
    ensures { result ≡ after_number count line.now }
{
    if has_number(count, line) {
        Some(count)
    } else {
        None
    }
}

fn is_short(line: &[u8]) -> bool
    ensures { result ≡ is_short line.now }
{
    all_digits(before(line, 2)) && (byte_at(line, 2) == b':' && byte_at(line, 3) == b' ')
}

// Where the last so many characters begin, with a blank before them.
fn tail_start(count: usize, line: &[u8]) -> Option<usize>
    requires { count < 100 }
    ensures { result ≡ tail_start count line.now }
{
    if count < line.len() && is_blank(byte_at(line, line.len() - count - 1)) {
        Some(line.len() - count)
    } else {
        None
    }
}

// Where a line goes on after its first tag.
fn after_tag(line: &[u8]) -> Option<usize>
    ensures { result ≡ after_tag line.now }
{
    let place = len_before(line, b'>');
    if place < line.len() {
        Some(place + 1)
    } else {
        None
    }
}

// An offset of eight digits and three spaces.
fn has_wide_offset(line: &[u8]) -> bool
    ensures { result ≡ has_wide_offset line.now }
{
    has_offset(line)
        && (byte_at(line, 8) == b' ' && (byte_at(line, 9) == b' ' && byte_at(line, 10) == b' '))
}

// Where the digits of Format-Hex begin: after an offset of sixteen digits, or of eight and three spaces.
fn table_start(line: &[u8]) -> Option<usize>
    ensures { result ≡ table_start line.now }
{
    if has_number(16, line) {
        Some(17)
    } else if has_wide_offset(line) {
        Some(11)
    } else {
        None
    }
}

// Where the digits of a row begin.
fn digits_start(form: DumpForm, line: &[u8]) -> Option<usize>
    ensures { result ≡ digits_start form line.now }
{
    match form {
        DumpForm::Plain => Some(0),
        DumpForm::Colon => {
            let is_row = has_offset(line) && byte_at(line, 8) == b':';
            if is_row { Some(9) } else { None }
        }
        DumpForm::Bars => {
            let is_row = has_offset(line)
                && (line.len() == 8 || (byte_at(line, 8) == b' ' && byte_at(line, 9) == b' '));
            if is_row { Some(8) } else { None }
        }
        DumpForm::LogPairs => tail_start(47, line),
        DumpForm::LogDigits => tail_start(32, line),
        DumpForm::Octal | DumpForm::Words => after_number(7, line),
        DumpForm::Six => after_number(6, line),
        DumpForm::Short => { if is_short(line) { Some(3) } else { None } }
        DumpForm::Opened => Some(list_start(line)),
        DumpForm::Listed => Some(0),
        DumpForm::Tagged => after_tag(line),
        DumpForm::Table => table_start(line),
        DumpForm::Record => {
            if byte_at(line, 0) == b':' {
                Some(1)
            } else {
                None
            }
        }
        DumpForm::Dashed | DumpForm::Escaped | DumpForm::Decimal | DumpForm::Word => {
            header_at(form, line)
        }
        DumpForm::DashedMore | DumpForm::EscapedMore | DumpForm::DecimalMore => Some(0),
        DumpForm::Over => None,
    }
}

// Whether the header of an EDID stands here, as a form spells it that may begin within a line.
fn spells_header(form: DumpForm, rest: &[u8]) -> bool
    ensures { result ≡ spells_header form rest.now }
{
    match form {
        DumpForm::Dashed => {
            begins(rest, b"00-ff-ff-ff-ff-ff-ff-00") || begins(rest, b"00-FF-FF-FF-FF-FF-FF-00")
        }
        DumpForm::Escaped => {
            begins(rest, b"\\x00\\xff\\xff\\xff\\xff\\xff\\xff\\x00")
                || begins(rest, b"\\x00\\xFF\\xFF\\xFF\\xFF\\xFF\\xFF\\x00")
        }
        DumpForm::Decimal => {
            begins(rest, b"0,255,255,255,255,255,255,")
                || begins(rest, b"0, 255, 255, 255, 255, 255, 255,")
                || begins(rest, b"0 255 255 255 255 255 255 ")
        }
        DumpForm::Word => begins(rest, b"00ffffffffffff00") || begins(rest, b"00FFFFFFFFFFFF00"),
        _ => false,
    }
}

// Where the header first stands.
fn header_at(form: DumpForm, line: &[u8]) -> Option<usize>
    ensures { result ≡ header_at form 0 line.now }
{
    let mut place = 0;
    let mut rest = line;
    'bytes: while let [_first, others @ ..] = rest {
        if spells_header(form, rest) {
            return Some(place);
        }
        place += 1;
        rest = others;
    }
    None
}

// How the bytes of a row stand in its digits.
fn reading_of(form: DumpForm) -> Reading
    ensures { result ≡ reading_of form }
{
    match form {
        DumpForm::Plain
        | DumpForm::LogPairs
        | DumpForm::LogDigits
        | DumpForm::Words
        | DumpForm::Over => Reading::InPairs(Column::Absent),
        DumpForm::Colon => Reading::InPairs(Column::AfterGap),
        DumpForm::Short => Reading::InPairs(Column::AfterGap),
        DumpForm::Octal | DumpForm::Six => Reading::InPairs(Column::AfterAngle),
        DumpForm::Bars => Reading::InPairs(Column::AfterBar),
        DumpForm::Opened | DumpForm::Listed => Reading::InCode,
        DumpForm::Tagged => Reading::UpTo(Ending::Tag),
        DumpForm::Table => Reading::UpTo(Ending::Sixteen),
        DumpForm::Word => Reading::UpTo(Ending::Other),
        DumpForm::Record => Reading::InRecord,
        DumpForm::Dashed | DumpForm::DashedMore => Reading::InWords(Spelling::Pair),
        DumpForm::Escaped | DumpForm::EscapedMore => Reading::InWords(Spelling::Escape),
        DumpForm::Decimal | DumpForm::DecimalMore => Reading::InWords(Spelling::Number),
    }
}

fn may_have(form: DumpForm, count: usize) -> bool
    ensures { result ≡ may_have form count }
{
    match form {
        DumpForm::Plain
        | DumpForm::Colon
        | DumpForm::Bars
        | DumpForm::Octal
        | DumpForm::Six
        | DumpForm::Short
        | DumpForm::Words
        | DumpForm::Opened
        | DumpForm::Listed
        | DumpForm::Over => true,
        DumpForm::LogPairs | DumpForm::LogDigits | DumpForm::Table => count == 16,
        DumpForm::Tagged
        | DumpForm::Record
        | DumpForm::Dashed
        | DumpForm::DashedMore
        | DumpForm::Escaped
        | DumpForm::EscapedMore
        | DumpForm::Decimal
        | DumpForm::DecimalMore => count > 0,
        DumpForm::Word => count % 128 == 0,
    }
}

// How many bytes digits spell, as a row of this form has them.
fn digit_count(form: DumpForm, text: &[u8]) -> Option<usize>
    ensures { result ≡ option_map length (digits_read form text.now) }
{
    count_by(reading_of(form), text)
}

// Adds the bytes that they spell, as far as there is room.
fn push_digits(form: DumpForm, text: &[u8], bytes: &mut ArrayVec<u8, 512>)
    requires { IsSome (digits_read form text.now) }
    ensures { bytes_with_row bytes.old.items (digits_read form text.now) ≡ Some bytes.new.items }
{
    push_by(reading_of(form), text, bytes);
}

/// How many bytes a line has, where it is a row of this form.
#[tactic(auto, using(crate::proofs::RowLemmas::row_by_count, crate::proofs::RowLemmas::row_absent))]
pub fn row_count(form: DumpForm, line: &[u8]) -> Option<usize>
    ensures { result ≡ option_map length (row form line.now) }
{
    let Some(start) = digits_start(form, line) else {
        return None;
    };
    let Some(count) = digit_count(form, after(line, start)) else {
        return None;
    };
    if may_have(form, count) {
        Some(count)
    } else {
        None
    }
}

/// Adds the bytes of a row, as far as there is room.
#[tactic(auto, using(crate::proofs::RowLemmas::row_absent))]
pub fn push_row(form: DumpForm, line: &[u8], bytes: &mut ArrayVec<u8, 512>)
    requires { IsSome (row form line.now) }
    ensures { bytes_with_row bytes.old.items (row form line.now) ≡ Some bytes.new.items }
{
    let Some(start) = digits_start(form, line) else {
        return;
    };
    push_digits(form, after(line, start), bytes);
}

fn is_star(line: &[u8]) -> bool
    ensures { result ≡ is_star line.now }
{
    line.len() == 1 && byte_at(line, 0) == b'*'
}

/// Whether a line stands for rows that repeat the one above.
pub fn is_repeat(form: DumpForm, line: &[u8]) -> bool
    ensures { result ≡ is_repeat form line.now }
{
    match form {
        DumpForm::Bars | DumpForm::Octal | DumpForm::Six | DumpForm::Words => is_star(line),
        DumpForm::Plain
        | DumpForm::Colon
        | DumpForm::LogPairs
        | DumpForm::LogDigits
        | DumpForm::Short
        | DumpForm::Opened
        | DumpForm::Listed
        | DumpForm::Tagged
        | DumpForm::Table
        | DumpForm::Record
        | DumpForm::Dashed
        | DumpForm::DashedMore
        | DumpForm::Escaped
        | DumpForm::EscapedMore
        | DumpForm::Decimal
        | DumpForm::DecimalMore
        | DumpForm::Word
        | DumpForm::Over => false,
    }
}

/// The number of a row's first byte, in a form of which rows may be left out.
pub fn place_of(form: DumpForm, line: &[u8]) -> u64
    ensures value { result ≡ place_of form line.now }
    ensures small { result < 2 ^ 32 }
{
    match form {
        DumpForm::Octal => octal_of(line),
        DumpForm::Six => offset_of(line) / 0x100,
        DumpForm::Words => offset_of(line) / 0x10,
        DumpForm::Plain
        | DumpForm::Colon
        | DumpForm::Bars
        | DumpForm::LogPairs
        | DumpForm::LogDigits
        | DumpForm::Short
        | DumpForm::Opened
        | DumpForm::Listed
        | DumpForm::Tagged
        | DumpForm::Table
        | DumpForm::Record
        | DumpForm::Dashed
        | DumpForm::DashedMore
        | DumpForm::Escaped
        | DumpForm::EscapedMore
        | DumpForm::Decimal
        | DumpForm::DecimalMore
        | DumpForm::Word
        | DumpForm::Over => offset_of(line),
    }
}

/// The form of the row after one of this form.
pub fn next_form(form: DumpForm) -> DumpForm
    ensures { result ≡ next_form form }
{
    match form {
        DumpForm::Opened => DumpForm::Listed,
        DumpForm::Dashed => DumpForm::DashedMore,
        DumpForm::Escaped => DumpForm::EscapedMore,
        DumpForm::Decimal => DumpForm::DecimalMore,
        DumpForm::Word => DumpForm::Over,
        DumpForm::Plain
        | DumpForm::Colon
        | DumpForm::Bars
        | DumpForm::Octal
        | DumpForm::Six
        | DumpForm::LogPairs
        | DumpForm::LogDigits
        | DumpForm::Short
        | DumpForm::Words
        | DumpForm::Listed
        | DumpForm::Tagged
        | DumpForm::Table
        | DumpForm::Record
        | DumpForm::DashedMore
        | DumpForm::EscapedMore
        | DumpForm::DecimalMore
        | DumpForm::Over => form,
    }
}

// Whether a row begins with these bytes.
#[tactic(auto, using(crate::proofs::RowLemmas::begins_absent, crate::proofs::RowLemmas::counted_some))]
fn begins_with(front: &[u8], form: DumpForm, line: &[u8]) -> bool
    ensures { result ≡ begins_with front.now (row form line.now) }
{
    let Some(_count) = row_count(form, line) else {
        return false;
    };
    let mut bytes = ArrayVec::new();
    push_row(form, line, &mut bytes);
    before(&bytes, 8) == front
}

// The header as the rows of a form have it.
fn header_in(form: DumpForm) -> &'static [u8]
    ensures { result.now ≡ header_in form }
{
    if form == DumpForm::Words {
        WORDS_HEADER
    } else {
        HEADER
    }
}

fn has_header(form: DumpForm, line: &[u8]) -> bool
    ensures { result ≡ has_header line.now form }
{
    begins_with(header_in(form), form, line)
}

/// The form of a line that an EDID begins with.
pub fn form_of(line: &[u8]) -> Option<DumpForm>
    ensures { result ≡ form_of line.now }
{
    FIRST_FORMS
        .iter()
        .copied()
        .find(|form| has_header(*form, line))
}
