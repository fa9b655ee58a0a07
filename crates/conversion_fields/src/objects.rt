//! The objects of a part and of its fields.
ghost use Rattle.std.specs.Prelude.{◌≡◌, ◌≤◌, ◌+◌, ◌*◌, ◌-◌, ◌/◌, ◌%◌, [], codes, length, map};
ghost use Rattle.text_core.specs.Adds.{Adds};
ghost use Rattle.record_core.specs.Strings.{string_text};
ghost use Rattle.edid_fields.specs.Forms.{field_in_code};
ghost use Rattle.edid_fields.specs.Words.{is_reserved};
ghost use Rattle.conversion_fields.specs.Objects.{bytes_text, field_object, field_text, found_text, lengths_text, objects_text, part_object, place_text, value_text};
ghost use Rattle.conversion_fields.specs.Said.{byte_said, bytes_said, found_of, said_of};

use edid_fields::{Report, is_reserved, word_of};
use record_core::add_quoted;
use text_core::{Counted, Piece, Sink};

fn add_string<S: Sink>(out: &mut Counted<'_, S>, text: &str)
    ensures { Adds out.old out.new (string_text text.now) }
{
    add_quoted(out, text.as_bytes());
}

fn add_begin<'a, S: Sink>(out: &mut Counted<'_, S>, number: u64, at: u64, bytes: &'a [u8])
    ensures { Adds out.old out.new (bytes_text number at bytes.now) }
{
    out.add_line(&[
        Piece::Text("{\"type\":\"part\",\"block\":"),
        Piece::Decimal(number),
        Piece::Text(",\"byte\":"),
        Piece::Decimal(at),
        Piece::Text(",\"bytes\":\""),
        Piece::Hex(bytes),
        Piece::Text("\",\"name\":"),
    ]);
}

fn add_lengths<S: Sink>(out: &mut Counted<'_, S>, cut: u64, left: u64)
    ensures { Adds out.old out.new (lengths_text cut left) }
{
    out.add_line(&[
        Piece::Text(",\"cut\":"),
        Piece::Decimal(cut),
        Piece::Text(",\"left\":"),
        Piece::Decimal(left),
        Piece::Text("}\n"),
    ]);
}

/// How many bytes a part has too few, and how many are left over.
#[derive(Clone, Copy)]
pub(crate) struct Lengths {
    pub cut: usize,
    pub left: usize,
}

/// Adds the object of a part.
#[tactic(auto, unfolding(crate::specs::Objects::part_object))]
pub(crate) fn add_part<S: Sink>(
    out: &mut Counted<'_, S>,
    number: u64,
    at: usize,
    bytes: &[u8],
    name: &str,
    lengths: Lengths,
)
    ensures { Adds out.old out.new (part_object number at bytes.now name.now lengths.cut lengths.left) }
{
    add_begin(out, number, at as u64, bytes);
    add_string(out, name);
    add_lengths(out, lengths.cut as u64, lengths.left as u64);
}

/// Where a field stands: in which block of 128 bytes, in which of its bytes, and its highest and lowest bit.
#[derive(Clone, Copy)]
struct Place {
    number: u64,
    byte: usize,
    high: usize,
    low: usize,
}

fn add_place<S: Sink>(out: &mut Counted<'_, S>, number: u64, byte: u64, high: u64, low: u64)
    ensures { Adds out.old out.new (place_text number byte high low) }
{
    out.add_line(&[
        Piece::Text("{\"type\":\"field\",\"block\":"),
        Piece::Decimal(number),
        Piece::Text(",\"byte\":"),
        Piece::Decimal(byte),
        Piece::Text(",\"high\":"),
        Piece::Decimal(high),
        Piece::Text(",\"low\":"),
        Piece::Decimal(low),
        Piece::Text(",\"name\":"),
    ]);
}

fn add_value<S: Sink>(out: &mut Counted<'_, S>, value: u64)
    ensures { Adds out.old out.new (value_text value) }
{
    out.add_line(&[
        Piece::Text(",\"value\":"),
        Piece::Decimal(value),
        Piece::Text(",\"meaning\":"),
    ]);
}

fn add_found<'a, S: Sink>(out: &mut Counted<'_, S>, found: &'a str)
    ensures { Adds out.old out.new (found_text found.now) }
{
    out.add_line(&[
        Piece::Text(",\"found\":"),
        Piece::Text(found),
        Piece::Text("}\n"),
    ]);
}

/// What is said of a field: its name, its value, what that says, and what is found of it.
#[derive(Clone, Copy)]
struct Words<'a> {
    name: &'a str,
    value: u64,
    meaning: &'a str,
    found: &'a str,
}

fn add_words<S: Sink>(out: &mut Counted<'_, S>, place: Place, words: Words)
    ensures { Adds out.old out.new (field_text place.number place.byte place.high place.low words.entry.name.now words.entry.value words.entry.meaning.now words.entry.found.now) }
{
    add_place(
        out,
        place.number,
        place.byte as u64,
        place.high as u64,
        place.low as u64,
    );
    add_string(out, words.name);
    add_value(out, words.value);
    add_string(out, words.meaning);
    add_found(out, words.found);
}

fn found_of(reserved: bool) -> &'static str
    ensures { result.now ≡ found_of reserved }
{
    if reserved { "\"reserved\"" } else { "null" }
}

fn add_field<S: Sink>(out: &mut Counted<'_, S>, number: u64, start: usize, report: &Report)
    requires { start ≤ 6000 }
    ensures { Adds out.old out.new (field_object number (said_of start (field_in_code report.now))) }
{
    let bit = report.at % 8;
    let place = Place {
        number,
        byte: start + report.at / 8,
        high: 7 - bit,
        low: (8 - bit).saturating_sub(report.width),
    };
    let words = Words {
        name: report.row.1,
        value: u64::from(report.value),
        meaning: word_of(report),
        found: found_of(is_reserved(report)),
    };
    add_words(out, place, words);
}

/// Adds the objects of fields, of bytes that begin at one of the block.
pub(crate) fn add_fields<S: Sink>(
    out: &mut Counted<'_, S>,
    number: u64,
    start: usize,
    reports: &[Report],
)
    requires start { start ≤ 6000 }
    ensures { Adds out.old out.new (objects_text number (map (said_of start) (map field_in_code reports.now))) }
{
    if let [report, others @ ..] = reports {
        add_field(out, number, start, report);
        add_fields(out, number, start, others);
    }
}

fn add_byte<S: Sink>(
    out: &mut Counted<'_, S>,
    number: u64,
    at: usize,
    name: &str,
    found: &str,
    byte: u8,
)
    ensures { Adds out.old out.new (field_object number (byte_said name.now found.now at byte)) }
{
    let place = Place {
        number,
        byte: at,
        high: 7,
        low: 0,
    };
    let words = Words {
        name,
        value: u64::from(byte),
        meaning: "",
        found,
    };
    add_words(out, place, words);
}

/// Adds the objects of bytes that have no field, by their name and by what is found of them.
#[tactic(auto, unfolding(crate::specs::Said::bytes_said))]
pub(crate) fn add_bytes<S: Sink>(
    out: &mut Counted<'_, S>,
    number: u64,
    at: usize,
    name: &str,
    found: &str,
    bytes: &[u8],
)
    requires few { at + length bytes.now ≤ 7000 }
    ensures { Adds out.old out.new (objects_text number (bytes_said name.now found.now at bytes.now)) }
{
    if let [byte, others @ ..] = bytes {
        add_byte(out, number, at, name, found, *byte);
        add_bytes(out, number, at + 1, name, found, others);
    }
}
