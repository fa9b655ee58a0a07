//! The records of a difference.
ghost use Rattle.std.specs.Prelude.{◌≡◌, ◌≤◌, ◌<◌, ◌+◌, ◌++◌, [], codes, drop, length, take};
ghost use Rattle.std.specs.Fmt.{decimal};
ghost use Rattle.std.specs.List.{flat_map};
ghost use Rattle.std.specs.Str.{bytes_eq};
ghost use Rattle.edid_text_lines.specs.Text.{word_text};
ghost use Rattle.edid_difference.specs.Records.{both_text, change_text, first_cells, first_text, named_cells, only_cells, second_cells, second_text};
ghost use Rattle.edid_difference.specs.Values.{change, change_unless, changes, number_changes, rest_changes, rest_in, rest_name, rest_text, whole_text};
ghost use Rattle.record_core.specs.Records.{record_text};
ghost use Rattle.text_core.specs.Adds.{Adds};

use crate::part::Part;
use crate::values::{
    line_said, name_at, numbers_in, rest_in, rest_name, rest_text, shape, whole_text,
};
use edid_text_lines::{Keyword, Line};
use record_core::{Form, Value, add_record, cells};
use text_core::{Counted, Piece, Sink, after, before};

/// The bytes of a physical address.
const ADDRESS: usize = 2;

/// The characters of its text.
const ADDRESS_TEXT: usize = 7;

// Adds the record of a line that the first EDID has alone.
fn add_first_cells<'a, S: Sink>(
    out: &mut Counted<'_, S>,
    form: Form,
    block: u64,
    number: u64,
    whole: &'a [u8],
    word: &'a str,
    fields: &'a [u8],
)
    ensures { Adds out.old out.new (record_text form (codes "difference") (first_cells block number whole.now word.now fields.now)) }
{
    let cells = cells![
        both("block ", "block", Value::One(Piece::Decimal(block))),
        both(" line ", "first_line", Value::One(Piece::Decimal(number))),
        hidden("second_line", Value::Nothing),
        line(" - ", Value::String(whole)),
        hidden("part", Value::One(Piece::Text(word))),
        hidden("field", Value::Nothing),
        hidden("first", Value::String(fields)),
        hidden("second", Value::Nothing),
    ];
    add_record(out, form, "difference", &cells);
}

/// Adds the record of a line that the first EDID has alone.
#[inline(never)]
pub(crate) fn add_first<S: Sink>(out: &mut Counted<'_, S>, form: Form, part: &Part)
    ensures { Adds out.old out.new (first_text form part.now) }
{
    let whole = line_said(&part.line);
    let fields = whole_text(&part.line);
    add_first_cells(
        out,
        form,
        u64::from(part.block),
        u64::from(part.number),
        whole.as_slice(),
        part.line.word.text(),
        fields.as_slice(),
    );
}

// Adds the record of a line that the second EDID has alone.
fn add_second_cells<'a, S: Sink>(
    out: &mut Counted<'_, S>,
    form: Form,
    block: u64,
    number: u64,
    whole: &'a [u8],
    word: &'a str,
    fields: &'a [u8],
)
    ensures { Adds out.old out.new (record_text form (codes "difference") (second_cells block number whole.now word.now fields.now)) }
{
    let cells = cells![
        both("block ", "block", Value::One(Piece::Decimal(block))),
        hidden("first_line", Value::Nothing),
        both(" line ", "second_line", Value::One(Piece::Decimal(number))),
        line(" + ", Value::String(whole)),
        hidden("part", Value::One(Piece::Text(word))),
        hidden("field", Value::Nothing),
        hidden("first", Value::Nothing),
        hidden("second", Value::String(fields)),
    ];
    add_record(out, form, "difference", &cells);
}

/// Adds the record of a line that the second EDID has alone.
#[inline(never)]
pub(crate) fn add_second<S: Sink>(out: &mut Counted<'_, S>, form: Form, part: &Part)
    ensures { Adds out.old out.new (second_text form part.now) }
{
    let whole = line_said(&part.line);
    let fields = whole_text(&part.line);
    add_second_cells(
        out,
        form,
        u64::from(part.block),
        u64::from(part.number),
        whole.as_slice(),
        part.line.word.text(),
        fields.as_slice(),
    );
}

// Where two lines of one kind stand, and their word.
#[derive(Clone, Copy)]
struct Lines {
    form: Form,
    block: u64,
    number: u64,
    other: u64,
    word: Keyword,
}

// Adds the record of the only value of a line.
fn add_only_value<'a, S: Sink>(
    out: &mut Counted<'_, S>,
    lines: Lines,
    word: &'a str,
    first: &'a [u8],
    second: &'a [u8],
)
    ensures { Adds out.old out.new (record_text lines.form (codes "difference") (only_cells lines.block lines.number lines.other word.now first.now second.now)) }
{
    let cells = cells![
        both("block ", "block", Value::One(Piece::Decimal(lines.block))),
        both(
            " line ",
            "first_line",
            Value::One(Piece::Decimal(lines.number))
        ),
        hidden("second_line", Value::One(Piece::Decimal(lines.other))),
        both(" ", "part", Value::One(Piece::Text(word))),
        hidden("field", Value::Nothing),
        both(" ", "first", Value::String(first)),
        both(" | ", "second", Value::String(second)),
    ];
    add_record(out, lines.form, "difference", &cells);
}

// Adds the record of a value with a name.
fn add_named_value<'a, S: Sink>(
    out: &mut Counted<'_, S>,
    lines: Lines,
    word: &'a str,
    name: &'a str,
    first: &'a [u8],
    second: &'a [u8],
)
    ensures { Adds out.old out.new (record_text lines.form (codes "difference") (named_cells lines.block lines.number lines.other word.now name.now first.now second.now)) }
{
    let cells = cells![
        both("block ", "block", Value::One(Piece::Decimal(lines.block))),
        both(
            " line ",
            "first_line",
            Value::One(Piece::Decimal(lines.number))
        ),
        hidden("second_line", Value::One(Piece::Decimal(lines.other))),
        both(" ", "part", Value::One(Piece::Text(word))),
        both(" ", "field", Value::One(Piece::Text(name))),
        both(" ", "first", Value::String(first)),
        both(" | ", "second", Value::String(second)),
    ];
    add_record(out, lines.form, "difference", &cells);
}

// Adds the record of a value, whose name is empty where it is the only one of its line.
fn add_change<'a, S: Sink>(
    out: &mut Counted<'_, S>,
    lines: Lines,
    name: &'a str,
    first: &'a [u8],
    second: &'a [u8],
)
    ensures { Adds out.old out.new (change_text lines.form lines.block lines.number lines.other (word_text lines.word) (change name.now first.now second.now)) }
{
    let word = lines.word.text();
    if name.is_empty() {
        add_only_value(out, lines, word, first, second);
    } else {
        add_named_value(out, lines, word, name, first, second);
    }
}

fn add_number<S: Sink>(
    out: &mut Counted<'_, S>,
    lines: Lines,
    name: &'static str,
    first: u32,
    second: u32,
)
    ensures { Adds out.old out.new (change_text lines.form lines.block lines.number lines.other (word_text lines.word) (change name.now (decimal first) (decimal second))) }
{
    let mut digits = itoa::Buffer::new();
    let mut others = itoa::Buffer::new();
    add_change(
        out,
        lines,
        name,
        digits.format(first).as_bytes(),
        others.format(second).as_bytes(),
    );
}

// Adds the numbers that differ, from the one with this number on.
#[tactic(auto, using(text_core::proofs::Adding::nothing))]
fn add_numbers<S: Sink>(
    out: &mut Counted<'_, S>,
    lines: Lines,
    number: usize,
    first: &[u32],
    second: &[u32],
)
    requires { number + length first.now ≤ 1000 }
    ensures { Adds out.old out.new (flat_map (change_text lines.form lines.block lines.number lines.other (word_text lines.word)) (number_changes lines.word number first.now second.now)) }
{
    let [one, first @ ..] = first else {
        return;
    };
    let [other, second @ ..] = second else {
        return;
    };
    if *one == *other {
        add_numbers(out, lines, number + 1, first, second);
    } else {
        add_number(out, lines, name_at(lines.word, number), *one, *other);
        add_numbers(out, lines, number + 1, first, second);
    }
}

// Adds a value, where it differs.
#[tactic(auto, using(text_core::proofs::Adding::nothing))]
fn add_unless<'a, S: Sink>(
    out: &mut Counted<'_, S>,
    lines: Lines,
    same: bool,
    name: &'a str,
    first: &'a [u8],
    second: &'a [u8],
)
    ensures { Adds out.old out.new (flat_map (change_text lines.form lines.block lines.number lines.other (word_text lines.word)) (change_unless same name.now first.now second.now)) }
{
    if !same {
        add_change(out, lines, name, first, second);
    }
}

// Whether two texts are the same.
fn is_same(left: &[u8], right: &[u8]) -> bool
    ensures { result ≡ bytes_eq left.now right.now }
{
    left == right
}

// Adds what stands after the numbers, where it differs.
fn add_whole_rest<S: Sink>(out: &mut Counted<'_, S>, lines: Lines, first: &Line, second: &Line)
    ensures { Adds out.old out.new (flat_map (change_text lines.form lines.block lines.number lines.other (word_text lines.word))
        (change_unless (bytes_eq (rest_in first.now.fields) (rest_in second.now.fields)) (rest_name lines.word) (rest_text first.now.fields) (rest_text second.now.fields))) }
{
    let same = is_same(
        rest_in(&first.fields).as_slice(),
        rest_in(&second.fields).as_slice(),
    );
    let (one, other) = (rest_text(first), rest_text(second));
    add_unless(
        out,
        lines,
        same,
        rest_name(lines.word),
        one.as_slice(),
        other.as_slice(),
    );
}

// Adds an address and what stands after it, where they differ.
fn add_address<'a, S: Sink>(
    out: &mut Counted<'_, S>,
    lines: Lines,
    first: &'a [u8],
    second: &'a [u8],
    one: &'a [u8],
    other: &'a [u8],
)
    ensures { Adds out.old out.new (flat_map (change_text lines.form lines.block lines.number lines.other (word_text lines.word))
        (change_unless (bytes_eq (take 2 first.now) (take 2 second.now)) (codes "address") (take 7 one.now) (take 7 other.now)
        ++ change_unless (bytes_eq (drop 2 first.now) (drop 2 second.now)) (codes "bytes") (drop 8 one.now) (drop 8 other.now))) }
{
    add_unless(
        out,
        lines,
        is_same(before(first, ADDRESS), before(second, ADDRESS)),
        "address",
        before(one, ADDRESS_TEXT),
        before(other, ADDRESS_TEXT),
    );
    add_unless(
        out,
        lines,
        is_same(after(first, ADDRESS), after(second, ADDRESS)),
        "bytes",
        after(one, ADDRESS_TEXT + 1),
        after(other, ADDRESS_TEXT + 1),
    );
}

fn add_rest<S: Sink>(out: &mut Counted<'_, S>, lines: Lines, first: &Line, second: &Line)
    ensures { Adds out.old out.new (flat_map (change_text lines.form lines.block lines.number lines.other (word_text lines.word)) (rest_changes lines.word first.now.fields second.now.fields)) }
{
    match lines.word {
        Keyword::Hdmi => add_address(
            out,
            lines,
            rest_in(&first.fields).as_slice(),
            rest_in(&second.fields).as_slice(),
            whole_text(first).as_slice(),
            whole_text(second).as_slice(),
        ),
        _ => add_whole_rest(out, lines, first, second),
    }
}

// Adds two lines that are not of one form.
fn add_whole<S: Sink>(out: &mut Counted<'_, S>, lines: Lines, first: &Line, second: &Line)
    ensures { Adds out.old out.new (change_text lines.form lines.block lines.number lines.other (word_text lines.word) (change [] (whole_text first.now.fields) (whole_text second.now.fields))) }
{
    let (one, other) = (whole_text(first), whole_text(second));
    add_change(out, lines, "", one.as_slice(), other.as_slice());
}

// Adds the values of two lines that differ.
fn add_changes<S: Sink>(out: &mut Counted<'_, S>, lines: Lines, first: &Line, second: &Line)
    ensures { Adds out.old out.new (flat_map (change_text lines.form lines.block lines.number lines.other (word_text lines.word)) (changes lines.word first.now.fields second.now.fields)) }
{
    let (one, other) = (numbers_in(&first.fields), numbers_in(&second.fields));
    if shape(&first.fields) == shape(&second.fields) && one.len() == other.len() {
        add_numbers(out, lines, 0, one, other);
        add_rest(out, lines, first, second);
    } else {
        add_whole(out, lines, first, second);
    }
}

/// Adds the values that differ in two lines of one kind.
#[inline(never)]
pub(crate) fn add_both<S: Sink>(out: &mut Counted<'_, S>, form: Form, first: &Part, second: &Part)
    ensures { Adds out.old out.new (both_text form first.now second.now) }
{
    let lines = Lines {
        form,
        block: u64::from(first.block),
        number: u64::from(first.number),
        other: u64::from(second.number),
        word: first.line.word,
    };
    add_changes(out, lines, &first.line, &second.line);
}
