//! The interpreter of tables.
ghost use Rattle.std.specs.Prelude.{◌≡◌, ◌≤◌, ◌<◌, ◌+◌, ◌++◌, ◌∷◌, [], length, map, drop, slice_index, option_map, IfSome, IsTrue};
ghost use Rattle.arrayvec.specs.ArrayVec.{array_vec_len};
ghost use Rattle.edid_fields.specs.Fields.{after_shape, are_parts, are_rows, are_shapes, are_tests, are_times, asked_of, at_first, began, bits_of, copies, copies_end, end_of, field_of, fields_of, is_asked, is_bits, is_part, is_past, is_shape, is_table, next_shape, part_end, part_fields, parts_at, parts_end, passes, passes_one, rows_at, shape_of, start_of, stop_of, times_of, value_at};
ghost use Rattle.edid_fields.specs.Forms.{field_in_code, part_in_code, row_in_code, shape_in_code, table_in_code};

use crate::tables::{Asked, Bits, Part, Row, Run, Shape, Test, Times};
use arrayvec::ArrayVec;

/// The most fields of a block of 31 bytes.
pub const MAX_FIELDS: usize = 248;
/// The most parts of a table.
const MAX_PARTS: usize = 16;
/// The row of no field.
const NO_ROW: Row = (
    Run {
        byte: 0,
        high: 0,
        low: 0,
    },
    "",
    &[],
);

/// A field of a block that was met: its first bit, the highest of byte 0 being 0, how many bits it has, its value, and its row.
#[derive(Clone, Copy)]
pub struct Report {
    pub at: usize,
    pub width: usize,
    pub value: u8,
    pub row: Row,
}

/// What fills the free places of an array.
impl Default for Report {
    fn default() -> Self {
        Report {
            at: 0,
            width: 0,
            value: 0,
            row: NO_ROW,
        }
    }
}

/// How far a walk has come, and how many bytes the block is to have at least.
#[derive(Clone, Copy, PartialEq, Eq)]
pub struct Place {
    pub at: usize,
    pub need: usize,
}

/// The value of some bits of a byte.
fn bits_of(byte: u8, high: u8, low: u8) -> u8
    requires order { low ≤ high }
    requires top { high ≤ 7 }
    ensures { result ≡ bits_of byte high low }
{
    let bits = (u16::from(byte) >> low) % (1 << (high - low + 1));
    bits as u8
}

fn byte_at(bytes: &[u8], place: usize) -> u8
    ensures { result ≡ slice_index bytes.now place }
{
    if place < bytes.len() { bytes[place] } else { 0 }
}

fn after(bytes: &[u8], count: usize) -> &[u8]
    ensures { result.now ≡ drop count bytes.now }
{
    if count < bytes.len() {
        &bytes[count..]
    } else {
        &[]
    }
}

fn start_of(starts: &[usize], own: usize, part: usize) -> usize
    ensures { result ≡ start_of starts.now own part }
{
    if part < starts.len() {
        starts[part]
    } else {
        own
    }
}

fn value_at(payload: &[u8], starts: &[usize], own: usize, bits: Bits) -> u8
    requires { IsTrue (is_bits bits) }
    ensures { result ≡ value_at payload.now starts.now own bits }
{
    let part = after(payload, start_of(starts, own, bits.part));
    bits_of(byte_at(part, bits.byte), bits.high, bits.low)
}

fn asked_of(payload: &[u8], starts: &[usize], own: usize, asked: Asked) -> usize
    requires { IsTrue (is_asked asked) }
    ensures { result ≡ asked_of payload.now starts.now own asked }
{
    match asked {
        Asked::Value(bits) => usize::from(value_at(payload, starts, own, bits)),
        Asked::Length => payload.len(),
    }
}

fn passes_one(payload: &[u8], starts: &[usize], own: usize, test: Test) -> bool
    requires { IsTrue (is_asked test.asked) }
    ensures { result ≡ passes_one payload.now starts.now own test }
{
    let value = asked_of(payload, starts, own, test.asked);
    test.least <= value && value <= test.greatest
}

fn passes(payload: &[u8], starts: &[usize], own: usize, tests: &[Test]) -> bool
    requires { IsTrue (are_tests tests.now) }
    ensures { result ≡ passes payload.now starts.now own tests.now }
{
    match tests {
        [test, rest @ ..] => {
            passes_one(payload, starts, own, *test) && passes(payload, starts, own, rest)
        }
        _ => true,
    }
}

#[tactic(auto, unfolding(crate::specs::Fields::shape_of))]
fn shape_of(payload: &[u8], starts: &[usize], own: usize, shapes: &[Shape]) -> Option<Shape>
    requires { IsTrue (are_shapes (map shape_in_code shapes.now)) }
    ensures value { option_map shape_in_code result ≡ shape_of payload.now starts.now own (map shape_in_code shapes.now) }
    ensures shape { IfSome result (λ s. IsTrue (is_shape (shape_in_code s))) }
{
    match shapes {
        [shape, rest @ ..] => {
            if passes(payload, starts, own, shape.0) {
                return Some(*shape);
            }
            shape_of(payload, starts, own, rest)
        }
        _ => None,
    }
}

fn field_of(payload: &[u8], at: usize, row: Row) -> Report
    requires order { row.0.low ≤ row.0.high }
    requires top { row.0.high ≤ 7 }
    requires few { length payload.now ≤ 31 }
    requires there { at + row.0.byte < length payload.now }
    ensures { field_in_code result ≡ field_of payload.now at (row_in_code row.entry) }
{
    Report {
        at: 8 * (at + row.0.byte) + usize::from(7 - row.0.high),
        width: usize::from(row.0.high - row.0.low + 1),
        value: bits_of(byte_at(payload, at + row.0.byte), row.0.high, row.0.low),
        row,
    }
}

#[tactic(auto, unfolding(crate::specs::Fields::rows_at))]
fn add_rows(out: &mut ArrayVec<Report, MAX_FIELDS>, payload: &[u8], at: usize, rows: &[Row])
    requires few { length payload.now ≤ 31 }
    requires place { at ≤ length payload.now }
    requires rows { IsTrue (are_rows (map row_in_code rows.now)) }
    requires room { array_vec_len out.old + length (rows_at payload.now at (map row_in_code rows.now)) ≤ MAX_FIELDS }
    ensures items { map field_in_code out.new.items ≡ map field_in_code out.old.items ++ rows_at payload.now at (map row_in_code rows.now) }
{
    if let [row, rest @ ..] = rows {
        if row.0.byte < payload.len() - at {
            out.push(field_of(payload, at, *row));
            add_rows(out, payload, at, rest);
        }
    }
}

fn after_shape(payload: &[u8], place: Place, shape: Shape) -> Place
    requires few { length payload.now ≤ 31 }
    requires place { place.at ≤ length payload.now }
    requires small { shape.1.bytes ≤ 255 }
    requires least { shape.1.least ≤ shape.1.bytes }
    ensures value { result ≡ after_shape payload.now place (shape_in_code shape.entry) }
    ensures within { result.at ≤ length payload.now }
{
    let past = place.at + shape.1.bytes;
    let need = place.at + shape.1.least;
    Place {
        at: if past < payload.len() {
            past
        } else {
            payload.len()
        },
        need: if place.need < need { need } else { place.need },
    }
}

fn is_past(stop: Option<usize>, at: usize) -> bool
    ensures { result ≡ is_past stop at }
{
    match stop {
        None => false,
        Some(stop) => stop <= at,
    }
}

fn next_shape(
    stop: Option<usize>,
    payload: &[u8],
    starts: &[usize],
    at: usize,
    shapes: &[Shape],
) -> Option<Shape>
    requires { IsTrue (are_shapes (map shape_in_code shapes.now)) }
    ensures value { option_map shape_in_code result ≡ next_shape stop payload.now starts.now at (map shape_in_code shapes.now) }
    ensures shape { IfSome result (λ s. IsTrue (is_shape (shape_in_code s))) }
{
    if is_past(stop, at) {
        None
    } else {
        shape_of(payload, starts, at, shapes)
    }
}

// Adds the fields of so many copies of a part at most, and returns where they end.
#[tactic(auto, unfolding(crate::specs::Fields::copies, crate::specs::Fields::copies_end))]
fn add_copies(
    out: &mut ArrayVec<Report, MAX_FIELDS>,
    payload: &[u8],
    starts: &[usize],
    shapes: &[Shape],
    times: usize,
    stop: Option<usize>,
    place: Place,
) -> Place
    requires few { length payload.now ≤ 31 }
    requires place { place.at ≤ length payload.now }
    requires shapes { IsTrue (are_shapes (map shape_in_code shapes.now)) }
    requires room { array_vec_len out.old + length (copies times stop payload.now starts.now (map shape_in_code shapes.now) place) ≤ MAX_FIELDS }
    ensures items { map field_in_code out.new.items ≡ map field_in_code out.old.items ++ copies times stop payload.now starts.now (map shape_in_code shapes.now) place }
    ensures end { result ≡ copies_end times stop payload.now starts.now (map shape_in_code shapes.now) place }
    ensures within { result.at ≤ length payload.now }
{
    if times == 0 {
        return place;
    }
    match next_shape(stop, payload, starts, place.at, shapes) {
        None => place,
        Some(shape) => {
            add_rows(out, payload, place.at, shape.2);
            let next = after_shape(payload, place, shape);
            add_copies(out, payload, starts, shapes, times - 1, stop, next)
        }
    }
}

fn times_of(payload: &[u8], starts: &[usize], at: usize, times: Times) -> usize
    requires { IsTrue (are_times times) }
    ensures { result ≡ times_of payload.now starts.now at times }
{
    match times {
        Times::Once => 1,
        Times::Counted(bits) => usize::from(value_at(payload, starts, at, bits)),
        Times::Within(bits, _) => usize::from(value_at(payload, starts, at, bits)),
        Times::ToEnd => payload.len(),
    }
}

fn stop_of(payload: &[u8], starts: &[usize], at: usize, times: Times) -> Option<usize>
    requires place { at ≤ 31 }
    requires times { IsTrue (are_times times) }
    ensures { result ≡ stop_of payload.now starts.now at times }
{
    match times {
        Times::Once => None,
        Times::Counted(_) => None,
        Times::Within(bits, less) => {
            let bytes = usize::from(value_at(payload, starts, at, bits));
            Some(at + bytes.saturating_sub(less))
        }
        Times::ToEnd => Some(payload.len()),
    }
}

fn began(payload: &[u8], old: Place, new: Place) -> usize
    ensures { result ≡ began payload.now old new }
{
    if old.at == new.at {
        payload.len()
    } else {
        old.at
    }
}

fn add_part(
    out: &mut ArrayVec<Report, MAX_FIELDS>,
    payload: &[u8],
    starts: &[usize],
    part: Part,
    place: Place,
) -> Place
    requires few { length payload.now ≤ 31 }
    requires place { place.at ≤ length payload.now }
    requires part { IsTrue (is_part (part_in_code part)) }
    requires room { array_vec_len out.old + length (part_fields payload.now starts.now place (part_in_code part)) ≤ MAX_FIELDS }
    ensures items { map field_in_code out.new.items ≡ map field_in_code out.old.items ++ part_fields payload.now starts.now place (part_in_code part.entry) }
    ensures end { result ≡ part_end payload.now starts.now place (part_in_code part.entry) }
    ensures within { result.at ≤ length payload.now }
{
    let times = times_of(payload, starts, place.at, part.0);
    let stop = stop_of(payload, starts, place.at, part.0);
    add_copies(out, payload, starts, part.1, times, stop, place)
}

#[tactic(auto, unfolding(crate::specs::Fields::parts_at, crate::specs::Fields::parts_end))]
fn add_parts(
    out: &mut ArrayVec<Report, MAX_FIELDS>,
    payload: &[u8],
    starts: &mut ArrayVec<usize, MAX_PARTS>,
    parts: &[Part],
    place: Place,
) -> Place
    requires few { length payload.now ≤ 31 }
    requires place { place.at ≤ length payload.now }
    requires parts { IsTrue (are_parts (map part_in_code parts.now)) }
    requires starts { array_vec_len starts.old + length parts.now ≤ MAX_PARTS }
    requires room { array_vec_len out.old + length (parts_at payload.now starts.old.items place (map part_in_code parts.now)) ≤ MAX_FIELDS }
    ensures items { map field_in_code out.new.items ≡ map field_in_code out.old.items ++ parts_at payload.now starts.old.items place (map part_in_code parts.now) }
    ensures end { result ≡ parts_end payload.now starts.old.items place (map part_in_code parts.now) }
    ensures within { result.at ≤ length payload.now }
{
    match parts {
        [part, rest @ ..] => {
            let end = add_part(out, payload, starts.as_slice(), *part, place);
            starts.push(began(payload, place, end));
            add_parts(out, payload, starts, rest, end)
        }
        _ => place,
    }
}

/// What a table makes of a block: its fields in order, and where they end.
#[derive(Drop)]
pub struct Walked {
    pub fields: ArrayVec<Report, MAX_FIELDS>,
    pub end: Place,
}

/// The fields of a block of at most 31 bytes, by its table.
pub fn walk(table: &[Part], payload: &[u8]) -> Walked
    requires few { length payload.now ≤ 31 }
    requires table { IsTrue (is_table (table_in_code table.now)) }
    ensures fields { map field_in_code result.fields.items ≡ fields_of (table_in_code table.now) payload.now }
    ensures end { result.end ≡ end_of (table_in_code table.now) payload.now }
    ensures within { result.end.at ≤ length payload.now }
{
    let mut fields = ArrayVec::new();
    let mut starts = ArrayVec::new();
    let first = Place { at: 0, need: 0 };
    let end = add_parts(&mut fields, payload, &mut starts, table, first);
    Walked { fields, end }
}
