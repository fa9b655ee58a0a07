//! The object of a line.
ghost use Rattle.std.specs.Prelude.{codes, map, ◌++◌, ◌∷◌, []};
ghost use Rattle.std.specs.Fmt.{decimal};
ghost use Rattle.std.specs.List.{flat_map};
ghost use Rattle.text_core.specs.Adds.{Adds};
ghost use Rattle.text_core.specs.Piece.{piece_text};
ghost use Rattle.record_core.specs.Cells.{bit_text, bits_json, bytes_json, digits_text, gathered, in_quotes, item_json, listed, named_json, named_position_json, out_json, part_json, piece_json, plain_of, position_json, rest_listed, slot_position_json, stand_json, switch_json, value_json};
ghost use Rattle.record_core.specs.Records.{field_text, object_of};
ghost use Rattle.record_core.specs.Strings.{string_text};

use crate::cell::{Cell, Out, Part, Position, Shown, Stand, Value};
use crate::line::add_words;
use crate::strings::{add_quoted, add_text};
use text_core::{Counted, Piece, Sink};

fn add_in_quotes<S: Sink>(out: &mut Counted<'_, S>, piece: Piece)
    ensures { Adds out.old out.new (in_quotes (piece_text piece.entry)) }
{
    out.add_line(&[Piece::Text("\""), piece, Piece::Text("\"")]);
}

fn add_bytes<S: Sink>(out: &mut Counted<'_, S>, bytes: &[u8])
    ensures { Adds out.old out.new (bytes_json bytes.now) }
{
    match bytes {
        [] => out.add(b"null"),
        _ => add_in_quotes(out, Piece::Hex(bytes)),
    }
}

fn add_switch<S: Sink>(out: &mut Counted<'_, S>, is_on: bool)
    ensures { Adds out.old out.new (switch_json is_on) }
{
    if is_on {
        out.add(b"true");
    } else {
        out.add(b"false");
    }
}

fn add_piece<S: Sink>(out: &mut Counted<'_, S>, piece: &Piece)
    ensures { Adds out.old out.new (piece_json piece.now) }
{
    match *piece {
        Piece::Text(text) => add_text(out, text.as_bytes()),
        Piece::Bytes(bytes) => add_text(out, bytes),
        Piece::Decimal(number) | Piece::DecimalOrDash(Some(number)) => {
            out.add_line(&[Piece::Decimal(number)]);
        }
        Piece::Nibble(nibble) | Piece::NibbleOrDash(Some(nibble)) => {
            add_in_quotes(out, Piece::Nibble(nibble));
        }
        Piece::HexByte(byte) | Piece::HexByteOrDash(Some(byte)) => {
            add_in_quotes(out, Piece::HexByte(byte));
        }
        Piece::Hex(bytes) => add_in_quotes(out, Piece::Hex(bytes)),
        Piece::HexOrDash(bytes) => add_bytes(out, bytes),
        Piece::Phys(phys) | Piece::PhysOrDash(Some(phys)) => {
            add_in_quotes(out, Piece::Phys(phys));
        }
        Piece::Switch(is_on) => add_switch(out, is_on),
        Piece::PhysOrDash(None)
        | Piece::DecimalOrDash(None)
        | Piece::NibbleOrDash(None)
        | Piece::HexByteOrDash(None) => out.add(b"null"),
    }
}

// Adds a value of a list, in which a text is a string.
fn add_item<S: Sink>(out: &mut Counted<'_, S>, piece: &Piece)
    ensures { Adds out.old out.new (item_json piece.now) }
{
    match *piece {
        Piece::Text(text) => add_quoted(out, text.as_bytes()),
        Piece::Bytes(bytes) => add_quoted(out, bytes),
        Piece::Decimal(_)
        | Piece::Nibble(_)
        | Piece::HexByte(_)
        | Piece::Hex(_)
        | Piece::HexOrDash(_)
        | Piece::Phys(_)
        | Piece::PhysOrDash(_)
        | Piece::Switch(_)
        | Piece::DecimalOrDash(_)
        | Piece::NibbleOrDash(_)
        | Piece::HexByteOrDash(_) => add_piece(out, piece),
    }
}

#[tactic(auto, using(text_core::proofs::Adding::nothing))]
fn add_more<S: Sink>(out: &mut Counted<'_, S>, pieces: &[Piece])
    ensures { Adds out.old out.new (rest_listed item_json pieces.now) }
{
    if let [piece, others @ ..] = pieces {
        out.add(b",");
        add_item(out, piece);
        add_more(out, others);
    }
}

fn add_first<S: Sink>(out: &mut Counted<'_, S>, piece: &Piece)
    ensures { Adds out.old out.new (codes "[" ++ item_json piece.now) }
{
    out.add(b"[");
    add_item(out, piece);
}

fn add_others<S: Sink>(out: &mut Counted<'_, S>, others: &[Piece])
    ensures { Adds out.old out.new (rest_listed item_json others.now ++ codes "]") }
{
    add_more(out, others);
    out.add(b"]");
}

fn add_list<S: Sink>(out: &mut Counted<'_, S>, pieces: &[Piece])
    ensures { Adds out.old out.new (listed item_json pieces.now) }
{
    if let [piece, others @ ..] = pieces {
        add_first(out, piece);
        add_others(out, others);
    } else {
        out.add(b"[]");
    }
}

// Adds a name as that of a field.
fn add_name<S: Sink>(out: &mut Counted<'_, S>, name: &str)
    ensures { Adds out.old out.new (codes "\"" ++ (name.now ++ codes "\":")) }
{
    out.add(b"\"");
    out.add(name.as_bytes());
    out.add(b"\":");
}

fn add_part<S: Sink>(out: &mut Counted<'_, S>, part: &Part)
    ensures { Adds out.old out.new (part_json part.now) }
{
    add_name(out, part.name);
    add_piece(out, &part.piece);
}

#[tactic(auto, using(text_core::proofs::Adding::nothing))]
fn add_more_parts<S: Sink>(out: &mut Counted<'_, S>, parts: &[Part])
    ensures { Adds out.old out.new (rest_listed part_json parts.now) }
{
    if let [part, others @ ..] = parts {
        out.add(b",");
        add_part(out, part);
        add_more_parts(out, others);
    }
}

fn add_first_part<S: Sink>(out: &mut Counted<'_, S>, part: &Part)
    ensures { Adds out.old out.new (codes "{" ++ part_json part.now) }
{
    out.add(b"{");
    add_part(out, part);
}

fn add_other_parts<S: Sink>(out: &mut Counted<'_, S>, others: &[Part])
    ensures { Adds out.old out.new (rest_listed part_json others.now ++ codes "}") }
{
    add_more_parts(out, others);
    out.add(b"}");
}

fn add_parts<S: Sink>(out: &mut Counted<'_, S>, parts: &[Part])
    ensures { Adds out.old out.new (gathered part_json parts.now) }
{
    if let [part, others @ ..] = parts {
        add_first_part(out, part);
        add_other_parts(out, others);
    } else {
        out.add(b"null");
    }
}

fn add_out<S: Sink>(out: &mut Counted<'_, S>, one: &Out)
    ensures { Adds out.old out.new (out_json one.now) }
{
    out.add(b"{\"device\":");
    add_quoted(out, one.name);
    out.add_line(&[
        Piece::Text(",\"slot\":"),
        Piece::Decimal(one.slot),
        Piece::Text("}"),
    ]);
}

#[tactic(auto, using(text_core::proofs::Adding::nothing))]
fn add_more_outs<S: Sink>(out: &mut Counted<'_, S>, outs: &[Out])
    ensures { Adds out.old out.new (rest_listed out_json outs.now) }
{
    if let [one, others @ ..] = outs {
        out.add(b",");
        add_out(out, one);
        add_more_outs(out, others);
    }
}

fn add_first_outs<S: Sink>(out: &mut Counted<'_, S>, one: &Out)
    ensures { Adds out.old out.new (codes "[" ++ out_json one.now) }
{
    out.add(b"[");
    add_out(out, one);
}

fn add_others_outs<S: Sink>(out: &mut Counted<'_, S>, others: &[Out])
    ensures { Adds out.old out.new (rest_listed out_json others.now ++ codes "]") }
{
    add_more_outs(out, others);
    out.add(b"]");
}

fn add_outs<S: Sink>(out: &mut Counted<'_, S>, outs: &[Out])
    ensures { Adds out.old out.new (listed out_json outs.now) }
{
    if let [one, others @ ..] = outs {
        add_first_outs(out, one);
        add_others_outs(out, others);
    } else {
        out.add(b"[]");
    }
}

fn add_bit<S: Sink>(out: &mut Counted<'_, S>, bit: bool)
    ensures { Adds out.old out.new (bit_text bit) }
{
    if bit {
        out.add(b"1");
    } else {
        out.add(b"0");
    }
}

fn add_digits<S: Sink>(out: &mut Counted<'_, S>, bits: &[bool])
    ensures { Adds out.old out.new (digits_text bits.now) }
{
    for bit in bits {
        add_bit(out, *bit);
    }
}

fn add_quoted_digits<S: Sink>(out: &mut Counted<'_, S>, bits: &[bool])
    ensures { Adds out.old out.new (codes "\"" ++ (digits_text bits.now ++ codes "\"")) }
{
    out.add(b"\"");
    add_digits(out, bits);
    out.add(b"\"");
}

fn add_bits<S: Sink>(out: &mut Counted<'_, S>, bits: &[bool])
    ensures { Adds out.old out.new (bits_json bits.now) }
{
    match bits {
        [] => out.add(b"null"),
        _ => add_quoted_digits(out, bits),
    }
}

fn add_slot_number<S: Sink>(out: &mut Counted<'_, S>, slot: u64)
    ensures { Adds out.old out.new (codes ",\"position\":\"slot\",\"slot\":" ++ decimal slot) }
{
    out.add(b",\"position\":\"slot\",\"slot\":");
    out.add_line(&[Piece::Decimal(slot)]);
}

fn add_slot<S: Sink>(out: &mut Counted<'_, S>, slot: u64, bits: &[bool])
    ensures { Adds out.old out.new (slot_position_json slot bits.now) }
{
    add_slot_number(out, slot);
    out.add(b",\"bits\":");
    add_bits(out, bits);
    out.add(b"}");
}

fn add_named_position<S: Sink>(out: &mut Counted<'_, S>, word: &[u8])
    ensures { Adds out.old out.new (named_position_json word.now) }
{
    out.add(b",\"position\":");
    add_quoted(out, word);
    out.add(b",\"slot\":null,\"bits\":null}");
}

fn add_position<S: Sink>(out: &mut Counted<'_, S>, position: Position)
    ensures { Adds out.old out.new (position_json position.entry) }
{
    match position {
        Position::Named(word) => add_named_position(out, word.as_bytes()),
        Position::Slot(slot, bits) => add_slot(out, slot, bits),
    }
}

fn add_device<S: Sink>(out: &mut Counted<'_, S>, name: &[u8])
    ensures { Adds out.old out.new (codes "{\"device\":" ++ string_text name.now) }
{
    out.add(b"{\"device\":");
    add_quoted(out, name);
}

fn add_stand<S: Sink>(out: &mut Counted<'_, S>, stand: &Stand)
    ensures { Adds out.old out.new (stand_json stand.now) }
{
    add_device(out, stand.name);
    add_position(out, stand.position);
}

#[tactic(auto, using(text_core::proofs::Adding::nothing))]
fn add_more_stands<S: Sink>(out: &mut Counted<'_, S>, stands: &[Stand])
    ensures { Adds out.old out.new (rest_listed stand_json stands.now) }
{
    if let [stand, others @ ..] = stands {
        out.add(b",");
        add_stand(out, stand);
        add_more_stands(out, others);
    }
}

fn add_first_stand<S: Sink>(out: &mut Counted<'_, S>, stand: &Stand)
    ensures { Adds out.old out.new (codes "[" ++ stand_json stand.now) }
{
    out.add(b"[");
    add_stand(out, stand);
}

fn add_other_stands<S: Sink>(out: &mut Counted<'_, S>, others: &[Stand])
    ensures { Adds out.old out.new (rest_listed stand_json others.now ++ codes "]") }
{
    add_more_stands(out, others);
    out.add(b"]");
}

fn add_stands<S: Sink>(out: &mut Counted<'_, S>, stands: &[Stand])
    ensures { Adds out.old out.new (listed stand_json stands.now) }
{
    if let [stand, others @ ..] = stands {
        add_first_stand(out, stand);
        add_other_stands(out, others);
    } else {
        out.add(b"[]");
    }
}

fn add_verdict<S: Sink>(out: &mut Counted<'_, S>, holds: bool)
    ensures { Adds out.old out.new (codes "," ++ switch_json holds) }
{
    out.add(b",");
    add_switch(out, holds);
}

fn add_more_verdicts<S: Sink>(out: &mut Counted<'_, S>, verdicts: &[bool])
    ensures { Adds out.old out.new (rest_listed switch_json verdicts.now) }
{
    for holds in verdicts {
        add_verdict(out, *holds);
    }
}

fn add_first_verdict<S: Sink>(out: &mut Counted<'_, S>, holds: bool)
    ensures { Adds out.old out.new (codes "[" ++ switch_json holds) }
{
    out.add(b"[");
    add_switch(out, holds);
}

fn add_other_verdicts<S: Sink>(out: &mut Counted<'_, S>, others: &[bool])
    ensures { Adds out.old out.new (rest_listed switch_json others.now ++ codes "]") }
{
    add_more_verdicts(out, others);
    out.add(b"]");
}

fn add_verdicts<S: Sink>(out: &mut Counted<'_, S>, verdicts: &[bool])
    ensures { Adds out.old out.new (listed switch_json verdicts.now) }
{
    if let [holds, others @ ..] = verdicts {
        add_first_verdict(out, *holds);
        add_other_verdicts(out, others);
    } else {
        out.add(b"[]");
    }
}

fn add_value<S: Sink>(out: &mut Counted<'_, S>, value: &Value)
    ensures { Adds out.old out.new (value_json value.now) }
{
    match *value {
        Value::Nothing => out.add(b"null"),
        Value::One(piece) => add_piece(out, &piece),
        Value::String(text) => add_quoted(out, text),
        Value::List(_, pieces) => add_list(out, pieces),
        Value::Parts(_, parts) => add_parts(out, parts),
        Value::Outs(outs) => add_outs(out, outs),
        Value::Escaped(text) => add_quoted(out, text),
        Value::Stands(stands) => add_stands(out, stands),
        Value::Verdicts(verdicts) => add_verdicts(out, verdicts),
    }
}

fn add_named<S: Sink>(out: &mut Counted<'_, S>, name: &str, value: &Value)
    ensures { Adds out.old out.new (codes "," ++ named_json name.now (value_json value.now)) }
{
    out.add(b",");
    add_name(out, name);
    add_value(out, value);
}

#[tactic(auto, using(text_core::proofs::Adding::nothing))]
fn add_field<S: Sink>(out: &mut Counted<'_, S>, cell: &Cell)
    ensures { Adds out.old out.new (field_text (plain_of cell.now)) }
{
    match cell.shown {
        Shown::Line => {}
        Shown::Both | Shown::Object => add_named(out, cell.name, &cell.value),
    }
}

#[tactic(auto, using(text_core::proofs::Adding::nothing))]
fn add_each_field<S: Sink>(out: &mut Counted<'_, S>, cells: &[Cell])
    ensures { Adds out.old out.new (flat_map (λ c. field_text (plain_of c)) cells.now) }
{
    if let [cell, others @ ..] = cells {
        add_field(out, cell);
        add_each_field(out, others);
    }
}

fn add_cell_fields<S: Sink>(out: &mut Counted<'_, S>, cells: &[Cell])
    ensures { Adds out.old out.new (flat_map field_text (map plain_of cells.now)) }
{
    add_each_field(out, cells);
}

fn add_fields<S: Sink>(out: &mut Counted<'_, S>, cells: &[Cell], more: &[Cell])
    ensures { Adds out.old out.new (flat_map field_text (map plain_of cells.now ++ map plain_of more.now)) }
{
    add_cell_fields(out, cells);
    add_cell_fields(out, more);
}

/// Adds the object of cells and of more.
pub(crate) fn add_object<S: Sink>(
    out: &mut Counted<'_, S>,
    kind: &str,
    cells: &[Cell],
    more: &[Cell],
)
    ensures { Adds out.old out.new (object_of kind.now (map plain_of cells.now ++ map plain_of more.now)) }
{
    out.add(b"{\"line\":\"");
    add_words(out, true, cells, more);
    out.add_line(&[
        Piece::Text("\",\"type\":\""),
        Piece::Text(kind),
        Piece::Text("\""),
    ]);
    add_fields(out, cells, more);
    out.add(b"}\n");
}
