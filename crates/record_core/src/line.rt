//! The words of a record, as they stand in a line, and as they stand in a string.
ghost use Rattle.std.specs.Prelude.{◌++◌, codes, map};
ghost use Rattle.std.specs.Fmt.{decimal};
ghost use Rattle.std.specs.List.{flat_map};
ghost use Rattle.text_core.specs.Adds.{Adds};
ghost use Rattle.text_core.specs.Piece.{hex_or_dash, hex_text, piece_text};
ghost use Rattle.record_core.specs.Cells.{bit_text, bits_text, digits_text, joined, out_text, part_text, placed_text, plain_of, position_text, rest_joined, slot_text, stand_text, value_text, verdict_text};
ghost use Rattle.record_core.specs.Records.{as_text, line_of, said, word_text};
ghost use Rattle.record_core.specs.Strings.{escaped_byte, escaped_text};

use crate::cell::{Cell, Out, Part, Position, Shown, Stand, Value};
use crate::strings::add_chars;
use text_core::{Counted, Piece, Sink, hex_digit};

// Adds bytes, as they stand in a line or in a string.
fn add_bytes<S: Sink>(out: &mut Counted<'_, S>, quoted: bool, text: &[u8])
    ensures { Adds out.old out.new (as_text quoted text.now) }
{
    if quoted {
        add_chars(out, text);
    } else {
        out.add(text);
    }
}

fn add_number<S: Sink>(out: &mut Counted<'_, S>, quoted: bool, number: u64)
    ensures { Adds out.old out.new (as_text quoted (decimal number)) }
{
    let mut digits = itoa::Buffer::new();
    add_bytes(out, quoted, digits.format(number).as_bytes());
}

fn add_hex_byte<S: Sink>(out: &mut Counted<'_, S>, quoted: bool, byte: u8)
    ensures { Adds out.old out.new (as_text quoted (hex_text byte)) }
{
    add_bytes(out, quoted, &[hex_digit(byte / 16), hex_digit(byte % 16)]);
}

#[tactic(auto, using(crate::proofs::Plain::none_as))]
fn add_hex<S: Sink>(out: &mut Counted<'_, S>, quoted: bool, bytes: &[u8])
    ensures { Adds out.old out.new (as_text quoted (flat_map hex_text bytes.now)) }
{
    if let [byte, others @ ..] = bytes {
        add_hex_byte(out, quoted, *byte);
        add_hex(out, quoted, others);
    }
}

fn add_hex_or_dash<S: Sink>(out: &mut Counted<'_, S>, quoted: bool, bytes: &[u8])
    ensures { Adds out.old out.new (as_text quoted (hex_or_dash bytes.now)) }
{
    match bytes {
        [] => add_bytes(out, quoted, b"-"),
        _ => add_hex(out, quoted, bytes),
    }
}

// Adds the text of a part, as a string has it.
fn add_piece<S: Sink>(out: &mut Counted<'_, S>, quoted: bool, piece: &Piece)
    ensures { Adds out.old out.new (as_text quoted (piece_text piece.now)) }
{
    match *piece {
        Piece::Text(text) => add_bytes(out, quoted, text.as_bytes()),
        Piece::Bytes(bytes) => add_bytes(out, quoted, bytes),
        Piece::Decimal(number) | Piece::DecimalOrDash(Some(number)) => add_number(
            out, quoted, number,
        ),
        Piece::Nibble(nibble) | Piece::NibbleOrDash(Some(nibble)) => {
            add_bytes(out, quoted, &[hex_digit(nibble % 16)]);
        }
        Piece::HexByte(byte) | Piece::HexByteOrDash(Some(byte)) => add_hex_byte(out, quoted, byte),
        Piece::Phys(phys) | Piece::PhysOrDash(Some(phys)) => add_bytes(out, quoted, &phys.text()),
        Piece::Switch(true) => add_bytes(out, quoted, b"on"),
        Piece::Switch(false) => add_bytes(out, quoted, b"off"),
        Piece::Hex(bytes) => add_hex(out, quoted, bytes),
        Piece::HexOrDash(bytes) => add_hex_or_dash(out, quoted, bytes),
        Piece::PhysOrDash(None)
        | Piece::DecimalOrDash(None)
        | Piece::NibbleOrDash(None)
        | Piece::HexByteOrDash(None) => add_bytes(out, quoted, b"-"),
    }
}

// Adds one part with what stands before it.
#[tactic(auto, using(crate::proofs::Plain::then_as))]
fn add_led_piece<'a, S: Sink>(
    out: &mut Counted<'_, S>,
    quoted: bool,
    lead: &'a str,
    piece: &Piece<'a>,
)
    ensures { Adds out.old out.new (as_text quoted (lead.now ++ piece_text piece.now)) }
{
    add_bytes(out, quoted, lead.as_bytes());
    add_piece(out, quoted, piece);
}

// Adds the words after the first, each with the sign before it.
#[tactic(auto, using(crate::proofs::Plain::none_as))]
fn add_more<'a, S: Sink>(
    out: &mut Counted<'_, S>,
    quoted: bool,
    sign: &'a str,
    pieces: &[Piece<'a>],
)
    ensures { Adds out.old out.new (as_text quoted (rest_joined piece_text sign.now pieces.now)) }
{
    if let [piece, others @ ..] = pieces {
        add_led_piece(out, quoted, sign, piece);
        add_more(out, quoted, sign, others);
    }
}

fn add_joined<'a, S: Sink>(
    out: &mut Counted<'_, S>,
    quoted: bool,
    sign: &'a str,
    pieces: &[Piece<'a>],
)
    ensures { Adds out.old out.new (as_text quoted (joined piece_text sign.now pieces.now)) }
{
    if let [piece, others @ ..] = pieces {
        add_led_piece(out, quoted, "", piece);
        add_more(out, quoted, sign, others);
    } else {
        add_bytes(out, quoted, b"-");
    }
}

// Adds one part with what stands before it.
fn add_led_part<'a, S: Sink>(out: &mut Counted<'_, S>, quoted: bool, lead: &'a str, part: &Part<'a>)
    ensures { Adds out.old out.new (as_text quoted (lead.now ++ part_text part.now)) }
{
    add_led_piece(out, quoted, lead, &part.piece);
}

// Adds the parts after the first, each with the sign before it.
#[tactic(auto, using(crate::proofs::Plain::none_as))]
fn add_more_parts<'a, S: Sink>(
    out: &mut Counted<'_, S>,
    quoted: bool,
    sign: &'a str,
    parts: &[Part<'a>],
)
    ensures { Adds out.old out.new (as_text quoted (rest_joined part_text sign.now parts.now)) }
{
    if let [part, others @ ..] = parts {
        add_led_part(out, quoted, sign, part);
        add_more_parts(out, quoted, sign, others);
    }
}

fn add_parts<'a, S: Sink>(out: &mut Counted<'_, S>, quoted: bool, sign: &'a str, parts: &[Part<'a>])
    ensures { Adds out.old out.new (as_text quoted (joined part_text sign.now parts.now)) }
{
    if let [part, others @ ..] = parts {
        add_led_part(out, quoted, "", part);
        add_more_parts(out, quoted, sign, others);
    } else {
        add_bytes(out, quoted, b"-");
    }
}

#[tactic(auto, using(crate::proofs::Plain::then_as))]
fn add_slot<S: Sink>(out: &mut Counted<'_, S>, quoted: bool, slot: u64)
    ensures { Adds out.old out.new (as_text quoted (codes "@" ++ decimal slot)) }
{
    add_bytes(out, quoted, b"@");
    add_number(out, quoted, slot);
}

#[tactic(auto, using(crate::proofs::Plain::then_as))]
fn add_one_out<S: Sink>(out: &mut Counted<'_, S>, quoted: bool, one: &Out)
    ensures { Adds out.old out.new (as_text quoted (out_text one.now)) }
{
    add_bytes(out, quoted, one.name);
    add_slot(out, quoted, one.slot);
}

#[tactic(auto, using(crate::proofs::Plain::then_as))]
fn add_out<'a, S: Sink>(out: &mut Counted<'_, S>, quoted: bool, sign: &'a str, one: &Out<'a>)
    ensures { Adds out.old out.new (as_text quoted (sign.now ++ out_text one.now)) }
{
    add_bytes(out, quoted, sign.as_bytes());
    add_one_out(out, quoted, one);
}

#[tactic(auto, using(crate::proofs::Plain::none_as))]
fn add_more_outs<S: Sink>(out: &mut Counted<'_, S>, quoted: bool, outs: &[Out])
    ensures { Adds out.old out.new (as_text quoted (rest_joined out_text (codes ",") outs.now)) }
{
    if let [one, others @ ..] = outs {
        add_out(out, quoted, ",", one);
        add_more_outs(out, quoted, others);
    }
}

fn add_outs<S: Sink>(out: &mut Counted<'_, S>, quoted: bool, outs: &[Out])
    ensures { Adds out.old out.new (as_text quoted (joined out_text (codes ",") outs.now)) }
{
    if let [one, others @ ..] = outs {
        add_out(out, quoted, "", one);
        add_more_outs(out, quoted, others);
    } else {
        add_bytes(out, quoted, b"-");
    }
}

fn add_escaped_byte<S: Sink>(out: &mut Counted<'_, S>, quoted: bool, byte: u8)
    ensures { Adds out.old out.new (as_text quoted (escaped_byte byte)) }
{
    if byte == b'#' || byte == b'\\' {
        add_bytes(out, quoted, &[b'\\', byte]);
    } else {
        add_bytes(out, quoted, &[byte]);
    }
}

fn add_escaped<S: Sink>(out: &mut Counted<'_, S>, quoted: bool, text: &[u8])
    ensures { Adds out.old out.new (as_text quoted (escaped_text text.now)) }
{
    for byte in text {
        add_escaped_byte(out, quoted, *byte);
    }
}

fn add_bit<S: Sink>(out: &mut Counted<'_, S>, quoted: bool, bit: bool)
    ensures { Adds out.old out.new (as_text quoted (bit_text bit)) }
{
    if bit {
        add_bytes(out, quoted, b"1");
    } else {
        add_bytes(out, quoted, b"0");
    }
}

fn add_digits<S: Sink>(out: &mut Counted<'_, S>, quoted: bool, bits: &[bool])
    ensures { Adds out.old out.new (as_text quoted (digits_text bits.now)) }
{
    for bit in bits {
        add_bit(out, quoted, *bit);
    }
}

fn add_bits<S: Sink>(out: &mut Counted<'_, S>, quoted: bool, bits: &[bool])
    ensures { Adds out.old out.new (as_text quoted (bits_text bits.now)) }
{
    match bits {
        [] => add_bytes(out, quoted, b"-"),
        _ => add_digits(out, quoted, bits),
    }
}

#[tactic(auto, using(crate::proofs::Plain::then_as))]
fn add_slot_number<S: Sink>(out: &mut Counted<'_, S>, quoted: bool, slot: u64)
    ensures { Adds out.old out.new (as_text quoted (codes "slot:" ++ decimal slot)) }
{
    add_bytes(out, quoted, b"slot:");
    add_number(out, quoted, slot);
}

#[tactic(auto, using(crate::proofs::Plain::then_as))]
fn add_slot_bits<S: Sink>(out: &mut Counted<'_, S>, quoted: bool, bits: &[bool])
    ensures { Adds out.old out.new (as_text quoted (codes ":" ++ bits_text bits.now)) }
{
    add_bytes(out, quoted, b":");
    add_bits(out, quoted, bits);
}

#[tactic(auto, using(crate::proofs::Plain::then_as))]
fn add_in_slot<S: Sink>(out: &mut Counted<'_, S>, quoted: bool, slot: u64, bits: &[bool])
    ensures { Adds out.old out.new (as_text quoted (slot_text slot bits.now)) }
{
    add_slot_number(out, quoted, slot);
    add_slot_bits(out, quoted, bits);
}

fn add_position<S: Sink>(out: &mut Counted<'_, S>, quoted: bool, position: Position)
    ensures { Adds out.old out.new (as_text quoted (position_text position.entry)) }
{
    match position {
        Position::Named(word) => add_bytes(out, quoted, word.as_bytes()),
        Position::Slot(slot, bits) => add_in_slot(out, quoted, slot, bits),
    }
}

#[tactic(auto, using(crate::proofs::Plain::then_as))]
fn add_device<S: Sink>(out: &mut Counted<'_, S>, quoted: bool, name: &[u8])
    ensures { Adds out.old out.new (as_text quoted (codes " " ++ name.now)) }
{
    add_bytes(out, quoted, b" ");
    add_bytes(out, quoted, name);
}

#[tactic(auto, using(crate::proofs::Plain::then_as))]
fn add_place<S: Sink>(out: &mut Counted<'_, S>, quoted: bool, position: Position)
    ensures { Adds out.old out.new (as_text quoted (codes "=" ++ position_text position.entry)) }
{
    add_bytes(out, quoted, b"=");
    add_position(out, quoted, position);
}

// Adds a device after a space, with where it stands.
#[tactic(auto, using(crate::proofs::Plain::then_as))]
fn add_stand<S: Sink>(out: &mut Counted<'_, S>, quoted: bool, stand: &Stand)
    ensures { Adds out.old out.new (as_text quoted (stand_text stand.now)) }
{
    add_device(out, quoted, stand.name);
    add_place(out, quoted, stand.position);
}

#[tactic(auto, using(crate::proofs::Plain::none_as))]
fn add_stands<S: Sink>(out: &mut Counted<'_, S>, quoted: bool, stands: &[Stand])
    ensures { Adds out.old out.new (as_text quoted (flat_map stand_text stands.now)) }
{
    if let [stand, others @ ..] = stands {
        add_stand(out, quoted, stand);
        add_stands(out, quoted, others);
    }
}

fn add_verdict<S: Sink>(out: &mut Counted<'_, S>, quoted: bool, holds: bool)
    ensures { Adds out.old out.new (as_text quoted (verdict_text holds)) }
{
    if holds {
        add_bytes(out, quoted, b" ok");
    } else {
        add_bytes(out, quoted, b" not-ok");
    }
}

fn add_verdicts<S: Sink>(out: &mut Counted<'_, S>, quoted: bool, verdicts: &[bool])
    ensures { Adds out.old out.new (as_text quoted (flat_map verdict_text verdicts.now)) }
{
    for holds in verdicts {
        add_verdict(out, quoted, *holds);
    }
}

// Adds what stands before a value, and the value.
#[tactic(auto, using(crate::proofs::Plain::alone_as, crate::proofs::Plain::then_as))]
fn add_led<'a, S: Sink>(out: &mut Counted<'_, S>, quoted: bool, lead: &'a str, value: &Value<'a>)
    ensures { Adds out.old out.new (as_text quoted (lead.now ++ value_text value.now)) }
{
    match *value {
        Value::Nothing => add_bytes(out, quoted, lead.as_bytes()),
        Value::One(piece) => add_led_piece(out, quoted, lead, &piece),
        Value::String(text) => add_led_piece(out, quoted, lead, &Piece::Bytes(text)),
        Value::List(sign, pieces) => {
            add_bytes(out, quoted, lead.as_bytes());
            add_joined(out, quoted, sign, pieces);
        }
        Value::Parts(sign, parts) => {
            add_bytes(out, quoted, lead.as_bytes());
            add_parts(out, quoted, sign, parts);
        }
        Value::Outs(outs) => {
            add_bytes(out, quoted, lead.as_bytes());
            add_outs(out, quoted, outs);
        }
        Value::Escaped(text) => {
            add_bytes(out, quoted, lead.as_bytes());
            add_escaped(out, quoted, text);
        }
        Value::Stands(stands) => {
            add_bytes(out, quoted, lead.as_bytes());
            add_stands(out, quoted, stands);
        }
        Value::Verdicts(verdicts) => {
            add_bytes(out, quoted, lead.as_bytes());
            add_verdicts(out, quoted, verdicts);
        }
    }
}

#[tactic(auto, using(crate::proofs::Plain::alone_as))]
fn add_word<S: Sink>(out: &mut Counted<'_, S>, quoted: bool, cell: &Cell)
    ensures { Adds out.old out.new (as_text quoted (word_text (plain_of cell.now))) }
{
    match cell.shown {
        Shown::Object => add_bytes(out, quoted, cell.lead.as_bytes()),
        Shown::Both | Shown::Line => add_led(out, quoted, cell.lead, &cell.value),
    }
}

#[tactic(auto, using(crate::proofs::Plain::none_as))]
fn add_each_word<S: Sink>(out: &mut Counted<'_, S>, quoted: bool, cells: &[Cell])
    ensures { Adds out.old out.new (as_text quoted (flat_map (λ c. word_text (plain_of c)) cells.now)) }
{
    if let [cell, others @ ..] = cells {
        add_word(out, quoted, cell);
        add_each_word(out, quoted, others);
    }
}

fn add_cell_words<S: Sink>(out: &mut Counted<'_, S>, quoted: bool, cells: &[Cell])
    ensures { Adds out.old out.new (as_text quoted (said (map plain_of cells.now))) }
{
    add_each_word(out, quoted, cells);
}

/// Adds the words of cells and of more, as they stand in a line or in a string.
pub(crate) fn add_words<S: Sink>(
    out: &mut Counted<'_, S>,
    quoted: bool,
    cells: &[Cell],
    more: &[Cell],
)
    ensures { Adds out.old out.new (as_text quoted (said (map plain_of cells.now ++ map plain_of more.now))) }
{
    add_cell_words(out, quoted, cells);
    add_cell_words(out, quoted, more);
}

/// Adds the line of cells and of more.
#[tactic(auto, using(text_core::proofs::Adding::then))]
pub(crate) fn add_line<S: Sink>(out: &mut Counted<'_, S>, cells: &[Cell], more: &[Cell])
    ensures { Adds out.old out.new (line_of (map plain_of cells.now ++ map plain_of more.now)) }
{
    add_words(out, false, cells, more);
    out.add(b"\n");
}
