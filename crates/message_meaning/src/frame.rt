//! The record of a frame.
ghost use Rattle.std.specs.Prelude.{◌≡◌, codes, drop, option_and_then, option_copied, slice_get};
ghost use Rattle.message_meaning.specs.Records.{frame_record, known_cells, word_lead, word_value};
ghost use Rattle.message_table.specs.Table.{name_of};
ghost use Rattle.record_core.specs.Cells.{value_of};
ghost use Rattle.record_core.specs.Records.{record_text};
ghost use Rattle.text_core.specs.Adds.{Adds};

use line_frames::Frame;
use message_hex::remark;
use message_table::name;
use message_text::frame_text;
use record_core::{Form, Value, add_record, cells};
use text_core::{Counted, Piece, Sink};

// A word that may not be there.
fn word_value(word: Option<&'static str>) -> Value<'static>
    ensures { value_of result ≡ word_value (option_copied word.entry) }
{
    match word {
        None => Value::Nothing,
        Some(word) => Value::One(Piece::Text(word)),
    }
}

// What stands before the standard's word for what the text of a frame leaves as bytes.
fn word_lead(word: Option<&'static str>) -> &'static str
    ensures { result.now ≡ word_lead (option_copied word.entry) }
{
    match word {
        None => "",
        Some(_) => " # ",
    }
}

// The opcode of a frame.
fn opcode(frame: &Frame) -> Option<u8>
    ensures { result ≡ slice_get frame.now 1 }
{
    frame.bytes().get(1).copied()
}

fn name_in(opcode: Option<u8>) -> Option<&'static str>
    ensures { option_copied result ≡ option_and_then name_of opcode }
{
    match opcode {
        None => None,
        Some(opcode) => name(opcode),
    }
}

fn operands(frame: &Frame) -> &[u8]
    ensures { result.now ≡ drop 2 frame.now }
{
    match frame.bytes() {
        [_, _, operands @ ..] => operands,
        _ => &[],
    }
}

// Adds the record of what is known of a frame.
fn add_known<'a, S: Sink>(
    out: &mut Counted<'_, S>,
    form: Form,
    text: &'a [u8],
    lead: &'a str,
    word: Value<'a>,
    initiator: u8,
    destination: u8,
    opcode: Option<u8>,
    name: Value<'a>,
    operands: &'a [u8],
    bytes: &'a [u8],
)
    ensures { Adds out.old out.new (record_text form (codes "frame") (known_cells text.now lead.now (value_of word.entry) initiator destination opcode (value_of name.entry) operands.now bytes.now)) }
{
    let cells = cells![
        both("", "frame", Value::One(Piece::Bytes(text))),
        both(lead, "word", word),
        hidden("initiator", Value::One(Piece::Nibble(initiator))),
        hidden("destination", Value::One(Piece::Nibble(destination))),
        hidden("opcode", Value::One(Piece::HexByteOrDash(opcode))),
        hidden("name", name),
        hidden("operands", Value::One(Piece::HexOrDash(operands))),
        hidden("bytes", Value::One(Piece::Hex(bytes))),
    ];
    add_record(out, form, "frame", &cells);
}

/// Adds the record of a frame: its text, with the standard's word for what the text leaves as bytes; its addresses, its opcode with
/// the opcode's name, its operands and all its bytes.
pub fn add_frame<S: Sink>(out: &mut Counted<'_, S>, form: Form, frame: &Frame)
    ensures { Adds out.old out.new (frame_record form frame.now) }
{
    let text = frame_text(frame);
    let word = remark(frame);
    let opcode = opcode(frame);
    add_known(
        out,
        form,
        text.as_slice(),
        word_lead(word),
        word_value(word),
        frame.initiator().value(),
        frame.destination().value(),
        opcode,
        word_value(name_in(opcode)),
        operands(frame),
        frame.bytes(),
    );
}
