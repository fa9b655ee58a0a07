//! A frame in plain words.
ghost use Rattle.std.specs.Prelude.{◌≡◌, option_copied, option_map};
ghost use Rattle.message_meaning.specs.Meaning.{after_word, closing, is_own_poll, joint_of, opening, refused_name, remark_lead, remark_word, word};
ghost use Rattle.message_meaning.specs.Records.{clause_by, clause_of, meaning_record, meant_by, message_cells, other_poll, other_poll_cells, own_poll_cells, plain_clause, poll_cells, said_cells, told_cells, unread_cells, unread_words, worded_cells};
ghost use Rattle.message_meaning.specs.Sentences.{sentence_in_code};
ghost use Rattle.text_core.specs.Adds.{Adds};

use crate::addresses::{receiver, sender};
use crate::sentences::{Sentence, sentence_for};
use line_frames::Frame;
use message_hex::remark;
use message_table::name;
use message_text::frame_text;
use record_core::{Form, Value, add_record, cells};
use text_core::{Counted, Piece, Sink, after, before, len_before};

/// Feature Abort, whose first operand is an opcode (CEC 15).
const FEATURE_ABORT: u8 = 0x00;

// The first word of a text.
fn word(text: &[u8]) -> &[u8]
    ensures { result.now ≡ word text.now }
{
    before(text, len_before(text, b' '))
}

// What stands after it and the space after it.
fn after_word(text: &[u8]) -> &[u8]
    ensures { result.now ≡ after_word text.now }
{
    after(text, len_before(text, b' ') + 1)
}

/// Who asks, tells or sends, which of these, to whom, and what.
#[derive(Clone, Copy)]
struct Clause<'a> {
    sender: &'a str,
    verb: &'a str,
    receiver: &'a str,
    text: &'a [u8],
}

// What the sender of a header says to its receiver.
fn says<'a>(header: u8, verb: &'a str, text: &'a [u8]) -> Clause<'a>
    ensures { plain_clause result ≡ clause_by header verb.now text.now }
{
    Clause {
        sender: sender(header),
        verb,
        receiver: receiver(header),
        text,
    }
}

// What a message is for: of an opcode without a name, that it is sent.
fn clause_of<'a>(header: u8, sentence: &Option<Sentence>, name: &'a [u8]) -> Clause<'a>
    ensures { plain_clause result ≡ clause_of header (option_map sentence_in_code sentence.now) name.now }
{
    match sentence {
        None => says(header, "sends", name),
        Some(sentence) => says(header, sentence.verb, sentence.text.as_bytes()),
    }
}

// What stands before the other words, where there are any.
fn joint_of(joint: &'static str, rest: &[u8]) -> &'static str
    ensures { result.now ≡ joint_of joint.now rest.now }
{
    if rest.is_empty() { "" } else { joint }
}

// The words of the operands, after the lead.
fn add_told<'a, S: Sink>(
    out: &mut Counted<'_, S>,
    form: Form,
    clause: Clause<'a>,
    lead: &'a str,
    first: &'a [u8],
    joint: &'a str,
    rest: &'a [u8],
)
    ensures { Adds out.old out.new (meant_by form (told_cells (plain_clause clause.entry) lead.now first.now joint.now rest.now)) }
{
    let cells = cells![
        both("  ", "sender", Value::One(Piece::Text(clause.sender))),
        both(" ", "verb", Value::One(Piece::Text(clause.verb))),
        both(" ", "receiver", Value::One(Piece::Text(clause.receiver))),
        both(" ", "text", Value::One(Piece::Bytes(clause.text))),
        both(lead, "operand", Value::One(Piece::Bytes(first))),
        both(joint, "others", Value::One(Piece::Bytes(rest))),
        hidden("word", Value::Nothing),
        hidden("operands", Value::Nothing),
    ];
    add_record(out, form, "meaning", &cells);
}

// The name of the opcode that an operand is, if it has one.
fn refused_name(opcode: u8, operands: &[u8]) -> Option<&'static str>
    ensures { option_copied result ≡ refused_name opcode operands.now }
{
    if opcode != FEATURE_ABORT {
        return None;
    }
    match operands.first() {
        None => None,
        Some(refused) => name(*refused),
    }
}

// What the words of the operands say.
fn add_words<S: Sink>(
    out: &mut Counted<'_, S>,
    form: Form,
    clause: Clause<'_>,
    sentence: &Sentence,
    opcode: u8,
    operands: &[u8],
    said: &[u8],
)
    ensures { Adds out.old out.new (meant_by form (worded_cells (plain_clause clause.entry) (sentence_in_code sentence.now) opcode operands.now said.now)) }
{
    let rest = after_word(said);
    let joint = joint_of(sentence.joint, rest);
    match refused_name(opcode, operands) {
        None => add_told(out, form, clause, sentence.lead, word(said), joint, rest),
        Some(name) => add_told(
            out,
            form,
            clause,
            sentence.lead,
            name.as_bytes(),
            joint,
            rest,
        ),
    }
}

fn remark_lead(word: &Option<&'static str>) -> &'static str
    ensures { result.now ≡ remark_lead (option_copied word.now) }
{
    match word {
        None => "",
        Some(_) => ": ",
    }
}

fn remark_word(word: &Option<&'static str>) -> &'static str
    ensures { result.now ≡ remark_word (option_copied word.now) }
{
    match word {
        None => "",
        Some(word) => word,
    }
}

fn opening(hex: &[u8]) -> &'static str
    ensures { result.now ≡ opening hex.now }
{
    if hex.is_empty() { "" } else { " (operands " }
}

fn closing(hex: &[u8]) -> &'static str
    ensures { result.now ≡ closing hex.now }
{
    if hex.is_empty() { "" } else { ")" }
}

// Operands that the text leaves as bytes, with the standard's word for them, each after what stands before it.
fn add_unread_words<'a, S: Sink>(
    out: &mut Counted<'_, S>,
    form: Form,
    clause: Clause<'a>,
    lead: &'a str,
    word: &'a str,
    opening: &'a str,
    hex: &'a [u8],
    closing: &'a str,
)
    ensures { Adds out.old out.new (meant_by form (unread_words (plain_clause clause.entry) lead.now word.now opening.now hex.now closing.now)) }
{
    let cells = cells![
        both("  ", "sender", Value::One(Piece::Text(clause.sender))),
        both(" ", "verb", Value::One(Piece::Text(clause.verb))),
        both(" ", "receiver", Value::One(Piece::Text(clause.receiver))),
        both(" ", "text", Value::One(Piece::Bytes(clause.text))),
        hidden("operand", Value::Nothing),
        hidden("others", Value::Nothing),
        both(lead, "word", Value::One(Piece::Text(word))),
        both(opening, "operands", Value::One(Piece::Bytes(hex))),
        line(closing, Value::Nothing),
    ];
    add_record(out, form, "meaning", &cells);
}

// The same, where the standard has a word for them.
fn add_unread<'a, S: Sink>(
    out: &mut Counted<'_, S>,
    form: Form,
    clause: Clause<'a>,
    word: &'a Option<&'static str>,
    hex: &'a [u8],
)
    ensures { Adds out.old out.new (meant_by form (unread_cells (plain_clause clause.entry) (option_copied word.now) hex.now)) }
{
    add_unread_words(
        out,
        form,
        clause,
        remark_lead(word),
        remark_word(word),
        opening(hex),
        hex,
        closing(hex),
    )
}

// What the operands say, as the text of the frame has them.
fn add_said<S: Sink>(
    out: &mut Counted<'_, S>,
    form: Form,
    clause: Clause<'_>,
    sentence: &Option<Sentence>,
    frame: &Frame,
    said: &[u8],
)
    ensures { Adds out.old out.new (meant_by form (said_cells (plain_clause clause.entry) (option_map sentence_in_code sentence.now) frame.now said.now)) }
{
    match (said, sentence, frame.bytes()) {
        ([b':', hex @ ..], _, _) => add_unread(out, form, clause, &remark(frame), hex),
        ([_, ..], Some(sentence), [_, opcode, operands @ ..]) => {
            add_words(out, form, clause, sentence, *opcode, operands, said)
        }
        _ => add_told(out, form, clause, "", said, "", b""),
    }
}

// Whether a poll goes to the address that it comes from.
fn is_own_poll(header: u8) -> bool
    ensures { result ≡ is_own_poll header }
{
    header / 16 == header % 16
}

// A poll for an address to take (CEC 10.2.1), by the name of the device at it.
fn add_own_poll<S: Sink>(out: &mut Counted<'_, S>, form: Form, name: &'static str)
    ensures { Adds out.old out.new (meant_by form (own_poll_cells name.now)) }
{
    let cells = cells![
        hidden("sender", Value::Nothing),
        hidden("verb", Value::Nothing),
        hidden("receiver", Value::Nothing),
        both(
            "  a device asks whether it may be ",
            "text",
            Value::One(Piece::Text(name))
        ),
        hidden("operand", Value::Nothing),
        hidden("others", Value::Nothing),
        hidden("word", Value::Nothing),
        hidden("operands", Value::Nothing),
    ];
    add_record(out, form, "meaning", &cells);
}

// A poll of another device.
fn other_poll(header: u8) -> Clause<'static>
    ensures { plain_clause result ≡ other_poll header }
{
    says(header, "asks", b"to acknowledge")
}

fn add_other_poll<S: Sink>(out: &mut Counted<'_, S>, form: Form, header: u8)
    ensures { Adds out.old out.new (meant_by form (other_poll_cells header)) }
{
    add_told(out, form, other_poll(header), "", b"", "", b"")
}

// What a poll asks.
fn add_poll<S: Sink>(out: &mut Counted<'_, S>, form: Form, header: u8)
    ensures { Adds out.old out.new (meant_by form (poll_cells header)) }
{
    if is_own_poll(header) {
        add_own_poll(out, form, sender(header))
    } else {
        add_other_poll(out, form, header)
    }
}

// What a message says.
fn add_message<S: Sink>(
    out: &mut Counted<'_, S>,
    form: Form,
    header: u8,
    sentence: &Option<Sentence>,
    frame: &Frame,
    rest: &[u8],
)
    ensures { Adds out.old out.new (meant_by form (message_cells header (option_map sentence_in_code sentence.now) frame.now rest.now)) }
{
    let clause = clause_of(header, sentence, word(rest));
    add_said(out, form, clause, sentence, frame, after_word(rest))
}

/// Adds the record of what a frame means: who asks, tells or sends what to whom, and what its operands say.
#[tactic(auto, using(text_core::proofs::Adding::nothing))]
pub fn add_meaning<S: Sink>(out: &mut Counted<'_, S>, form: Form, frame: &Frame)
    ensures { Adds out.old out.new (meaning_record form frame.now) }
{
    match frame.bytes() {
        [header, opcode, operands @ ..] => add_message(
            out,
            form,
            *header,
            &sentence_for(*opcode, operands),
            frame,
            after_word(&frame_text(frame)),
        ),
        [header] => add_poll(out, form, *header),
        [] => {}
    }
}
