//! What a driver of devices from outside is told of a turn besides its line, or its objects.
ghost use Rattle.std.specs.Prelude.{◌≡◌, ◌+◌, ◌==◌, ◌≤◌, codes, false, length, slice_index_or};
ghost use Rattle.std.specs.List.{list_any};
ghost use Rattle.text_core.specs.Adds.{Adds};
ghost use Rattle.record_core.specs.Records.{record_text};
ghost use Rattle.device_core.specs.Place.{is_on_wire};
ghost use Rattle.room_trace.specs.StateText.{phys_on};
ghost use Rattle.room_trace.specs.Notes.{fate_word, has_moved, moved_cells, moved_note, moved_notes, sent_cells, sent_note, sent_note_of, sent_notes, took_part};

use device_core::{Device, Fate, Sent};
use line_rounds::{Loser, Outcome};
use record_core::{Form, Value, add_record, cells};
use text_core::{Counted, Phys, Piece, Sink};

fn fate_word(fate: Fate) -> &'static str
    ensures { result.now ≡ fate_word fate }
{
    match fate {
        Fate::Delivered => "ack",
        Fate::Unacked => "nack",
        Fate::Lost => "lost",
        Fate::Broken => "broken",
    }
}

fn add_sent_as<'a, S: Sink>(
    out: &mut Counted<'_, S>,
    form: Form,
    line: u64,
    fate: &'a str,
    attempts: u8,
)
    ensures { Adds out.old out.new (record_text form (codes "sent") (sent_cells line fate.now attempts)) }
{
    let cells = cells![
        both("* sent ", "script_line", Value::One(Piece::Decimal(line))),
        both(" ", "fate", Value::One(Piece::Text(fate))),
        both(" ", "attempts", Value::One(Piece::Decimal(attempts as u64))),
    ];
    add_record(out, form, "sent", &cells);
}

// Adds what became of a frame that was handed in, where it is over.
#[tactic(auto, using(text_core::proofs::Adding::nothing))]
fn add_sent<S: Sink>(out: &mut Counted<'_, S>, form: Form, sent: Option<Sent>)
    ensures { Adds out.old out.new (sent_note form sent) }
{
    let Some(sent) = sent else {
        return;
    };
    add_sent_as(out, form, sent.line, fate_word(sent.fate), sent.attempts);
}

fn is_among(seats: &[usize], number: usize) -> bool
    ensures { result ≡ list_any (λ seat. seat == number) seats.now }
{
    seats.iter().any(|seat| *seat == number)
}

fn is_loser(losers: &[Loser], number: usize) -> bool
    ensures { result ≡ list_any (λ loser. loser.seat == number) losers.now }
{
    losers.iter().any(|loser| loser.seat == number)
}

// Whether the device of this number sent in a round, to the end or not.
fn took_part(outcome: &Outcome, number: usize) -> bool
    ensures { result ≡ took_part outcome.now number }
{
    is_among(outcome.survivors.as_slice(), number) || is_loser(outcome.losers.as_slice(), number)
}

#[tactic(auto, using(text_core::proofs::Adding::nothing))]
fn add_sent_of<S: Sink>(
    out: &mut Counted<'_, S>,
    form: Form,
    outcome: &Outcome,
    number: usize,
    device: &Device<16>,
)
    ensures { Adds out.old out.new (sent_note_of form outcome.now number device.now) }
{
    if took_part(outcome, number) {
        add_sent(out, form, device.sent_of(outcome.fate(number)));
    }
}

/// Adds what became of the frames that were handed in and are over by a round, by the devices before it, the first of which has
/// this number.
#[tactic(auto, using(text_core::proofs::Adding::nothing))]
pub fn add_sent_notes<S: Sink>(
    out: &mut Counted<'_, S>,
    form: Form,
    outcome: &Outcome,
    number: usize,
    devices: &[Device<16>],
)
    requires few { number + length devices.now ≤ 18446744073709551615 }
    ensures { Adds out.old out.new (sent_notes form outcome.now number devices.now) }
{
    let [device, others @ ..] = devices else {
        return;
    };
    add_sent_of(out, form, outcome, number, device);
    add_sent_notes(out, form, outcome, number + 1, others);
}

fn has_moved(was: bool, device: &Device<16>) -> bool
    ensures { result ≡ has_moved was device.now }
{
    if was == device.is_on_wire() {
        false
    } else {
        device.kind().is_outside()
    }
}

fn phys_on_wire(device: &Device<16>) -> Option<Phys>
    ensures { result ≡ phys_on (is_on_wire device.now) device.now.phys }
{
    if device.is_on_wire() {
        Some(device.phys())
    } else {
        None
    }
}

fn add_moved_to<'a, S: Sink>(
    out: &mut Counted<'_, S>,
    form: Form,
    name: &'a [u8],
    phys: Option<Phys>,
)
    ensures { Adds out.old out.new (record_text form (codes "moved") (moved_cells name.now phys)) }
{
    let cells = cells![
        both("* moved ", "device", Value::One(Piece::Bytes(name))),
        both(" ", "physical_address", Value::One(Piece::PhysOrDash(phys))),
    ];
    add_record(out, form, "moved", &cells);
}

#[tactic(auto, using(text_core::proofs::Adding::nothing))]
fn add_moved<S: Sink>(out: &mut Counted<'_, S>, form: Form, was: bool, device: &Device<16>)
    ensures { Adds out.old out.new (moved_note form was device.now) }
{
    if has_moved(was, device) {
        add_moved_to(out, form, device.name(), phys_on_wire(device));
    }
}

fn was_on(was: &[bool], number: usize) -> bool
    ensures { result ≡ slice_index_or was.now number false }
{
    match was.get(number) {
        None => false,
        Some(was) => *was,
    }
}

/// Adds where devices from outside came onto the wire or left it by an event, by the devices after it, the first of which has this
/// number, and by which of all were on the wire before it.
#[tactic(auto, using(text_core::proofs::Adding::nothing))]
pub fn add_moved_notes<S: Sink>(
    out: &mut Counted<'_, S>,
    form: Form,
    was: &[bool],
    number: usize,
    devices: &[Device<16>],
)
    requires few { number + length devices.now ≤ 18446744073709551615 }
    ensures { Adds out.old out.new (moved_notes form (λ device. slice_index_or was.now device false) number devices.now) }
{
    let [device, others @ ..] = devices else {
        return;
    };
    add_moved(out, form, was_on(was, number), device);
    add_moved_notes(out, form, was, number + 1, others);
}
