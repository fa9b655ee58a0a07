//! The line of a round, or its object.
ghost use Rattle.std.specs.Prelude.{◌≡◌, ◌≤◌, ◌++◌, ◌∷◌, [], codes, length, map};
ghost use Rattle.text_core.specs.Adds.{Adds};
ghost use Rattle.reading_record.specs.Reading.{reading_cells};
ghost use Rattle.record_core.specs.Cells.{both, value_of};
ghost use Rattle.record_core.specs.Records.{record_text};
ghost use Rattle.record_core.specs.Values.{out, pieces, string};
ghost use Rattle.room_trace.specs.Records.{item_value, out_value, outs_value, round_text};
ghost use Rattle.room_trace.specs.TraceText.{name_at};

use arrayvec::ArrayVec;
use device_core::Device;
use line_frames::Reading;
use line_rounds::{Loser, Outcome};
use reading_record::add_reading_with;
use record_core::{Form, Out, Value, cells};
use text_core::{Counted, Piece, Sink};

/// The most devices that send in a round.
const MOST: usize = 16;

fn name_of(devices: &[Device<16>], number: usize) -> &[u8]
    ensures { result.now ≡ name_at devices.now number }
{
    match devices.get(number) {
        Some(device) => device.name(),
        None => b"",
    }
}

fn name_piece<'a>(devices: &'a [Device<16>], number: usize) -> Piece<'a>
    ensures { item_value result ≡ string (name_at devices.now number) }
{
    Piece::Bytes(name_of(devices, number))
}

// The names of devices.
fn names_of<'a>(devices: &'a [Device<16>], numbers: &[usize]) -> ArrayVec<Piece<'a>, MOST>
    requires { length numbers.now ≤ 16 }
    ensures { map item_value result.items ≡ map (λ number. string (name_at devices.now number)) numbers.now }
{
    let mut names = ArrayVec::new();
    for number in numbers {
        names.push(name_piece(devices, *number));
    }
    names
}

// Devices that were out, each with its slot.
fn outs_of<'a>(devices: &'a [Device<16>], losers: &[Loser]) -> ArrayVec<Out<'a>, MOST>
    requires { length losers.now ≤ 16 }
    ensures { map out_value result.items ≡ map (λ loser. out (name_at devices.now loser.seat) loser.slot) losers.now }
{
    let mut outs = ArrayVec::new();
    for loser in losers {
        outs.push(Out {
            name: name_of(devices, loser.seat),
            slot: loser.slot as u64,
        });
    }
    outs
}

// Adds a round, from the names of those who sent to the end, and those who stopped.
fn add_seated<'a, S: Sink>(
    out: &mut Counted<'_, S>,
    form: Form,
    reading: &Reading,
    by: &'a [Piece<'a>],
    outs: &'a [Out<'a>],
)
    ensures { Adds out.old out.new (record_text form (codes "round") (reading_cells reading.now
        ++ (both (codes " by ") (codes "by") (pieces (codes ",") by.now) ∷ both (codes " out ") (codes "out") (outs_value outs.now) ∷ []))) }
{
    let seats = cells![
        both(" by ", "by", Value::List(",", by)),
        both(" out ", "out", Value::Outs(outs)),
    ];
    add_reading_with(out, form, "round", reading, &seats);
}

/// Adds the line of a round, or its object.
pub fn add_round<S: Sink>(
    out: &mut Counted<'_, S>,
    form: Form,
    devices: &[Device<16>],
    outcome: &Outcome,
)
    ensures { Adds out.old out.new (round_text form devices.now outcome.now) }
{
    let by = names_of(devices, &outcome.survivors);
    let outs = outs_of(devices, &outcome.losers);
    add_seated(out, form, &outcome.reading, &by, &outs);
}
