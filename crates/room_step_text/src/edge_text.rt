//! The line of an edge, or its object.
ghost use Rattle.std.specs.Prelude.{◌≡◌, ◌+◌, ◌<◌, ◌≤◌, ◌++◌, codes, length, map};
ghost use Rattle.std.specs.List.{flat_map};
ghost use Rattle.line_reading.specs.Follows.{standing_by_code};
ghost use Rattle.record_core.specs.Records.{record_text};
ghost use Rattle.text_core.specs.Adds.{Adds};
ghost use Rattle.text_core.specs.Cut.{WrittenText};
ghost use Rattle.room_step_text.specs.EdgeText.{edge_text, level_number, level_word, position_value, stand_part, standing_device, standing_value, stands_value, stood_cells};

use arrayvec::ArrayVec;
use device_core::Device;
use line_reading::Standing;
use line_wave::Edge;
use record_core::{Form, Position, Stand, Value, add_record, cells};
use text_core::{Counted, Piece, Sink, WriteFault};

/// The most devices of a room.
const MOST: usize = 15;

fn position_of(standing: Standing<'_>) -> Position<'_>
    ensures { position_value result ≡ standing_value (standing_by_code standing.entry) }
{
    match standing {
        Standing::Idle => Position::Named("idle"),
        Standing::StartLow => Position::Named("start-low"),
        Standing::StartHigh => Position::Named("start-high"),
        Standing::Slot(slot, bits) => Position::Slot(slot as u64, bits),
        Standing::WaitHigh => Position::Named("wait-high"),
    }
}

// Adds a device that is on the wire.
fn push_stand<'a>(
    stands: &mut ArrayVec<Stand<'a>, MOST>,
    device: &'a Device<16>,
    position: Position<'a>,
)
    requires { length stands.old.items < 15 }
    ensures parts { map stand_part stands.new.items ≡ map stand_part stands.old.items ++ standing_device (position_value position.entry) device.now }
    ensures few { length stands.new.items ≤ length stands.old.items + 1 }
{
    if device.is_on_wire() {
        stands.push(Stand {
            name: device.name(),
            position,
        });
    }
}

// The devices on the wire. All of them hear one line, so that they stand alike.
fn stands_of<'a>(devices: &'a [Device<16>], position: Position<'a>) -> ArrayVec<Stand<'a>, MOST>
    requires { length devices.now ≤ 15 }
    ensures { map stand_part result.items ≡ flat_map (standing_device (position_value position.entry)) devices.now }
{
    let mut stands = ArrayVec::new();
    for device in devices {
        push_stand(&mut stands, device, position);
    }
    stands
}

fn level_word(edge: Edge) -> &'static str
    ensures { result.now ≡ level_word edge.low }
{
    if edge.low { "low" } else { "high" }
}

fn level_number(edge: Edge) -> u64
    ensures { result ≡ level_number edge.low }
{
    if edge.low { 0 } else { 1 }
}

// Adds an edge, from its level and the devices on the wire.
fn add_stood<'a, S: Sink>(
    out: &mut Counted<'_, S>,
    form: Form,
    at: u64,
    word: &'a str,
    level: u64,
    stands: &'a [Stand<'a>],
)
    ensures { Adds out.old out.new (record_text form (codes "edge") (stood_cells at word.now level (stands_value stands.now))) }
{
    let cells = cells![
        both("", "at", Value::One(Piece::Decimal(at))),
        line(" ", Value::One(Piece::Text(word))),
        hidden("level", Value::One(Piece::Decimal(level))),
        both("", "devices", Value::Stands(stands)),
    ];
    add_record(out, form, "edge", &cells);
}

/// Adds the line of an edge, or its object: its instant, the level that the line then has, and where each device on the wire stands.
pub fn add_edge<S: Sink>(
    out: &mut Counted<'_, S>,
    form: Form,
    devices: &[Device<16>],
    edge: Edge,
    standing: Standing,
)
    requires { length devices.now ≤ 15 }
    ensures { Adds out.old out.new (edge_text form devices.now edge (standing_by_code standing.entry)) }
{
    let stands = stands_of(devices, position_of(standing));
    add_stood(
        out,
        form,
        edge.at,
        level_word(edge),
        level_number(edge),
        &stands,
    );
}

/// Writes it by itself. Returns its length.
pub fn write_edge<S: Sink>(
    out: &mut S,
    form: Form,
    devices: &[Device<16>],
    edge: Edge,
    standing: Standing,
) -> Result<u128, WriteFault>
    requires { length devices.now ≤ 15 }
    ensures { WrittenText (S.contents out.old) (S.contents out.new) (S.is_stuck out.old) (S.is_stuck out.new) (edge_text form devices.now edge (standing_by_code standing.entry)) result }
{
    let mut line = Counted::new(out);
    add_edge(&mut line, form, devices, edge, standing);
    let written = line.written();
    // No effect at run time. The proof reads what `out` holds from the sink that comes back.
    let _below = line.into_sink();
    written
}
