//! The line that reports the state of a device, or its object.
ghost use Rattle.std.specs.Prelude.{◌≡◌, ◌+◌, ◌≤◌, ◌++◌, ◌∷◌, [], Some, None, codes, length, map};
ghost use Rattle.text_core.specs.Adds.{Adds};
ghost use Rattle.text_core.specs.Cut.{WrittenText};
ghost use Rattle.arrayvec.specs.ArrayVec.{array_vec_len};
ghost use Rattle.device_core.specs.State.{addresses_held, held_by};
ghost use Rattle.record_core.specs.Cells.{plain_of};
ghost use Rattle.record_core.specs.Records.{record_text};
ghost use Rattle.record_core.specs.Values.{pieces};
ghost use Rattle.room_trace.specs.Records.{heard_value, held_units, outside_cells, parts_value, some_units, state_cells, state_cells_of, state_text, unit_pieces, units_of};
ghost use Rattle.room_trace.specs.StateText.{language_bytes, phys_on, power_text, state_line};

use arrayvec::ArrayVec;
use device_core::{Device, HeardReport, Port};
use line_frames::Addr;
use record_core::{Cell, Form, Part, Value, add_record, cells};
use text_core::{Counted, Kind, Phys, Piece, Sink, WriteFault};

/// What a device from outside has in the place of its record, of which nobody but its driver knows more.
const NONE: Value = Value::One(Piece::Text("-"));

fn power_word(is_on: bool) -> &'static str
    ensures { result.now ≡ power_text is_on }
{
    if is_on { "on" } else { "standby" }
}

fn phys_on_wire(is_on: bool, phys: Phys) -> Option<Phys>
    ensures { result ≡ phys_on is_on phys }
{
    if is_on { Some(phys) } else { None }
}

fn number_of(address: Option<Addr>) -> Option<u8>
    ensures { result ≡ address }
{
    match address {
        None => None,
        Some(address) => Some(address.value()),
    }
}

fn port_number(port: Option<Port>) -> Option<u64>
    ensures { result ≡ port }
{
    match port {
        None => None,
        Some(port) => Some(port.value() as u64),
    }
}

// The logical address, and of a box those of both its units.
fn units_of(kind: Kind, held: [Option<Addr>; 2]) -> ArrayVec<Piece<'static>, 2>
    ensures { result.items ≡ unit_pieces (units_of kind held) }
{
    let [first, second] = held;
    let mut units = ArrayVec::new();
    units.push(Piece::NibbleOrDash(number_of(first)));
    if kind == Kind::Combo {
        units.push(Piece::NibbleOrDash(number_of(second)));
    }
    units
}

// Adds the addresses that there are.
fn add_units(units: &mut ArrayVec<Piece<'static>, 4>, held: &[Option<Addr>])
    requires room { array_vec_len units.old + length held.now ≤ 4 }
    ensures { units.new.items ≡ units.old.items ++ unit_pieces (some_units held.now) }
{
    let [first, others @ ..] = held else {
        return;
    };
    match first {
        None => add_units(units, others),
        Some(address) => {
            units.push(Piece::NibbleOrDash(Some(address.value())));
            add_units(units, others);
        }
    }
}

// The logical addresses that a device from outside holds.
fn held_units(held: &[Option<Addr>]) -> ArrayVec<Piece<'static>, 4>
    requires few { length held.now ≤ 4 }
    ensures { result.items ≡ unit_pieces (held_units held.now) }
{
    let mut units = ArrayVec::new();
    if let [first, others @ ..] = held {
        units.push(Piece::NibbleOrDash(number_of(*first)));
        add_units(&mut units, others);
    }
    units
}

// The last report that was heard: initiator, opcode and first operand in hex.
fn heard_parts(heard: Option<HeardReport>) -> ArrayVec<Part<'static>, 3>
    ensures { parts_value result.items ≡ heard_value heard }
{
    let mut parts = ArrayVec::new();
    if let Some(report) = heard {
        parts.push(Part {
            name: "initiator",
            piece: Piece::Nibble(report.from.value()),
        });
        parts.push(Part {
            name: "opcode",
            piece: Piece::HexByte(report.opcode),
        });
        parts.push(Part {
            name: "first_operand",
            piece: Piece::HexByte(report.first),
        });
    }
    parts
}

// The cells of a device's state, from its logical addresses, the bytes of its language and what it heard.
fn state_cells<'a>(
    device: &'a Device<16>,
    units: &'a [Piece<'a>],
    language: &'a [u8],
    heard: &'a [Part<'a>],
) -> [Cell<'a>; 21]
    ensures { map plain_of result ≡ state_cells_of device.now (pieces (codes "+") units.now) language.now (parts_value heard.now) }
{
    let record = device.record();
    cells![
        both("state ", "device", Value::One(Piece::Bytes(device.name()))),
        both(" ", "kind", Value::One(Piece::Text(device.kind().word()))),
        both(" ", "logical_addresses", Value::List("+", units)),
        both(
            " ",
            "physical_address",
            Value::One(Piece::PhysOrDash(phys_on_wire(device.is_on_wire(), device.phys())))
        ),
        both(
            " ",
            "power",
            Value::One(Piece::Text(power_word(record.power)))
        ),
        both(
            " active=",
            "active_source",
            Value::One(Piece::PhysOrDash(record.active))
        ),
        both(" path=", "path", Value::One(Piece::PhysOrDash(record.path))),
        both(
            " deck=",
            "deck",
            Value::One(Piece::HexByte(record.deck.byte()))
        ),
        both(" menu=", "menu", Value::One(Piece::Switch(record.menu))),
        both(
            " audio=",
            "system_audio",
            Value::One(Piece::Switch(record.audio))
        ),
        both(
            " volume=",
            "volume",
            Value::One(Piece::Decimal(record.volume.value() as u64))
        ),
        both(" mute=", "mute", Value::One(Piece::Switch(record.mute))),
        both(
            " arc=",
            "audio_return_channel",
            Value::One(Piece::Switch(record.arc))
        ),
        both(
            " sel=",
            "selected_port",
            Value::One(Piece::DecimalOrDash(port_number(record.selected)))
        ),
        both(" lang=", "menu_language", Value::One(Piece::Hex(language))),
        both(
            " osd=",
            "osd_text",
            Value::One(Piece::HexOrDash(record.osd.as_slice()))
        ),
        both(
            " held=",
            "held_key",
            Value::One(Piece::HexByteOrDash(record.held))
        ),
        both(" heard=", "heard", Value::Parts(":", heard)),
        both(
            " sub=",
            "subscriber",
            Value::One(Piece::NibbleOrDash(number_of(record.sub)))
        ),
        both(
            " queue=",
            "queued",
            Value::One(Piece::Decimal(device.queue_len() as u64))
        ),
        both(
            " dropped=",
            "dropped",
            Value::One(Piece::Decimal(device.dropped()))
        ),
    ]
}

// The same of a device from outside.
fn outside_cells<'a>(device: &'a Device<16>, units: &'a [Piece<'a>]) -> [Cell<'a>; 21]
    ensures { map plain_of result ≡ outside_cells device.now (pieces (codes "+") units.now) }
{
    cells![
        both("state ", "device", Value::One(Piece::Bytes(device.name()))),
        both(" ", "kind", Value::One(Piece::Text(device.kind().word()))),
        both(" ", "logical_addresses", Value::List("+", units)),
        both(
            " ",
            "physical_address",
            Value::One(Piece::PhysOrDash(phys_on_wire(device.is_on_wire(), device.phys())))
        ),
        both(" ", "power", NONE),
        both(" active=", "active_source", NONE),
        both(" path=", "path", NONE),
        both(" deck=", "deck", NONE),
        both(" menu=", "menu", NONE),
        both(" audio=", "system_audio", NONE),
        both(" volume=", "volume", NONE),
        both(" mute=", "mute", NONE),
        both(" arc=", "audio_return_channel", NONE),
        both(" sel=", "selected_port", NONE),
        both(" lang=", "menu_language", NONE),
        both(" osd=", "osd_text", NONE),
        both(" held=", "held_key", NONE),
        both(" heard=", "heard", NONE),
        both(" sub=", "subscriber", NONE),
        both(
            " queue=",
            "queued",
            Value::One(Piece::Decimal(device.queue_len() as u64))
        ),
        both(
            " dropped=",
            "dropped",
            Value::One(Piece::Decimal(device.dropped()))
        ),
    ]
}

// Adds the record of the state of a device from outside.
fn add_outside<S: Sink>(out: &mut Counted<'_, S>, form: Form, device: &Device<16>)
    ensures { Adds out.old out.new (record_text form (codes "state") (outside_cells device.now (pieces (codes "+") (unit_pieces (held_units (held_by device.now)))))) }
{
    let units = held_units(&device.all_held());
    add_record(out, form, "state", &outside_cells(device, &units));
}

// Adds that of another device.
fn add_known<S: Sink>(out: &mut Counted<'_, S>, form: Form, device: &Device<16>)
    ensures { Adds out.old out.new (record_text form (codes "state") (state_cells_of device.now (pieces (codes "+") (unit_pieces (units_of device.now.kind (addresses_held device.now.place))))
        (language_bytes device.now.record_of.language) (heard_value device.now.record_of.heard))) }
{
    let record = device.record();
    let language = [
        record.language.first,
        record.language.second,
        record.language.third,
    ];
    let heard = heard_parts(record.heard);
    let units = units_of(device.kind(), device.held());
    add_record(
        out,
        form,
        "state",
        &state_cells(device, &units, &language, &heard),
    );
}

// Adds the record of a device's state.
fn add_state_record<S: Sink>(out: &mut Counted<'_, S>, form: Form, device: &Device<16>)
    ensures { Adds out.old out.new (record_text form (codes "state") (state_cells device.now)) }
{
    if device.kind().is_outside() {
        add_outside(out, form, device);
    } else {
        add_known(out, form, device);
    }
}

/// Adds the state line of a device, or its object.
pub fn add_state<S: Sink>(out: &mut Counted<'_, S>, form: Form, device: &Device<16>)
    ensures { Adds out.old out.new (state_text form device.now) }
{
    add_state_record(out, form, device);
}

/// Writes it by itself. Returns its length.
pub fn write_state<S: Sink>(out: &mut S, device: &Device<16>) -> Result<u128, WriteFault>
    ensures { WrittenText (S.contents out.old) (S.contents out.new) (S.is_stuck out.old) (S.is_stuck out.new) (state_line device.now) result }
{
    let mut text = Counted::new(out);
    add_state(&mut text, Form::Text, device);
    let written = text.written();
    // No effect at run time. The proof reads what `out` holds from the sink that comes back.
    let _below = text.into_sink();
    written
}
