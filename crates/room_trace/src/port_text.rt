//! The lines of ports.
ghost use Rattle.std.specs.Prelude.{◌≡◌, ℕ, ◌+◌, ◌<◌, ◌≤◌, length, IsSome, slice_index_or, false};
ghost use Rattle.std.specs.List.{flat_map, range_with_len};
ghost use Rattle.edid_core.specs.Address.{edid_address};
ghost use Rattle.edid_core.specs.Root.{HasAddress};
ghost use Rattle.edid_tree.specs.Path.{is_on_wire};
ghost use Rattle.edid_tree.specs.Tree.{ports_of};
ghost use Rattle.text_core.specs.Adds.{Adds};
ghost use Rattle.text_core.specs.Cut.{WrittenText};
ghost use Rattle.room_trace.specs.PortText.{name_in, port_lines, port_text, port_text_of, port_texts, texts_of_new, texts_of_ports};

use edid_core::Edid;
use edid_tree::Tree;
use record_core::{Form, Value, add_record, cells};
use text_core::{Counted, Piece, Sink, WriteFault};

/// Which devices of a tree are on the wire, by number.
pub fn on_wire(tree: &Tree<15>) -> [bool; 15]
    ensures { (k : ℕ) → k < length tree.now → slice_index_or result k false ≡ is_on_wire tree.now k }
{
    // There are at most 15.
    let _count = tree.count();
    let mut devices = [false; 15];
    for (number, device) in devices.iter_mut().enumerate() {
        *device = tree.on_wire(number);
    }
    devices
}

fn name_in(tree: &Tree<15>, device: usize) -> &[u8]
    requires { device < length tree.now }
    ensures { result.now ≡ name_in tree.now device }
{
    tree.name(device)
}

// Adds the line of a port, from the name of its device and the bytes of its EDID.
fn add_port_of<'a, S: Sink>(
    out: &mut Counted<'_, S>,
    form: Form,
    at: u64,
    name: &'a [u8],
    port: u8,
    bytes: &'a [u8],
)
    ensures { Adds out.old out.new (port_text_of form at name.now port bytes.now) }
{
    let cells = cells![
        both("", "at", Value::One(Piece::Decimal(at))),
        both(" port ", "device", Value::One(Piece::Bytes(name))),
        both(" ", "port", Value::One(Piece::Decimal(port as u64))),
        both(" ", "edid", Value::One(Piece::Hex(bytes))),
    ];
    add_record(out, form, "port", &cells);
}

// Adds the line of a port, which the device has.
fn add_port<S: Sink>(
    out: &mut Counted<'_, S>,
    form: Form,
    at: u64,
    root: &Edid,
    tree: &Tree<15>,
    device: usize,
    port: u8,
)
    requires known { device < length tree.now }
    requires first { 0 < port }
    requires last { port ≤ ports_of tree.now device }
    requires addressed { IsSome (edid_address root.now) }
    ensures { Adds out.old out.new (port_text form at root.now tree.now device port) }
{
    let Ok(bytes) = tree.write_port_edid(root, device, port) else {
        unreachable!();
    };
    add_port_of(out, form, at, name_in(tree, device), port, &bytes);
}

// Adds the lines of a device's ports.
fn add_ports_of<S: Sink>(
    out: &mut Counted<'_, S>,
    form: Form,
    at: u64,
    root: &Edid,
    tree: &Tree<15>,
    device: usize,
)
    requires known { device < length tree.now }
    requires addressed { IsSome (edid_address root.now) }
    ensures { Adds out.old out.new (texts_of_ports form at root.now tree.now device) }
{
    for port in 0..tree.ports(device) {
        add_port(out, form, at, root, tree, device, port + 1);
    }
}

// Adds them for a device that is on the wire and was not before.
#[tactic(auto, using(text_core::proofs::Adding::nothing))]
fn add_new<S: Sink>(
    out: &mut Counted<'_, S>,
    form: Form,
    at: u64,
    root: &Edid,
    tree: &Tree<15>,
    was: bool,
    device: usize,
)
    requires known { device < length tree.now }
    requires addressed { IsSome (edid_address root.now) }
    ensures { Adds out.old out.new (texts_of_new form at root.now tree.now was device) }
{
    if tree.on_wire(device) && !was {
        add_ports_of(out, form, at, root, tree, device);
    }
}

fn was_on(was: &[bool], device: usize) -> bool
    ensures { result ≡ slice_index_or was.now device false }
{
    match was.get(device) {
        None => false,
        Some(was) => *was,
    }
}

fn add_all_new<S: Sink>(
    out: &mut Counted<'_, S>,
    form: Form,
    at: u64,
    root: &Edid,
    tree: &Tree<15>,
    was: &[bool],
)
    requires { IsSome (edid_address root.now) }
    ensures { Adds out.old out.new
        (flat_map (λ device. texts_of_new form at root.now tree.now (slice_index_or was.now device false) device) (range_with_len 0 (length tree.now))) }
{
    for device in 0..tree.count() {
        add_new(out, form, at, root, tree, was_on(was, device), device);
    }
}

/// Adds the lines, or the objects, of the ports of the devices that are on the wire and were not before, where there is an EDID.
#[tactic(auto, using(text_core::proofs::Adding::nothing))]
pub fn add_new_ports<S: Sink>(
    out: &mut Counted<'_, S>,
    form: Form,
    at: u64,
    edid: &Option<Edid>,
    tree: &Tree<15>,
    was: &[bool],
)
    requires { HasAddress edid.now }
    ensures { Adds out.old out.new (port_texts form at edid.now (λ device. slice_index_or was.now device false) tree.now) }
{
    match edid {
        None => {}
        Some(root) => add_all_new(out, form, at, root, tree, was),
    }
}

/// Writes the port lines of the devices that are on the wire and were not before, where there is an EDID. Returns how many
/// bytes they are.
///
/// # Errors
///
/// A `put` took none, after so many bytes.
pub fn write_ports<S: Sink>(
    out: &mut S,
    at: u64,
    edid: &Option<Edid>,
    tree: &Tree<15>,
    was: &[bool],
) -> Result<u128, WriteFault>
    requires { HasAddress edid.now }
    ensures { WrittenText (S.contents out.old) (S.contents out.new) (S.is_stuck out.old) (S.is_stuck out.new)
        (port_lines at edid.now (λ device. slice_index_or was.now device false) tree.now) result }
{
    let mut text = Counted::new(out);
    add_new_ports(&mut text, Form::Text, at, edid, tree, was);
    let written = text.written();
    // No effect at run time. The proof reads what `out` holds from the sink that comes back.
    let _below = text.into_sink();
    written
}
