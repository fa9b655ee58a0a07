//! The definitions of a dump of several wires.
ghost use Rattle.std.specs.Prelude.{◌≡◌, [], ◌+◌, ◌∷◌, ◌++◌, ◌≤◌, codes};
ghost use Rattle.std.specs.List.{concat, flat_map, range_with_len};
ghost use Rattle.text_core.specs.Adds.{Adds};
ghost use Rattle.capture_wires.specs.Wires.{closing, closing_with, high_at_first, id_of, opening, variable};

use text_core::{Counted, Piece, Sink};

// The identifier of the line, and that before the first device's.
const LINE_ID: u8 = b'!';

const DEVICE_IDS: u8 = b'a' - 1;

/// The identifier of a wire.
pub(crate) fn id_of(number: u8) -> u8
    requires { number ≤ 100 }
    ensures { result ≡ id_of number }
{
    if number == 0 {
        LINE_ID
    } else {
        number + DEVICE_IDS
    }
}

fn add_text<S: Sink>(out: &mut Counted<'_, S>, text: &str)
    ensures { Adds out.old out.new text.now }
{
    out.add(text.as_bytes());
}

/// Adds what stands before the devices: the time scale, and the line.
pub fn add_opening<S: Sink>(out: &mut Counted<'_, S>)
    ensures { Adds out.old out.new opening }
{
    add_text(
        out,
        "$version hdminet $end\n$timescale 1 us $end\n$scope module hdmi $end\n$var wire 1 ! CEC $end\n$scope module devices $end\n",
    );
}

// Adds the definition of a wire of this identifier and this name.
fn add_named<'a, S: Sink>(out: &mut Counted<'_, S>, id: &'a [u8], name: &'a [u8])
    ensures { Adds out.old out.new (concat (codes "$var wire 1 " ∷ id.now ∷ codes " " ∷ name.now ∷ codes " $end\n" ∷ [])) }
{
    out.add_line(&[
        Piece::Text("$var wire 1 "),
        Piece::Bytes(id),
        Piece::Text(" "),
        Piece::Bytes(name),
        Piece::Text(" $end\n"),
    ]);
}

/// Adds the definition of a wire: its number, from 1, and its name.
pub fn add_variable<S: Sink>(out: &mut Counted<'_, S>, number: u8, name: &[u8])
    requires { number ≤ 100 }
    ensures { Adds out.old out.new (variable number name.now) }
{
    let id = [id_of(number)];
    add_named(out, &id, name);
}

// Adds that a wire is high at first.
fn add_high<S: Sink>(out: &mut Counted<'_, S>, number: u8)
    requires { number ≤ 100 }
    ensures { Adds out.old out.new (high_at_first number) }
{
    let line = [b'1', id_of(number), b'\n'];
    out.add(&line);
}

// Adds that so many wires from this number on are high at first.
#[tactic(auto, using(text_core::proofs::Adding::nothing))]
fn add_highs<S: Sink>(out: &mut Counted<'_, S>, number: u8, count: u8)
    requires { number + count ≤ 100 }
    ensures { Adds out.old out.new (flat_map high_at_first (range_with_len number count)) }
{
    if count == 0 {
        return;
    }
    add_high(out, number);
    add_highs(out, number + 1, count - 1);
}

/// Adds what stands after so many devices, at most 90, where these are the first values of further wires: the wire of the pulses,
/// these values, and that each wire of one bit is high at first.
pub fn add_closing_with<S: Sink>(out: &mut Counted<'_, S>, count: u8, values: &str)
    requires { count ≤ 90 }
    ensures { Adds out.old out.new (closing_with values.now count) }
{
    add_text(out, "$upscope $end\n");
    add_variable(out, count + 1, b"pulses");
    add_text(out, "$upscope $end\n$enddefinitions $end\n#0\n$dumpvars\n");
    add_text(out, values);
    add_highs(out, 0, count + 2);
    add_text(out, "$end\n");
}

/// The same with no further wires.
pub fn add_closing<S: Sink>(out: &mut Counted<'_, S>, count: u8)
    requires { count ≤ 90 }
    ensures { Adds out.old out.new (closing count) }
{
    add_closing_with(out, count, "");
}
