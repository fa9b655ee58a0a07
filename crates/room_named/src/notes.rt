//! The two wires of names in a round.
ghost use Rattle.std.specs.Prelude.{◌≡◌, [], ◌∷◌, ◌++◌, ◌+◌, ◌≤◌, length, map};
ghost use Rattle.line_wave.specs.Bounds.{latest_heard};
ghost use Rattle.line_wave.specs.Line.{IsWave};
ghost use Rattle.text_core.specs.Adds.{Adds};
ghost use Rattle.capture_wires.specs.Noted.{noted};
ghost use Rattle.capture_wires.specs.Wires.{closing_with};
ghost use Rattle.room_named.specs.Names.{bit_id, bit_notes, frame_id, line_notes, named_opening, named_round, named_values, note, round_notes, said_text};

use crate::names::{bit_name, said_text};
use arrayvec::ArrayVec;
use capture_wires::{Drive, WireText, add_closing_with, add_noted_wires};
use line_frames::Reading;
use line_wave::Stretch;
use text_core::{Counted, Sink};

// The most notes of a round: the frame twice, the start bit, 160 bits, and their end.
const MOST_NOTES: usize = 164;

// The identifiers of the two wires.
const FRAME: u8 = b'"';

const BIT: u8 = b'%';

/// Adds what stands before the devices in a dump with the two wires.
pub fn add_named_opening<S: Sink>(out: &mut Counted<'_, S>)
    ensures { Adds out.old out.new named_opening }
{
    let opening =
        "$version hdminet $end\n$timescale 1 us $end\n$scope module hdmi $end\n$var wire 1 ! CEC $end\n$var string 1 \" frame $end\n$var string 1 % bit $end\n$scope module devices $end\n";
    out.add(opening.as_bytes());
}

/// Adds what stands after so many devices, at most 90: at first the two wires have nothing.
pub fn add_named_closing<S: Sink>(out: &mut Counted<'_, S>, count: u8)
    requires { count ≤ 90 }
    ensures { Adds out.old out.new (closing_with named_values count) }
{
    add_closing_with(out, count, "s \"\ns %\n");
}

// Notes bits from this number on.
fn put_bits<'a>(
    notes: &mut ArrayVec<WireText<'a>, MOST_NOTES>,
    number: u8,
    falls: &[Stretch],
    bits: &[bool],
)
    requires room { length notes.old.items + length bits.now ≤ 162 }
    requires numbers { number + length bits.now ≤ 160 }
    ensures notes { map noted notes.new.items ≡ map noted notes.old.items ++ bit_notes number falls.now bits.now }
    ensures few { length notes.new.items ≤ length notes.old.items + length bits.now }
{
    let Some((fall, falls)) = falls.split_first() else {
        return;
    };
    let Some((bit, bits)) = bits.split_first() else {
        return;
    };
    notes.push(WireText {
        at: fall.from,
        id: BIT,
        text: bit_name(number, *bit).as_bytes(),
    });
    put_bits(notes, number + 1, falls, bits);
}

// Notes the start bit, and the bits after it.
fn put_line<'a>(notes: &mut ArrayVec<WireText<'a>, MOST_NOTES>, wave: &[Stretch], bits: &[bool])
    requires room { length notes.old.items ≤ 1 }
    requires bits { length bits.now ≤ 160 }
    ensures notes { map noted notes.new.items ≡ map noted notes.old.items ++ line_notes wave.now bits.now }
    ensures few { length notes.new.items ≤ length notes.old.items + 161 }
{
    let Some((fall, falls)) = wave.split_first() else {
        return;
    };
    notes.push(WireText {
        at: fall.from,
        id: BIT,
        text: b"start",
    });
    put_bits(notes, 0, falls, bits);
}

// Notes that nothing is on the line any more.
fn put_end<'a>(notes: &mut ArrayVec<WireText<'a>, MOST_NOTES>, at: u64)
    requires { length notes.old.items ≤ 162 }
    ensures { map noted notes.new.items ≡ map noted notes.old.items ++ (note at frame_id [] ∷ note at bit_id [] ∷ []) }
{
    notes.push(WireText {
        at,
        id: FRAME,
        text: &[],
    });
    notes.push(WireText {
        at,
        id: BIT,
        text: &[],
    });
}

// Notes what the two wires have in a round, of which this is read.
fn put_notes<'a>(
    notes: &mut ArrayVec<WireText<'a>, MOST_NOTES>,
    said: &'a [u8],
    wave: &[Stretch],
    reading: &Reading,
)
    requires empty { notes.old.items ≡ [] }
    requires said { said.now ≡ said_text reading.now }
    ensures { map noted notes.new.items ≡ round_notes wave.now reading.now }
{
    notes.push(WireText {
        at: reading.begin,
        id: FRAME,
        text: said,
    });
    put_line(notes, wave, &reading.bits);
    put_end(notes, reading.at);
}

/// Adds the line and the drives of a round that begins at `begin` and comes to rest at `rest`, those of the pulses last, and the
/// names of what is read.
pub fn add_named_round<S: Sink>(
    out: &mut Counted<'_, S>,
    wave: &[Stretch],
    drives: &[Drive],
    pulses: &[Stretch],
    reading: &Reading,
    begin: u64,
    rest: u64,
)
    requires few { length drives.now ≤ 90 }
    requires pulses { IsWave pulses.now }
    requires order { begin ≤ rest }
    requires early { (rest ≤ latest_heard) × (reading.now.at ≤ latest_heard) }
    ensures { Adds out.old out.new (named_round wave.now (drives.now ++ pulses.now ∷ []) reading.now begin rest) }
{
    let said = said_text(reading);
    let mut notes = ArrayVec::new();
    put_notes(&mut notes, &said, wave, reading);
    let end = rest.max(reading.at) + 1;
    add_noted_wires(out, wave, drives, pulses, &notes, begin, end);
}
