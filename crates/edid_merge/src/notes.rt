//! What of a receiver's product has no place in the EDID that it answers with, as lines.
ghost use Rattle.std.specs.Prelude.{◌≡◌, ℕ, List, drop};
ghost use Rattle.text_core.specs.Adds.{Adds};
ghost use Rattle.text_core.specs.Cut.{WrittenText};
ghost use Rattle.edid_merge.specs.Labels.{labelled, unplaced};
ghost use Rattle.edid_merge.specs.Notes.{IsNoted, IsNotes, descriptor_note, descriptor_notes, name_note, product_notes, serial_note};

use crate::labels::{Label, is_labelled, label_count};
use crate::repeater::{merge, one_edid};
use crate::table::{Table, Whose};
use edid_base::Descriptor;
use edid_core::Edid;
use text_core::{Counted, Piece, Sink, WriteFault};

fn add_name<S: Sink>(chars: &[u8], out: &mut Counted<'_, S>)
    ensures { Adds out.old out.new (name_note chars.now) }
{
    out.add_line(&[
        Piece::Text("hdminet: passed over name \""),
        Piece::Bytes(chars),
        Piece::Text("\"\n"),
    ]);
}

fn add_serial<S: Sink>(chars: &[u8], out: &mut Counted<'_, S>)
    ensures { Adds out.old out.new (serial_note chars.now) }
{
    out.add_line(&[
        Piece::Text("hdminet: passed over serial-text \""),
        Piece::Bytes(chars),
        Piece::Text("\"\n"),
    ]);
}

#[tactic(auto, using(text_core::proofs::Adding::nothing))]
fn add_note<S: Sink>(descriptor: &Descriptor, out: &mut Counted<'_, S>)
    ensures { Adds out.old out.new (descriptor_note descriptor.now) }
{
    match descriptor {
        Descriptor::Name(text) => add_name(text.chars.as_slice(), out),
        Descriptor::SerialText(text) => add_serial(text.chars.as_slice(), out),
        _ => {}
    }
}

// A note of each one with a label, but for the first ones, which have a place.
#[tactic(auto, using(text_core::proofs::Adding::nothing, text_core::proofs::Adding::then))]
fn add_rest<S: Sink>(label: Label, placed: usize, own: &[Descriptor], out: &mut Counted<'_, S>)
    ensures { Adds out.old out.new (descriptor_notes (drop placed (labelled label own.now))) }
{
    let [first, rest @ ..] = own else {
        return;
    };
    if !is_labelled(label, first) {
        add_rest(label, placed, rest, out);
    } else if placed > 0 {
        add_rest(label, placed - 1, rest, out);
    } else {
        add_note(first, out);
        add_rest(label, 0, rest, out);
    }
}

fn add_unplaced<S: Sink>(
    label: Label,
    own: &[Descriptor],
    merged: &[Descriptor],
    out: &mut Counted<'_, S>,
)
    ensures { Adds out.old out.new (descriptor_notes (unplaced label own.now merged.now)) }
{
    add_rest(label, label_count(label, merged), own, out);
}

#[tactic(auto, using(text_core::proofs::Adding::nothing, text_core::proofs::Adding::then))]
fn add_product<S: Sink>(
    product: Whose,
    own: &[Descriptor],
    merged: &[Descriptor],
    out: &mut Counted<'_, S>,
)
    ensures { Adds out.old out.new (product_notes product own.now merged.now) }
{
    match product {
        Whose::Keep => {}
        Whose::Own => {
            add_unplaced(Label::Name, own, merged, out);
            add_unplaced(Label::Serial, own, merged, out);
        }
    }
}

#[tactic(auto, using(text_core::proofs::Adding::nothing))]
fn add_of_pair<S: Sink>(table: &Table, display: &Edid, own: &Edid, out: &mut Counted<'_, S>)
    ensures { (text : List ℕ) × IsNoted table.now display.now own.now text × Adds out.old out.new text }
{
    match merge(table, display, own) {
        Err(_) => {}
        Ok(merged) => add_product(
            table.product,
            &own.base.descriptors,
            &merged.base.descriptors,
            out,
        ),
    }
}

fn add_notes<S: Sink>(table: &Table, display: &[u8], own: &[u8], out: &mut Counted<'_, S>)
    ensures { (text : List ℕ) × IsNotes table.now display.now own.now text × Adds out.old out.new text }
{
    match one_edid(display) {
        Err(_) => {}
        Ok(shown) => match one_edid(own) {
            Err(_) => {}
            Ok(known) => add_of_pair(table, &shown, &known, out),
        },
    }
}

/// Writes a line for each name and serial number of a receiver's that has no place in the EDID that it answers with by a table, of the
/// bytes of a display's and of its own. Where there is no answer there is none.
///
/// # Errors
///
/// A `put` took none. The front of the lines was written, as long as the fault's count says.
pub fn write_merge_notes<S: Sink>(
    table: &Table,
    display: &[u8],
    own: &[u8],
    out: &mut S,
) -> Result<u128, WriteFault>
    ensures { (text : List ℕ)
        × IsNotes table.now display.now own.now text
        × WrittenText (S.contents out.old) (S.contents out.new) (S.is_stuck out.old) (S.is_stuck out.new) text result }
{
    let mut lines = Counted::new(out);
    add_notes(table, display, own, &mut lines);
    let written = lines.written();
    // No effect at run time. The proof reads what `out` holds from the sink that comes back.
    let _below = lines.into_sink();
    written
}
