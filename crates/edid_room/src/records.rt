//! The records of room.
ghost use Rattle.std.specs.Prelude.{◌≡◌, ◌≤◌, ◌+◌, ◌++◌, codes, length};
ghost use Rattle.edid_room.specs.Records.{base_by, base_cells, base_record, cta_cells, cta_record, ext_record, exts_records, full_record, room_text};
ghost use Rattle.edid_room.specs.Room.{cta_blocks, cta_left, cta_tail, cta_timings, cta_used};
ghost use Rattle.record_core.specs.Records.{record_text};
ghost use Rattle.text_core.specs.Adds.{Adds};
ghost use Rattle.text_core.specs.Cut.{WritesText};

use crate::room::{
    cta_blocks, cta_left, cta_tail, cta_timings, cta_used, free_descriptors, free_established,
    free_standards,
};
use edid_base::Base;
use edid_cta::{Cta, Ext};
use record_core::{Form, Value, add_record, cells};
use text_core::{Counted, Piece, Sink, WriteFault};

/// The bytes of a detailed timing.
const TIMING: u64 = 18;

fn add_base_cells<S: Sink>(
    out: &mut Counted<'_, S>,
    form: Form,
    used: u64,
    left: u64,
    descriptors: u64,
    standards: u64,
    established: u64,
)
    ensures { Adds out.old out.new (record_text form (codes "room") (base_cells used left descriptors standards established)) }
{
    let cells = cells![
        both("block ", "block", Value::One(Piece::Decimal(0))),
        both(" ", "kind", Value::One(Piece::Text("base"))),
        hidden("blocks", Value::Nothing),
        hidden("timings", Value::Nothing),
        hidden("tail", Value::Nothing),
        both(" used ", "used", Value::One(Piece::Decimal(used))),
        both(" left ", "left", Value::One(Piece::Decimal(left))),
        both(
            " free-descriptors ",
            "free_descriptors",
            Value::One(Piece::Decimal(descriptors))
        ),
        both(
            " free-standards ",
            "free_standards",
            Value::One(Piece::Decimal(standards))
        ),
        both(
            " free-established ",
            "free_established",
            Value::One(Piece::Decimal(established))
        ),
        hidden("free_timings", Value::Nothing),
    ];
    add_record(out, form, "room", &cells);
}

// Adds the record of a base block with so many descriptors, standard timings and established timings unused.
fn add_base_by<S: Sink>(
    out: &mut Counted<'_, S>,
    form: Form,
    descriptors: u64,
    standards: u64,
    established: u64,
)
    requires descriptors { descriptors ≤ 4 }
    requires standards { standards ≤ 8 }
    ensures { Adds out.old out.new (base_by form descriptors standards established) }
{
    let used = 40 + 18 * (4 - descriptors) + 2 * (8 - standards);
    let left = 18 * descriptors + 2 * standards;
    add_base_cells(out, form, used, left, descriptors, standards, established);
}

fn add_base<S: Sink>(out: &mut Counted<'_, S>, form: Form, base: &Base)
    ensures { Adds out.old out.new (base_record form base.now) }
{
    let descriptors = free_descriptors(&base.descriptors) as u64;
    let standards = free_standards(&base.standard) as u64;
    let established = u64::from(free_established(&base.established));
    add_base_by(out, form, descriptors, standards, established);
}

fn add_cta_cells<S: Sink>(
    out: &mut Counted<'_, S>,
    form: Form,
    number: u64,
    blocks: u64,
    timings: u64,
    tail: u64,
    used: u64,
    left: u64,
    more: u64,
)
    ensures { Adds out.old out.new (record_text form (codes "room") (cta_cells number blocks timings tail used left more)) }
{
    let cells = cells![
        both("block ", "block", Value::One(Piece::Decimal(number))),
        both(" ", "kind", Value::One(Piece::Text("cta"))),
        both(" blocks ", "blocks", Value::One(Piece::Decimal(blocks))),
        both(" timings ", "timings", Value::One(Piece::Decimal(timings))),
        both(" tail ", "tail", Value::One(Piece::Decimal(tail))),
        both(" used ", "used", Value::One(Piece::Decimal(used))),
        both(" left ", "left", Value::One(Piece::Decimal(left))),
        hidden("free_descriptors", Value::Nothing),
        hidden("free_standards", Value::Nothing),
        hidden("free_established", Value::Nothing),
        both(
            " free-timings ",
            "free_timings",
            Value::One(Piece::Decimal(more))
        ),
    ];
    add_record(out, form, "room", &cells);
}

fn add_cta<S: Sink>(out: &mut Counted<'_, S>, form: Form, number: u64, cta: &Cta)
    ensures { Adds out.old out.new (cta_record form number cta.now) }
{
    let left = cta_left(cta) as u64;
    add_cta_cells(
        out,
        form,
        number,
        cta_blocks(cta) as u64,
        cta_timings(cta) as u64,
        cta_tail(cta) as u64,
        cta_used(cta) as u64,
        left,
        left / TIMING,
    );
}

// Adds the record of an extension that takes no data block.
fn add_full<'a, S: Sink>(out: &mut Counted<'_, S>, form: Form, number: u64, kind: &'a str)
    ensures { Adds out.old out.new (full_record form number kind.now) }
{
    let cells = cells![
        both("block ", "block", Value::One(Piece::Decimal(number))),
        both(" ", "kind", Value::One(Piece::Text(kind))),
        hidden("blocks", Value::Nothing),
        hidden("timings", Value::Nothing),
        hidden("tail", Value::Nothing),
        both(" used ", "used", Value::One(Piece::Decimal(128))),
        both(" left ", "left", Value::One(Piece::Decimal(0))),
        hidden("free_descriptors", Value::Nothing),
        hidden("free_standards", Value::Nothing),
        hidden("free_established", Value::Nothing),
        hidden("free_timings", Value::Nothing),
    ];
    add_record(out, form, "room", &cells);
}

fn add_ext<S: Sink>(out: &mut Counted<'_, S>, form: Form, number: u64, ext: &Ext)
    ensures { Adds out.old out.new (ext_record form number ext.now) }
{
    match ext {
        Ext::Cta(cta) => add_cta(out, form, number, cta),
        Ext::Bare(_) => add_full(out, form, number, "cta-none"),
        Ext::Raw(_) => add_full(out, form, number, "ext"),
    }
}

#[tactic(auto, using(text_core::proofs::Adding::nothing, text_core::proofs::Adding::then))]
fn add_exts<S: Sink>(out: &mut Counted<'_, S>, form: Form, number: u64, extensions: &[Ext])
    requires few { number + length extensions.now ≤ 200 }
    ensures { Adds out.old out.new (exts_records form number extensions.now) }
{
    if let [ext, others @ ..] = extensions {
        add_ext(out, form, number, ext);
        add_exts(out, form, number + 1, others);
    }
}

#[tactic(auto, using(text_core::proofs::Adding::then))]
fn add_room<S: Sink>(out: &mut Counted<'_, S>, form: Form, base: &Base, extensions: &[Ext])
    requires few { length extensions.now ≤ 3 }
    ensures { Adds out.old out.new (room_text form base.now extensions.now) }
{
    add_base(out, form, base);
    add_exts(out, form, 1, extensions);
}

/// Writes a record for each block of an EDID: its bytes that are used, those that are left, and for what there is room.
///
/// # Errors
///
/// Where the sink takes no more: then the front of the records was written, as long as it says.
pub fn write_room<S: Sink>(
    out: &mut S,
    form: Form,
    base: &Base,
    extensions: &[Ext],
) -> Result<(), WriteFault>
    requires few { length extensions.now ≤ 3 }
    ensures { WritesText (S.contents out.old) (S.contents out.new) (S.is_stuck out.old) (S.is_stuck out.new) (room_text form base.now extensions.now) result }
{
    let mut text = Counted::new(out);
    add_room(&mut text, form, base, extensions);
    let written = text.written();
    // No effect at run time. The proof reads what `out` holds from the sink that comes back.
    let _below = text.into_sink();
    match written {
        Ok(_) => Ok(()),
        Err(fault) => Err(fault),
    }
}
