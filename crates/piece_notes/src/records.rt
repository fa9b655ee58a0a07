//! Lines and objects of what is said of pieces.
ghost use Rattle.std.specs.Prelude.{◌≡◌, ◌<◌, ◌∷◌, codes, map};
ghost use Rattle.text_core.specs.Adds.{Adds};
ghost use Rattle.record_core.specs.Cells.{plain_of};
ghost use Rattle.record_core.specs.Records.{record_text};
ghost use Rattle.audit_judged.specs.declared.endings.EndingRemark.TheVariants as endings;
ghost use Rattle.piece_notes.specs.Kinds.{width_name, width_section};
ghost use Rattle.piece_notes.specs.Notes.{bad_drive_cells, bit_cells, cause_text, drive_cells, ending_text, goes_on_text, good_drive_cells, in_section, named, start_cells, text_with, who_cell, width_text};

use crate::cells::{
    cause_words, count_cell, follower_cell, initiator_cell, longest_cell, shortest_cell,
    slots_cell, who_word, width_lead,
};
use crate::kinds::{
    cause_name, cause_section, ending_name, ending_section, width_name, width_section,
};
use audit_judged::{Cause, EndingRemark, Party, WidthRemark, window_for};
use audit_widths::DRIVE;
use record_core::{Cell, Form, Value, add_record, cell};
use text_core::{Counted, Piece, Sink};

/// The last block of a frame (CEC 6.1).
const LAST_BLOCK: u64 = 16;

/// The longest low of all, in microseconds.
const LONGEST_LOW: u64 = 5_540;

fn named(field: &'static str, name: &'static str) -> Cell<'static>
    ensures { plain_of result ≡ named field.now name.now }
{
    cell!(hidden field, Value::One(Piece::Text(name)))
}

fn in_section(section: &'static str) -> Cell<'static>
    ensures { plain_of result ≡ in_section section.now }
{
    cell!(hidden "section", Value::One(Piece::Text(section)))
}

fn who_cell(who: Party) -> Cell<'static>
    ensures { plain_of result ≡ who_cell who }
{
    cell!(hidden "who", Value::One(Piece::Text(who_word(who))))
}

fn add_remark<S: Sink>(out: &mut Counted<'_, S>, form: Form, cells: &[Cell])
    ensures { Adds out.old out.new (record_text form (codes "remark") (map plain_of cells.now)) }
{
    add_record(out, form, "remark", cells);
}

fn add_start<S: Sink>(out: &mut Counted<'_, S>, form: Form, remark: WidthRemark)
    ensures { Adds out.old out.new (record_text form (codes "remark") (named (codes "remark") (width_name remark.kind) ∷ in_section (width_section remark.kind) ∷ start_cells remark)) }
{
    let outs = remark.outs;
    let window = window_for(remark.kind);
    let cells = [
        named("remark", width_name(remark.kind)),
        in_section(width_section(remark.kind)),
        cell!(line "  start", Value::Nothing),
        cell!(hidden "slot", Value::One(Piece::Decimal(0))),
        cell!(hidden "block", Value::Nothing),
        cell!(hidden "bit", Value::Nothing),
        cell!(both width_lead(remark.kind), "width", Value::One(Piece::Decimal(outs.width))),
        cell!(both " not ", "least", Value::One(Piece::Decimal(window.least))),
        cell!(both "..", "most", Value::One(Piece::Decimal(window.greatest))),
        shortest_cell(outs),
        longest_cell(outs),
        count_cell(outs),
        slots_cell(outs),
        who_cell(remark.who),
        initiator_cell(remark.who),
        follower_cell(remark.who),
    ];
    add_remark(out, form, &cells);
}

fn add_bit<S: Sink>(out: &mut Counted<'_, S>, form: Form, remark: WidthRemark)
    requires { 0 < remark.outs.slot }
    ensures { Adds out.old out.new (record_text form (codes "remark") (named (codes "remark") (width_name remark.kind) ∷ in_section (width_section remark.kind) ∷ bit_cells remark)) }
{
    let outs = remark.outs;
    let window = window_for(remark.kind);
    let before = outs.slot - 1;
    let cells = [
        named("remark", width_name(remark.kind)),
        in_section(width_section(remark.kind)),
        cell!(line "", Value::Nothing),
        cell!(both "  slot ", "slot", Value::One(Piece::Decimal(outs.slot))),
        cell!(both " block ", "block", Value::One(Piece::Decimal(before / 10 + 1))),
        cell!(both " bit ", "bit", Value::One(Piece::Decimal(before % 10 + 1))),
        cell!(both width_lead(remark.kind), "width", Value::One(Piece::Decimal(outs.width))),
        cell!(both " not ", "least", Value::One(Piece::Decimal(window.least))),
        cell!(both "..", "most", Value::One(Piece::Decimal(window.greatest))),
        shortest_cell(outs),
        longest_cell(outs),
        count_cell(outs),
        slots_cell(outs),
        who_cell(remark.who),
        initiator_cell(remark.who),
        follower_cell(remark.who),
    ];
    add_remark(out, form, &cells);
}

/// Adds the line of a remark of widths, or its object.
pub fn add_width<S: Sink>(out: &mut Counted<'_, S>, form: Form, remark: WidthRemark)
    ensures { Adds out.old out.new (width_text form remark) }
{
    if remark.outs.slot == 0 {
        add_start(out, form, remark);
    } else {
        add_bit(out, form, remark);
    }
}

fn add_stray<S: Sink>(out: &mut Counted<'_, S>, form: Form, bits: u64, who: Party)
    ensures { Adds out.old out.new (ending_text form (endings.Stray bits) who) }
{
    let remark = EndingRemark::Stray(bits);
    let cells = [
        named("remark", ending_name(remark)),
        in_section(ending_section(remark)),
        cell!(both "  bits without a start bit: ", "count", Value::One(Piece::Decimal(bits))),
        who_cell(who),
        initiator_cell(who),
        follower_cell(who),
    ];
    add_remark(out, form, &cells);
}

fn add_lone_start<S: Sink>(out: &mut Counted<'_, S>, form: Form, width: u64, who: Party)
    ensures { Adds out.old out.new (ending_text form (endings.LoneStart width) who) }
{
    let remark = EndingRemark::LoneStart(width);
    let cells = [
        named("remark", ending_name(remark)),
        in_section(ending_section(remark)),
        cell!(both "  low for ", "width", Value::One(Piece::Decimal(width))),
        cell!(line " and nothing after it", Value::Nothing),
        who_cell(who),
        initiator_cell(who),
        follower_cell(who),
    ];
    add_remark(out, form, &cells);
}

fn add_stuck<S: Sink>(out: &mut Counted<'_, S>, form: Form, width: u64, who: Party)
    ensures { Adds out.old out.new (ending_text form (endings.Stuck width) who) }
{
    let remark = EndingRemark::Stuck(width);
    let cells = [
        named("remark", ending_name(remark)),
        in_section(ending_section(remark)),
        cell!(both "  low for ", "width", Value::One(Piece::Decimal(width))),
        cell!(both ", at most ", "most", Value::One(Piece::Decimal(LONGEST_LOW))),
        who_cell(who),
        initiator_cell(who),
        follower_cell(who),
    ];
    add_remark(out, form, &cells);
}

fn add_overrun<S: Sink>(out: &mut Counted<'_, S>, form: Form, slots: usize, who: Party)
    ensures { Adds out.old out.new (ending_text form (endings.Overrun slots) who) }
{
    let remark = EndingRemark::Overrun(slots);
    let cells = [
        named("remark", ending_name(remark)),
        in_section(ending_section(remark)),
        cell!(both "  another start bit after slot ", "slot", Value::One(Piece::Decimal(slots as u64))),
        who_cell(who),
        initiator_cell(who),
        follower_cell(who),
    ];
    add_remark(out, form, &cells);
}

fn add_intruder<S: Sink>(out: &mut Counted<'_, S>, form: Form, slots: usize, gap: u64, who: Party)
    ensures { Adds out.old out.new (ending_text form (endings.Intruder slots gap) who) }
{
    let remark = EndingRemark::Intruder(slots, gap);
    let cells = [
        named("remark", ending_name(remark)),
        in_section(ending_section(remark)),
        cell!(both "  another fall after slot ", "slot", Value::One(Piece::Decimal(slots as u64))),
        cell!(both ", ", "gap", Value::One(Piece::Decimal(gap))),
        cell!(line " from its fall", Value::Nothing),
        who_cell(who),
        initiator_cell(who),
        follower_cell(who),
    ];
    add_remark(out, form, &cells);
}

fn add_unfinished<S: Sink>(out: &mut Counted<'_, S>, form: Form, block: usize, who: Party)
    ensures { Adds out.old out.new (ending_text form (endings.Unfinished block) who) }
{
    let remark = EndingRemark::Unfinished(block);
    let cells = [
        named("remark", ending_name(remark)),
        in_section(ending_section(remark)),
        cell!(both "  ends after block ", "block", Value::One(Piece::Decimal(block as u64))),
        cell!(line " without EOM", Value::Nothing),
        who_cell(who),
        initiator_cell(who),
        follower_cell(who),
    ];
    add_remark(out, form, &cells);
}

fn add_stops<S: Sink>(out: &mut Counted<'_, S>, form: Form, slots: usize, who: Party)
    ensures { Adds out.old out.new (ending_text form (endings.Stops slots) who) }
{
    let remark = EndingRemark::Stops(slots);
    let cells = [
        named("remark", ending_name(remark)),
        in_section(ending_section(remark)),
        cell!(both "  stops after slot ", "slot", Value::One(Piece::Decimal(slots as u64))),
        who_cell(who),
        initiator_cell(who),
        follower_cell(who),
    ];
    add_remark(out, form, &cells);
}

fn add_after_end<S: Sink>(out: &mut Counted<'_, S>, form: Form, bits: u64, who: Party)
    ensures { Adds out.old out.new (ending_text form (endings.AfterEnd bits) who) }
{
    let remark = EndingRemark::AfterEnd(bits);
    let cells = [
        named("remark", ending_name(remark)),
        in_section(ending_section(remark)),
        cell!(both "  bits after EOM: ", "count", Value::One(Piece::Decimal(bits))),
        who_cell(who),
        initiator_cell(who),
        follower_cell(who),
    ];
    add_remark(out, form, &cells);
}

fn add_too_long<S: Sink>(out: &mut Counted<'_, S>, form: Form, who: Party)
    ensures { Adds out.old out.new (ending_text form endings.TooLong who) }
{
    let remark = EndingRemark::TooLong;
    let cells = [
        named("remark", ending_name(remark)),
        in_section(ending_section(remark)),
        cell!(both "  goes on after block ", "block", Value::One(Piece::Decimal(LAST_BLOCK))),
        who_cell(who),
        initiator_cell(who),
        follower_cell(who),
    ];
    add_remark(out, form, &cells);
}

fn add_good_drive<S: Sink>(
    out: &mut Counted<'_, S>,
    form: Form,
    slots: usize,
    gap: u64,
    width: u64,
    who: Party,
)
    ensures { Adds out.old out.new (text_with form (endings.LowDrive slots gap width) (good_drive_cells slots gap width) who) }
{
    let remark = EndingRemark::LowDrive(slots, gap, width);
    let cells = [
        named("remark", ending_name(remark)),
        in_section(ending_section(remark)),
        cell!(both "  low drive ", "width", Value::One(Piece::Decimal(width))),
        cell!(hidden "least", Value::Nothing),
        cell!(hidden "most", Value::Nothing),
        cell!(both " after slot ", "slot", Value::One(Piece::Decimal(slots as u64))),
        cell!(both ", ", "gap", Value::One(Piece::Decimal(gap))),
        cell!(line " from its fall", Value::Nothing),
        who_cell(who),
        initiator_cell(who),
        follower_cell(who),
    ];
    add_remark(out, form, &cells);
}

fn add_bad_drive<S: Sink>(
    out: &mut Counted<'_, S>,
    form: Form,
    slots: usize,
    gap: u64,
    width: u64,
    who: Party,
)
    ensures { Adds out.old out.new (text_with form (endings.LowDrive slots gap width) (bad_drive_cells slots gap width) who) }
{
    let remark = EndingRemark::LowDrive(slots, gap, width);
    let cells = [
        named("remark", ending_name(remark)),
        in_section(ending_section(remark)),
        cell!(both "  low drive ", "width", Value::One(Piece::Decimal(width))),
        cell!(both " not ", "least", Value::One(Piece::Decimal(DRIVE.least))),
        cell!(both "..", "most", Value::One(Piece::Decimal(DRIVE.greatest))),
        cell!(both " after slot ", "slot", Value::One(Piece::Decimal(slots as u64))),
        cell!(both ", ", "gap", Value::One(Piece::Decimal(gap))),
        cell!(line " from its fall", Value::Nothing),
        who_cell(who),
        initiator_cell(who),
        follower_cell(who),
    ];
    add_remark(out, form, &cells);
}

// A low drive, which is in its window or out of it.
fn add_drive<S: Sink>(
    out: &mut Counted<'_, S>,
    form: Form,
    slots: usize,
    gap: u64,
    width: u64,
    who: Party,
)
    ensures { Adds out.old out.new (text_with form (endings.LowDrive slots gap width) (drive_cells slots gap width) who) }
{
    if DRIVE.fits(width) {
        add_good_drive(out, form, slots, gap, width, who);
    } else {
        add_bad_drive(out, form, slots, gap, width, who);
    }
}

/// Adds the line of a remark of an ending, or its object.
pub fn add_ending<S: Sink>(out: &mut Counted<'_, S>, form: Form, remark: EndingRemark, who: Party)
    ensures { Adds out.old out.new (ending_text form remark who) }
{
    match remark {
        EndingRemark::Stray(bits) => add_stray(out, form, bits, who),
        EndingRemark::LoneStart(width) => add_lone_start(out, form, width, who),
        EndingRemark::Stuck(width) => add_stuck(out, form, width, who),
        EndingRemark::LowDrive(slots, gap, width) => add_drive(out, form, slots, gap, width, who),
        EndingRemark::Overrun(slots) => add_overrun(out, form, slots, who),
        EndingRemark::Intruder(slots, gap) => add_intruder(out, form, slots, gap, who),
        EndingRemark::TooLong => add_too_long(out, form, who),
        EndingRemark::Unfinished(block) => add_unfinished(out, form, block, who),
        EndingRemark::Stops(slots) => add_stops(out, form, slots, who),
        EndingRemark::AfterEnd(bits) => add_after_end(out, form, bits, who),
    }
}

/// Adds the line of what goes on after a block that was not taken, or its object.
pub fn add_goes_on<S: Sink>(out: &mut Counted<'_, S>, form: Form, block: usize, who: Party)
    ensures { Adds out.old out.new (goes_on_text form block who) }
{
    let cells = [
        named("remark", "goes-on"),
        in_section("7.1"),
        cell!(both "  goes on after block ", "block", Value::One(Piece::Decimal(block as u64))),
        cell!(line ", which was not taken,", Value::Nothing),
        who_cell(who),
        initiator_cell(who),
        follower_cell(who),
    ];
    add_remark(out, form, &cells);
}

/// Adds the line of a cause, or its object.
pub fn add_cause<S: Sink>(out: &mut Counted<'_, S>, form: Form, cause: Cause)
    ensures { Adds out.old out.new (cause_text form cause) }
{
    let cells = [
        named("note", cause_name(cause)),
        in_section(cause_section(cause)),
        cell!(line cause_words(cause), Value::Nothing),
    ];
    add_record(out, form, "note", &cells);
}
