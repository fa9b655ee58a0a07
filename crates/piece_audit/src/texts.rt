//! Lines and objects of a piece.
ghost use Rattle.std.specs.Prelude.{◌≡◌};
ghost use Rattle.text_core.specs.Adds.{Adds};
ghost use Rattle.audit_pieces.specs.Pieces.{piece_of};
ghost use Rattle.audit_judged.specs.Widths.{remark_for};
ghost use Rattle.piece_audit.specs.Texts.{goes_on_part, line_text, piece_text, said_part, said_text, untaken_text, width_part, widths_text};

use crate::reading::reading_of;
use audit_judged::{
    Party, Said, WidthKind, WidthRemark, ending_party, goes_on_after, initiator_of, said_of,
    width_remark,
};
use audit_pieces::{Piece, Slot};
use piece_notes::{add_cause, add_ending, add_goes_on, add_width};
use reading_record::add_reading_with;
use record_core::Form;
use text_core::{Counted, Sink};

/// What the object of a reading is called.
const READING: &str = "reading";

fn add_line<S: Sink>(out: &mut Counted<'_, S>, form: Form, piece: &Piece)
    ensures { Adds out.old out.new (line_text form (piece_of piece.now)) }
{
    let reading = reading_of(piece);
    add_reading_with(out, form, READING, &reading, &[]);
}

fn add_width_part<S: Sink>(out: &mut Counted<'_, S>, form: Form, remark: Option<WidthRemark>)
    ensures { Adds out.old out.new (width_part form remark) }
{
    match remark {
        None => {}
        Some(remark) => add_width(out, form, remark),
    }
}

fn add_kind<S: Sink>(
    out: &mut Counted<'_, S>,
    form: Form,
    grid: u64,
    piece: &Piece,
    kind: WidthKind,
)
    ensures { Adds out.old out.new (width_part form (remark_for grid (piece_of piece.now) kind)) }
{
    add_width_part(out, form, width_remark(grid, piece, kind));
}

fn add_widths<S: Sink>(out: &mut Counted<'_, S>, form: Form, grid: u64, piece: &Piece)
    ensures { Adds out.old out.new (widths_text form grid (piece_of piece.now)) }
{
    add_kind(out, form, grid, piece, WidthKind::StartLow);
    add_kind(out, form, grid, piece, WidthKind::StartTotal);
    add_kind(out, form, grid, piece, WidthKind::ZeroLow);
    add_kind(out, form, grid, piece, WidthKind::OneLow);
    add_kind(out, form, grid, piece, WidthKind::AckLow);
    add_kind(out, form, grid, piece, WidthKind::LongAck);
    add_kind(out, form, grid, piece, WidthKind::LateAck);
    add_kind(out, form, grid, piece, WidthKind::BitTotal);
}

fn add_said_part<S: Sink>(out: &mut Counted<'_, S>, form: Form, slots: &[Slot], said: Said)
    ensures { Adds out.old out.new (said_part form slots.now said) }
{
    match said {
        Said::Nothing => {}
        Said::Allowed(cause) => add_cause(out, form, cause),
        Said::Remarked(remark) => add_ending(out, form, remark, ending_party(slots, remark)),
    }
}

fn add_said<S: Sink>(out: &mut Counted<'_, S>, form: Form, piece: &Piece)
    ensures { Adds out.old out.new (said_text form (piece_of piece.now)) }
{
    add_said_part(out, form, piece.parts.slots.as_slice(), said_of(piece));
}

fn add_goes_on_part<S: Sink>(
    out: &mut Counted<'_, S>,
    form: Form,
    slots: &[Slot],
    block: Option<usize>,
)
    ensures { Adds out.old out.new (goes_on_part form slots.now block) }
{
    match block {
        None => {}
        Some(block) => add_goes_on(out, form, block, Party::Initiator(initiator_of(slots))),
    }
}

fn add_untaken<S: Sink>(out: &mut Counted<'_, S>, form: Form, piece: &Piece)
    ensures { Adds out.old out.new (untaken_text form (piece_of piece.now)) }
{
    add_goes_on_part(
        out,
        form,
        piece.parts.slots.as_slice(),
        goes_on_after(piece),
    );
}

/// Adds the line of a piece as that of a reading, and below it a line for each kind of widths that are out of their windows by as much
/// as `grid` microseconds at least, for what is said of its ending, and for a block that was not taken, after which it goes on; or
/// their objects.
pub fn add_piece<S: Sink>(out: &mut Counted<'_, S>, form: Form, grid: u64, piece: &Piece)
    ensures { Adds out.old out.new (piece_text form grid (piece_of piece.now)) }
{
    add_line(out, form, piece);
    add_widths(out, form, grid, piece);
    add_said(out, form, piece);
    add_untaken(out, form, piece);
}
