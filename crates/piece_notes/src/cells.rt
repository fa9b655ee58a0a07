//! Cells whose words hang on a value.
ghost use Rattle.std.specs.Prelude.{◌≡◌};
ghost use Rattle.record_core.specs.Cells.{plain_of};
ghost use Rattle.piece_notes.specs.Notes.{cause_words, count_cell, follower_cell, initiator_cell, longest_cell, shortest_cell, slots_cell, taker_cell, who_word, width_lead};

use audit_judged::{Cause, Outs, Party, WidthKind};
use record_core::{Cell, Value, cell};
use text_core::Piece;

pub(crate) fn who_word(who: Party) -> &'static str
    ensures { result.now ≡ who_word who }
{
    match who {
        Party::Initiator(_) => "initiator",
        Party::Follower(_) => "follower",
        Party::Either(_, _) => "either",
        Party::Unknown => "unknown",
    }
}

pub(crate) fn initiator_cell(who: Party) -> Cell<'static>
    ensures { plain_of result ≡ initiator_cell who }
{
    match who {
        Party::Initiator(initiator) | Party::Either(initiator, _) => {
            cell!(both " by initiator ", "initiator", Value::One(Piece::NibbleOrDash(initiator)))
        }
        Party::Follower(_) | Party::Unknown => cell!(hidden "initiator", Value::Nothing),
    }
}

fn taker_cell(known: &'static str, unknown: &'static str, follower: Option<u8>) -> Cell<'static>
    ensures { plain_of result ≡ taker_cell known.now unknown.now follower }
{
    match follower {
        None => cell!(both unknown, "follower", Value::Nothing),
        Some(_) => cell!(both known, "follower", Value::One(Piece::NibbleOrDash(follower))),
    }
}

pub(crate) fn follower_cell(who: Party) -> Cell<'static>
    ensures { plain_of result ≡ follower_cell who }
{
    match who {
        Party::Follower(follower) => taker_cell(" by follower ", " by a follower", follower),
        Party::Either(_, follower) => taker_cell(" or follower ", " or a follower", follower),
        Party::Initiator(_) | Party::Unknown => cell!(hidden "follower", Value::Nothing),
    }
}

pub(crate) fn shortest_cell(outs: Outs) -> Cell<'static>
    ensures { plain_of result ≡ shortest_cell outs }
{
    if outs.count == 1 {
        cell!(hidden "shortest", Value::One(Piece::Decimal(outs.least)))
    } else {
        cell!(both " (", "shortest", Value::One(Piece::Decimal(outs.least)))
    }
}

pub(crate) fn longest_cell(outs: Outs) -> Cell<'static>
    ensures { plain_of result ≡ longest_cell outs }
{
    if outs.count == 1 {
        cell!(hidden "longest", Value::One(Piece::Decimal(outs.greatest)))
    } else {
        cell!(both "..", "longest", Value::One(Piece::Decimal(outs.greatest)))
    }
}

pub(crate) fn count_cell(outs: Outs) -> Cell<'static>
    ensures { plain_of result ≡ count_cell outs }
{
    if outs.count == 1 {
        cell!(hidden "count", Value::One(Piece::Decimal(outs.count)))
    } else {
        cell!(both " in ", "count", Value::One(Piece::Decimal(outs.count)))
    }
}

pub(crate) fn slots_cell(outs: Outs) -> Cell<'static>
    ensures { plain_of result ≡ slots_cell outs }
{
    if outs.count == 1 {
        cell!(line "", Value::Nothing)
    } else {
        cell!(line " slots)", Value::Nothing)
    }
}

// What stands before a width.
pub(crate) fn width_lead(kind: WidthKind) -> &'static str
    ensures { result.now ≡ width_lead kind }
{
    match kind {
        WidthKind::StartTotal | WidthKind::BitTotal => " total ",
        WidthKind::LateAck => " late ",
        WidthKind::StartLow
        | WidthKind::ZeroLow
        | WidthKind::OneLow
        | WidthKind::AckLow
        | WidthKind::LongAck => " low ",
    }
}

pub(crate) fn cause_words(cause: Cause) -> &'static str
    ensures { result.now ≡ cause_words cause }
{
    match cause {
        Cause::ArbitrationLost => "  arbitration lost",
        Cause::PollUnanswered => "  poll unanswered",
        Cause::NotAcknowledged => "  not acknowledged",
        Cause::Refused => "  refused",
        Cause::CutByTheEnd => "  cut by the end",
        Cause::MidFrame => "  begins in mid frame",
    }
}
