//! The lines below readings as records, one function a kind.
ghost use Rattle.std.specs.Prelude.{◌≡◌, ◌<◌, ◌∷◌, None, map};
ghost use Rattle.text_core.specs.Adds.{Adds};
ghost use Rattle.record_core.specs.Cells.{plain_of};
ghost use Rattle.record_core.specs.Records.{record_text};
ghost use Rattle.audit_notes.specs.declared.kind.NoteKind.TheVariants as kinds;
ghost use Rattle.audit_notes.specs.Kinds.{type_of};
ghost use Rattle.audit_notes.specs.Notes.{answered_cells, attempt_kind, bad_drive_cells, bit_cells, claim_cells, count_cells, drive_cells, failure_cells, good_drive_cells, head_cells, header_cells, in_section, kind_text, limit_cell, misfit_cells, misfit_kind, missing_cells, moved_cells, named, named_opcode, note_text, opcode_cell, receivers_cells, receivers_words, request_cells, series_cells, soon_cells, spread_cells, start_cells, unfinished_cells, verdict_lead, verdict_name, width_lead, within_cells, word_cells, word_text};

use crate::kind::NoteKind;
use crate::note::{ATTEMPTS, AuditNote, SpreadKind, WidthSummary, attempt_kind, misfit_kind};
use audit_remarks::{
    BadStartSeries, Failure, FrameCount, FrameHead, Mention, Missing, Receivers, Request, TooSoon,
};
use audit_widths::{DRIVE, Misfit, SlotWidth};
use message_text::opcode_text;
use piece_notes::{add_cause, add_ending, add_goes_on};
use record_core::{Cell, Form, Value, add_record, cell};
use text_core::{Counted, Phys, Piece, Sink};

/// The longest time for an answer, in microseconds: a second (CEC 9.2).
const LONGEST_ANSWER: u64 = 1_000_000;

// What the object has first of a remark or a note: what it is called.
fn named(kind: NoteKind) -> Cell<'static>
    ensures { plain_of result ≡ named kind }
{
    cell!(hidden kind.object(), Value::One(Piece::Text(kind.name())))
}

// And the section of the standard that it goes by.
fn in_section(kind: NoteKind) -> Cell<'static>
    ensures { plain_of result ≡ in_section kind }
{
    cell!(hidden "section", Value::One(Piece::Text(kind.section())))
}

// Adds a record of a kind.
fn add_kind<S: Sink>(out: &mut Counted<'_, S>, form: Form, kind: NoteKind, cells: &[Cell])
    ensures { Adds out.old out.new (record_text form (type_of kind) (map plain_of cells.now)) }
{
    add_record(out, form, kind.object(), cells);
}

fn add_series<S: Sink>(out: &mut Counted<'_, S>, form: Form, series: BadStartSeries)
    ensures { Adds out.old out.new (kind_text form kinds.BadStarts (series_cells series)) }
{
    let kind = NoteKind::BadStarts;
    let cells = [
        named(kind),
        in_section(kind),
        cell!(both "  after ", "count", Value::One(Piece::Decimal(series.count))),
        cell!(both " bad-start since ", "since", Value::One(Piece::Decimal(series.since))),
    ];
    add_kind(out, form, kind, &cells);
}

fn add_request<S: Sink>(out: &mut Counted<'_, S>, form: Form, request: Request)
    ensures { Adds out.old out.new (kind_text form kinds.NoAnswer (request_cells request)) }
{
    let kind = NoteKind::NoAnswer;
    let cells = [
        named(kind),
        in_section(kind),
        cell!(both "  no answer to ", "initiator", Value::One(Piece::Nibble(request.initiator))),
        cell!(both ">", "destination", Value::One(Piece::Nibble(request.destination))),
        cell!(both " ", "opcode", Value::One(Piece::HexByte(request.opcode))),
        cell!(both " of ", "at", Value::One(Piece::Decimal(request.since))),
    ];
    add_kind(out, form, kind, &cells);
}

fn add_answered<S: Sink>(out: &mut Counted<'_, S>, form: Form, wait: u64)
    ensures { Adds out.old out.new (kind_text form kinds.LateAnswer (answered_cells wait)) }
{
    let kind = NoteKind::LateAnswer;
    let cells = [
        named(kind),
        in_section(kind),
        cell!(both "  answered after ", "wait", Value::One(Piece::Decimal(wait))),
        cell!(both ", at most ", "most", Value::One(Piece::Decimal(LONGEST_ANSWER))),
    ];
    add_kind(out, form, kind, &cells);
}

fn add_soon<S: Sink>(out: &mut Counted<'_, S>, form: Form, soon: TooSoon)
    ensures { Adds out.old out.new (kind_text form kinds.Free (soon_cells soon)) }
{
    let kind = NoteKind::Free;
    let cells = [
        named(kind),
        in_section(kind),
        cell!(both "  free ", "width", Value::One(Piece::Decimal(soon.free))),
        cell!(both " of ", "due", Value::One(Piece::Decimal(soon.due))),
    ];
    add_kind(out, form, kind, &cells);
}

// What stands before a width.
fn width_lead(kind: SlotWidth) -> &'static str
    ensures { result.now ≡ width_lead kind }
{
    match kind {
        SlotWidth::Low => " low ",
        SlotWidth::Total => " total ",
    }
}

fn add_start<S: Sink>(out: &mut Counted<'_, S>, form: Form, kind: NoteKind, misfit: Misfit)
    ensures { Adds out.old out.new (record_text form (type_of kind) (named kind ∷ in_section kind ∷ start_cells misfit)) }
{
    let cells = [
        named(kind),
        in_section(kind),
        cell!(line "  start", Value::Nothing),
        cell!(both width_lead(misfit.kind), "width", Value::One(Piece::Decimal(misfit.micros))),
        cell!(both " not ", "least", Value::One(Piece::Decimal(misfit.window.least))),
        cell!(both "..", "most", Value::One(Piece::Decimal(misfit.window.greatest))),
    ];
    add_kind(out, form, kind, &cells);
}

fn add_bit<S: Sink>(out: &mut Counted<'_, S>, form: Form, kind: NoteKind, misfit: Misfit)
    requires { 0 < misfit.slot }
    ensures { Adds out.old out.new (record_text form (type_of kind) (named kind ∷ in_section kind ∷ bit_cells misfit)) }
{
    let before = misfit.slot - 1;
    let cells = [
        named(kind),
        in_section(kind),
        cell!(both "  slot ", "slot", Value::One(Piece::Decimal(misfit.slot))),
        cell!(both " block ", "block", Value::One(Piece::Decimal(before / 10 + 1))),
        cell!(both " bit ", "bit", Value::One(Piece::Decimal(before % 10 + 1))),
        cell!(both width_lead(misfit.kind), "width", Value::One(Piece::Decimal(misfit.micros))),
        cell!(both " not ", "least", Value::One(Piece::Decimal(misfit.window.least))),
        cell!(both "..", "most", Value::One(Piece::Decimal(misfit.window.greatest))),
    ];
    add_kind(out, form, kind, &cells);
}

// The first slot is 0, the start bit.
fn add_misfit<S: Sink>(out: &mut Counted<'_, S>, form: Form, misfit: Misfit)
    ensures { Adds out.old out.new (kind_text form (misfit_kind misfit) (misfit_cells misfit)) }
{
    let kind = misfit_kind(misfit);
    if misfit.slot == 0 {
        add_start(out, form, kind, misfit);
    } else {
        add_bit(out, form, kind, misfit);
    }
}

fn add_good_drive<S: Sink>(out: &mut Counted<'_, S>, form: Form, width: u64)
    ensures { Adds out.old out.new (kind_text form kinds.LowDrive (good_drive_cells width)) }
{
    let kind = NoteKind::LowDrive;
    let cells = [
        named(kind),
        in_section(kind),
        cell!(both "  low drive ", "width", Value::One(Piece::Decimal(width))),
        cell!(hidden "least", Value::Nothing),
        cell!(hidden "most", Value::Nothing),
    ];
    add_kind(out, form, kind, &cells);
}

fn add_bad_drive<S: Sink>(out: &mut Counted<'_, S>, form: Form, width: u64)
    ensures { Adds out.old out.new (kind_text form kinds.LowDrive (bad_drive_cells width)) }
{
    let kind = NoteKind::LowDrive;
    let cells = [
        named(kind),
        in_section(kind),
        cell!(both "  low drive ", "width", Value::One(Piece::Decimal(width))),
        cell!(both " not ", "least", Value::One(Piece::Decimal(DRIVE.least))),
        cell!(both "..", "most", Value::One(Piece::Decimal(DRIVE.greatest))),
    ];
    add_kind(out, form, kind, &cells);
}

// A low drive, which is in its window or out of it.
fn add_drive<S: Sink>(out: &mut Counted<'_, S>, form: Form, width: u64)
    ensures { Adds out.old out.new (kind_text form kinds.LowDrive (drive_cells width)) }
{
    if DRIVE.fits(width) {
        add_good_drive(out, form, width);
    } else {
        add_bad_drive(out, form, width);
    }
}

fn add_within<S: Sink>(out: &mut Counted<'_, S>, form: Form, width: u64)
    ensures { Adds out.old out.new (kind_text form kinds.DriveWithin (within_cells width)) }
{
    let kind = NoteKind::DriveWithin;
    let cells = [
        named(kind),
        in_section(kind),
        cell!(both "  low drive for ", "width", Value::One(Piece::Decimal(width))),
    ];
    add_kind(out, form, kind, &cells);
}

fn add_unfinished<S: Sink>(out: &mut Counted<'_, S>, form: Form, block: usize)
    ensures { Adds out.old out.new (kind_text form kinds.Unfinished (unfinished_cells block)) }
{
    let kind = NoteKind::Unfinished;
    let cells = [
        named(kind),
        in_section(kind),
        cell!(both "  ends after block ", "block", Value::One(Piece::Decimal(block as u64))),
        cell!(line " without EOM", Value::Nothing),
    ];
    add_kind(out, form, kind, &cells);
}

fn verdict_name(refused: bool) -> &'static str
    ensures { result.now ≡ verdict_name refused }
{
    if refused { "refused" } else { "nack" }
}

fn verdict_lead(refused: bool) -> &'static str
    ensures { result.now ≡ verdict_lead refused }
{
    if refused {
        " refused, attempt "
    } else {
        " not acknowledged, attempt "
    }
}

// The limit of attempts, where it is passed.
fn limit_cell(attempt: u64) -> Cell<'static>
    ensures { plain_of result ≡ limit_cell attempt }
{
    if ATTEMPTS < attempt {
        cell!(both " of at most ", "most", Value::One(Piece::Decimal(ATTEMPTS)))
    } else {
        cell!(hidden "most", Value::Nothing)
    }
}

fn add_failure<S: Sink>(out: &mut Counted<'_, S>, form: Form, kind: NoteKind, failure: Failure)
    ensures { Adds out.old out.new (record_text form (type_of kind) (named kind ∷ in_section kind ∷ failure_cells failure)) }
{
    let cells = [
        named(kind),
        in_section(kind),
        cell!(both "  block ", "block", Value::One(Piece::Decimal(failure.block as u64))),
        cell!(hidden "verdict", Value::One(Piece::Text(verdict_name(failure.refused)))),
        cell!(both verdict_lead(failure.refused), "attempt", Value::One(Piece::Decimal(failure.attempt))),
        limit_cell(failure.attempt),
    ];
    add_kind(out, form, kind, &cells);
}

// A block that was not taken, of the kind that its attempt has.
fn add_attempt<S: Sink>(out: &mut Counted<'_, S>, form: Form, failure: Failure)
    ensures { Adds out.old out.new (kind_text form (attempt_kind failure) (failure_cells failure)) }
{
    add_failure(out, form, attempt_kind(failure), failure);
}

fn add_moved<S: Sink>(out: &mut Counted<'_, S>, form: Form, initiator: u8, before: Phys)
    ensures { Adds out.old out.new (kind_text form kinds.Moved (moved_cells initiator before)) }
{
    let kind = NoteKind::Moved;
    let cells = [
        named(kind),
        in_section(kind),
        cell!(both "  ", "initiator", Value::One(Piece::Nibble(initiator))),
        cell!(both " reported ", "before", Value::One(Piece::Phys(before))),
        cell!(line " before", Value::Nothing),
    ];
    add_kind(out, form, kind, &cells);
}

fn receivers_words(receivers: Receivers) -> &'static str
    ensures { result.now ≡ receivers_words receivers }
{
    match receivers {
        Receivers::OneDevice => "  to all, only for one device",
        Receivers::AllDevices => "  to one device, only for all",
    }
}

fn add_receivers<S: Sink>(out: &mut Counted<'_, S>, form: Form, receivers: Receivers)
    ensures { Adds out.old out.new (kind_text form kinds.Receivers (receivers_cells receivers)) }
{
    let kind = NoteKind::Receivers;
    let cells = [
        named(kind),
        in_section(kind),
        cell!(line receivers_words(receivers), Value::Nothing),
    ];
    add_kind(out, form, kind, &cells);
}

fn add_missing<S: Sink>(out: &mut Counted<'_, S>, form: Form, missing: Missing)
    ensures { Adds out.old out.new (kind_text form kinds.Operands (missing_cells missing)) }
{
    let kind = NoteKind::Operands;
    let cells = [
        named(kind),
        in_section(kind),
        cell!(both "  operands ", "count", Value::One(Piece::Decimal(missing.count as u64))),
        cell!(both ", at least ", "least", Value::One(Piece::Decimal(missing.least as u64))),
    ];
    add_kind(out, form, kind, &cells);
}

fn add_claim<S: Sink>(out: &mut Counted<'_, S>, form: Form, claim: Mention)
    ensures { Adds out.old out.new (kind_text form kinds.Unreported (claim_cells claim)) }
{
    let kind = NoteKind::Unreported;
    let cells = [
        named(kind),
        in_section(kind),
        cell!(both "  nobody reported ", "address", Value::One(Piece::Phys(claim.phys))),
        cell!(both " of ", "at", Value::One(Piece::Decimal(claim.since))),
    ];
    add_kind(out, form, kind, &cells);
}

fn add_poll_head<S: Sink>(out: &mut Counted<'_, S>, form: Form, head: FrameHead)
    ensures { Adds out.old out.new (kind_text form kinds.Read (header_cells head (opcode_cell None))) }
{
    let kind = NoteKind::Read;
    let cells = [
        named(kind),
        in_section(kind),
        cell!(both "  read ", "initiator", Value::One(Piece::Nibble(head.initiator))),
        cell!(both ">", "destination", Value::One(Piece::Nibble(head.destination))),
        cell!(hidden "opcode", Value::Nothing),
    ];
    add_kind(out, form, kind, &cells);
}

fn add_message_head<S: Sink>(out: &mut Counted<'_, S>, form: Form, head: FrameHead, name: &[u8])
    ensures { Adds out.old out.new (kind_text form kinds.Read (header_cells head (named_opcode name.now))) }
{
    let kind = NoteKind::Read;
    let cells = [
        named(kind),
        in_section(kind),
        cell!(both "  read ", "initiator", Value::One(Piece::Nibble(head.initiator))),
        cell!(both ">", "destination", Value::One(Piece::Nibble(head.destination))),
        cell!(both " ", "opcode", Value::One(Piece::Bytes(name))),
    ];
    add_kind(out, form, kind, &cells);
}

// The header of a frame, and its opcode where that was read.
fn add_head<S: Sink>(out: &mut Counted<'_, S>, form: Form, head: FrameHead)
    ensures { Adds out.old out.new (kind_text form kinds.Read (head_cells head)) }
{
    match head.opcode {
        None => add_poll_head(out, form, head),
        Some(opcode) => add_message_head(out, form, head, &opcode_text(opcode)),
    }
}

fn add_summary<S: Sink>(out: &mut Counted<'_, S>, form: Form)
    ensures { Adds out.old out.new (note_text form AuditNote.Summary) }
{
    add_kind(
        out,
        form,
        NoteKind::Summary,
        &[cell!(line "  all readings", Value::Nothing)],
    );
}

fn add_count<S: Sink>(out: &mut Counted<'_, S>, form: Form, initiator: u8, count: FrameCount)
    ensures { Adds out.old out.new (kind_text form kinds.Sender (count_cells initiator count)) }
{
    let cells = [
        cell!(both "  from ", "initiator", Value::One(Piece::Nibble(initiator))),
        cell!(both ": ", "taken", Value::One(Piece::Decimal(count.taken))),
        cell!(both " taken, ", "not_taken", Value::One(Piece::Decimal(count.untaken))),
        cell!(both " not taken, ", "broken", Value::One(Piece::Decimal(count.broken))),
        cell!(line " broken", Value::Nothing),
    ];
    add_kind(out, form, NoteKind::Sender, &cells);
}

fn add_spread<S: Sink>(out: &mut Counted<'_, S>, form: Form, kind: SpreadKind, spread: WidthSummary)
    ensures { Adds out.old out.new (kind_text form kinds.Widths (spread_cells kind spread)) }
{
    let cells = [
        cell!(both "  ", "kind", Value::One(Piece::Text(kind.name()))),
        cell!(both " ", "least", Value::One(Piece::Decimal(spread.least))),
        cell!(both "..", "greatest", Value::One(Piece::Decimal(spread.greatest))),
        cell!(both " mean ", "mean", Value::One(Piece::Decimal(spread.mean))),
        cell!(both " of ", "count", Value::One(Piece::Decimal(spread.count))),
    ];
    add_kind(out, form, NoteKind::Widths, &cells);
}

/// Adds the line of what the standard calls what a line leaves as bytes, or its object.
pub(crate) fn add_word<S: Sink>(out: &mut Counted<'_, S>, form: Form, word: &str)
    ensures { Adds out.old out.new (word_text form word.now) }
{
    let kind = NoteKind::Word;
    let cells = [
        named(kind),
        in_section(kind),
        cell!(both "  # ", "word", Value::One(Piece::Text(word))),
    ];
    add_kind(out, form, kind, &cells);
}

/// Adds the line of a note, or its object.
pub(crate) fn add_note<S: Sink>(out: &mut Counted<'_, S>, form: Form, note: AuditNote)
    ensures { Adds out.old out.new (note_text form note) }
{
    match note {
        AuditNote::BadStarts(series) => add_series(out, form, series),
        AuditNote::NoAnswer(request) => add_request(out, form, request),
        AuditNote::LateAnswer(wait) => add_answered(out, form, wait),
        AuditNote::Free(soon) => add_soon(out, form, soon),
        AuditNote::Misfit(misfit) => add_misfit(out, form, misfit),
        AuditNote::LowDrive(width) => add_drive(out, form, width),
        AuditNote::DriveWithin(width) => add_within(out, form, width),
        AuditNote::Unfinished(block) => add_unfinished(out, form, block),
        AuditNote::Attempt(failure) => add_attempt(out, form, failure),
        AuditNote::GoesOn(block, who) => add_goes_on(out, form, block, who),
        AuditNote::Ending(remark, who) => add_ending(out, form, remark, who),
        AuditNote::Cause(cause) => add_cause(out, form, cause),
        AuditNote::Moved(initiator, before) => add_moved(out, form, initiator, before),
        AuditNote::Receivers(receivers) => add_receivers(out, form, receivers),
        AuditNote::Operands(missing) => add_missing(out, form, missing),
        AuditNote::Unreported(claim) => add_claim(out, form, claim),
        AuditNote::Read(head) => add_head(out, form, head),
        AuditNote::Summary => add_summary(out, form),
        AuditNote::Sender(initiator, count) => add_count(out, form, initiator, count),
        AuditNote::Widths(kind, spread) => add_spread(out, form, kind, spread),
    }
}
