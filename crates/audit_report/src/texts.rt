//! The lines of a report, and their objects.
ghost use Rattle.std.specs.Prelude.{◌≡◌, ◌+◌, ◌∷◌, ◌≤◌, None, Some, codes, length};
ghost use Rattle.text_core.specs.Adds.{Adds};
ghost use Rattle.record_core.specs.Records.{record_text};
ghost use Rattle.audit_notes.specs.declared.note.SpreadKind.TheVariants as spreads;
ghost use Rattle.audit_notes.specs.Notes.{spread_name};
ghost use Rattle.line_frames.specs.declared.free_time.FreeTime.TheVariants as times;
ghost use Rattle.audit_report.specs.Texts.{answers_cells, answers_text, count_text, counts_text, due_name, frames_cells, frames_text, free_cells, free_text, free_times_text, has_answers, has_counts, has_frames, has_free, has_widths, head_text, is_told, mean_of, named_head, others_text, own_text, remark_cells, row_lines, row_text, rows_text, spread_cells, spread_text, unknown_head, who_at};

use crate::kinds::KindCount;
use crate::row::{FreeColumn, FreeTimes, Row};
use audit_contents::{Contents, add_contents};
use audit_notes::SpreadKind;
use audit_remarks::FrameCount;
use audit_widths::Spread;
use line_frames::FreeTime;
use record_core::{Form, Value, add_record, cells};
use text_core::{Counted, Piece, Sink};

// ---- heads

fn add_named_head<S: Sink>(out: &mut Counted<'_, S>, form: Form, address: u8)
    ensures { Adds out.old out.new (record_text form (codes "address") (named_head address)) }
{
    let cells = cells![both(
        "address ",
        "logical_address",
        Value::One(Piece::NibbleOrDash(Some(address)))
    )];
    add_record(out, form, "address", &cells);
}

fn add_unknown_head<S: Sink>(out: &mut Counted<'_, S>, form: Form)
    ensures { Adds out.old out.new (record_text form (codes "address") unknown_head) }
{
    let cells = cells![
        line("unknown", Value::Nothing),
        hidden("logical_address", Value::One(Piece::NibbleOrDash(None))),
    ];
    add_record(out, form, "address", &cells);
}

fn add_head<S: Sink>(out: &mut Counted<'_, S>, form: Form, who: Option<u8>)
    ensures { Adds out.old out.new (head_text form who) }
{
    match who {
        Some(address) => add_named_head(out, form, address),
        None => add_unknown_head(out, form),
    }
}

// ---- frames

fn has_frames(row: &Row) -> bool
    ensures { result ≡ has_frames row.now }
{
    row.frames.taken != 0 || row.frames.untaken != 0 || row.frames.broken != 0 || row.past != 0
}

fn add_frame_count<S: Sink>(
    out: &mut Counted<'_, S>,
    form: Form,
    who: Option<u8>,
    frames: FrameCount,
    past: u64,
)
    ensures { Adds out.old out.new (record_text form (codes "frames") (frames_cells who frames past)) }
{
    let cells = cells![
        hidden("logical_address", Value::One(Piece::NibbleOrDash(who))),
        both(
            "  frames ",
            "taken",
            Value::One(Piece::Decimal(frames.taken))
        ),
        both(
            " taken, ",
            "not_taken",
            Value::One(Piece::Decimal(frames.untaken))
        ),
        both(
            " not taken, ",
            "broken",
            Value::One(Piece::Decimal(frames.broken))
        ),
        both(" broken, ", "past", Value::One(Piece::Decimal(past))),
        line(" past the sixth attempt", Value::Nothing),
    ];
    add_record(out, form, "frames", &cells);
}

fn add_frames<S: Sink>(out: &mut Counted<'_, S>, form: Form, who: Option<u8>, row: &Row)
    ensures { Adds out.old out.new (frames_text form who row.now) }
{
    if has_frames(row) {
        add_frame_count(out, form, who, row.frames, row.past);
    }
}

// ---- widths

// The mean, rounded down.
fn mean_of(spread: Spread) -> u64
    ensures { result ≡ mean_of spread }
{
    if spread.count == 0 {
        return 0;
    }
    spread.sum / spread.count
}

fn add_spread_cells<S: Sink>(
    out: &mut Counted<'_, S>,
    form: Form,
    who: Option<u8>,
    kind: &str,
    spread: Spread,
    mean: u64,
    outs: u64,
)
    ensures { Adds out.old out.new (record_text form (codes "spread") (spread_cells who kind.now spread mean outs)) }
{
    let cells = cells![
        hidden("logical_address", Value::One(Piece::NibbleOrDash(who))),
        both("  ", "kind", Value::One(Piece::Text(kind))),
        both(" ", "least", Value::One(Piece::Decimal(spread.least))),
        both(
            "..",
            "greatest",
            Value::One(Piece::Decimal(spread.greatest))
        ),
        both(" mean ", "mean", Value::One(Piece::Decimal(mean))),
        both(" of ", "count", Value::One(Piece::Decimal(spread.count))),
        both(", ", "out", Value::One(Piece::Decimal(outs))),
        line(" out", Value::Nothing),
    ];
    add_record(out, form, "spread", &cells);
}

fn add_spread<S: Sink>(
    out: &mut Counted<'_, S>,
    form: Form,
    who: Option<u8>,
    kind: &str,
    spread: Spread,
    outs: u64,
)
    ensures { Adds out.old out.new (spread_text form who kind.now spread outs) }
{
    if spread.count != 0 {
        add_spread_cells(out, form, who, kind, spread, mean_of(spread), outs);
    }
}

fn add_own<S: Sink>(out: &mut Counted<'_, S>, form: Form, who: Option<u8>, row: &Row)
    ensures { Adds out.old out.new (own_text form who row.now) }
{
    let widths = row.widths;
    let outs = row.outs;
    let start_low = SpreadKind::StartLow.name();
    let start_total = SpreadKind::StartTotal.name();
    add_spread(out, form, who, start_low, widths.start_low, outs.start_low);
    add_spread(
        out,
        form,
        who,
        start_total,
        widths.start_total,
        outs.start_total,
    );
    add_spread(
        out,
        form,
        who,
        SpreadKind::OneLow.name(),
        widths.one_low,
        outs.one_low,
    );
    add_spread(
        out,
        form,
        who,
        SpreadKind::ZeroLow.name(),
        widths.zero_low,
        outs.zero_low,
    );
    add_spread(
        out,
        form,
        who,
        SpreadKind::BitTotal.name(),
        widths.total,
        outs.total,
    );
    add_spread(out, form, who, "ack low", row.acks.zero_low, outs.ack_low);
}

// ---- free times

// What a free time is called that is due so.
fn due_name(due: FreeTime) -> &'static str
    ensures { result.now ≡ due_name due }
{
    match due {
        FreeTime::Retry => "retry",
        FreeTime::NewInitiator => "new-initiator",
        FreeTime::PresentInitiator => "present-initiator",
    }
}

fn add_free_cells<S: Sink>(
    out: &mut Counted<'_, S>,
    form: Form,
    who: Option<u8>,
    kind: &str,
    due: u64,
    column: FreeColumn,
)
    ensures { Adds out.old out.new (record_text form (codes "free") (free_cells who kind.now due column)) }
{
    let cells = cells![
        hidden("logical_address", Value::One(Piece::NibbleOrDash(who))),
        both("  free ", "kind", Value::One(Piece::Text(kind))),
        both(" ", "least", Value::One(Piece::Decimal(column.taken.least))),
        both(
            " of ",
            "count",
            Value::One(Piece::Decimal(column.taken.count))
        ),
        both(", ", "short", Value::One(Piece::Decimal(column.short))),
        both(" before ", "due", Value::One(Piece::Decimal(due))),
    ];
    add_record(out, form, "free", &cells);
}

fn add_free<S: Sink>(
    out: &mut Counted<'_, S>,
    form: Form,
    who: Option<u8>,
    due: FreeTime,
    column: FreeColumn,
)
    ensures { Adds out.old out.new (free_text form who due column) }
{
    if column.taken.count != 0 {
        add_free_cells(out, form, who, due_name(due), due.micros(), column);
    }
}

fn add_free_times<S: Sink>(out: &mut Counted<'_, S>, form: Form, who: Option<u8>, free: FreeTimes)
    ensures { Adds out.old out.new (free_times_text form who free) }
{
    add_free(out, form, who, FreeTime::Retry, free.retry);
    add_free(out, form, who, FreeTime::NewInitiator, free.new_initiator);
    add_free(
        out,
        form,
        who,
        FreeTime::PresentInitiator,
        free.present_initiator,
    );
}

// ---- answers

fn add_answer_cells<S: Sink>(
    out: &mut Counted<'_, S>,
    form: Form,
    who: Option<u8>,
    answers: Spread,
    mean: u64,
    late: u64,
    missing: u64,
)
    ensures { Adds out.old out.new (record_text form (codes "answers") (answers_cells who answers mean late missing)) }
{
    let cells = cells![
        hidden("logical_address", Value::One(Piece::NibbleOrDash(who))),
        both(
            "  answers ",
            "least",
            Value::One(Piece::Decimal(answers.least))
        ),
        both(
            "..",
            "greatest",
            Value::One(Piece::Decimal(answers.greatest))
        ),
        both(" mean ", "mean", Value::One(Piece::Decimal(mean))),
        both(" of ", "count", Value::One(Piece::Decimal(answers.count))),
        both(", ", "late", Value::One(Piece::Decimal(late))),
        both(" late, ", "missing", Value::One(Piece::Decimal(missing))),
        line(" missing", Value::Nothing),
    ];
    add_record(out, form, "answers", &cells);
}

fn has_answers(row: &Row) -> bool
    ensures { result ≡ has_answers row.now }
{
    row.answers.count != 0 || row.missing != 0
}

fn add_answers<S: Sink>(out: &mut Counted<'_, S>, form: Form, who: Option<u8>, row: &Row)
    ensures { Adds out.old out.new (answers_text form who row.now) }
{
    if has_answers(row) {
        let mean = mean_of(row.answers);
        add_answer_cells(out, form, who, row.answers, mean, row.late, row.missing);
    }
}

// ---- remarks

fn add_remark<'a, S: Sink>(
    out: &mut Counted<'_, S>,
    form: Form,
    who: Option<u8>,
    name: &'a str,
    section: &'a str,
    count: u64,
)
    ensures { Adds out.old out.new (record_text form (codes "charge") (remark_cells who name.now section.now count)) }
{
    let cells = cells![
        hidden("logical_address", Value::One(Piece::NibbleOrDash(who))),
        both("  ", "remark", Value::One(Piece::Text(name))),
        both(" ", "count", Value::One(Piece::Decimal(count))),
        both(" by ", "section", Value::One(Piece::Text(section))),
    ];
    add_record(out, form, "charge", &cells);
}

fn add_count<S: Sink>(out: &mut Counted<'_, S>, form: Form, who: Option<u8>, count: KindCount)
    ensures { Adds out.old out.new (count_text form who count) }
{
    if count.count != 0 {
        let kind = count.kind;
        add_remark(out, form, who, kind.name(), kind.section(), count.count);
    }
}

fn add_counts<S: Sink>(out: &mut Counted<'_, S>, form: Form, who: Option<u8>, counts: &[KindCount])
    ensures { Adds out.old out.new (counts_text form who counts.now) }
{
    let [count, counts @ ..] = counts else {
        return;
    };
    add_count(out, form, who, *count);
    add_counts(out, form, who, counts);
}

// ---- rows

fn has_counts(counts: &[KindCount]) -> bool
    ensures { result ≡ has_counts counts.now }
{
    let [count, counts @ ..] = counts else {
        return false;
    };
    count.count != 0 || has_counts(counts)
}

fn has_widths(row: &Row) -> bool
    ensures { result ≡ has_widths row.now }
{
    row.widths.start_low.count != 0
        || row.widths.start_total.count != 0
        || row.widths.one_low.count != 0
        || row.widths.zero_low.count != 0
        || row.widths.total.count != 0
        || row.acks.zero_low.count != 0
}

fn has_free(free: FreeTimes) -> bool
    ensures { result ≡ has_free free }
{
    free.retry.taken.count != 0
        || free.new_initiator.taken.count != 0
        || free.present_initiator.taken.count != 0
}

// Whether a line is written of a row.
fn is_told(row: &Row) -> bool
    ensures { result ≡ is_told row.now }
{
    has_frames(row)
        || has_widths(row)
        || has_free(row.free)
        || has_answers(row)
        || has_counts(&row.remarks)
}

// All but its head and its widths.
fn add_others<S: Sink>(
    out: &mut Counted<'_, S>,
    form: Form,
    contents: &Contents,
    who: Option<u8>,
    row: &Row,
)
    ensures { Adds out.old out.new (others_text form contents.now who row.now) }
{
    add_free_times(out, form, who, row.free);
    add_answers(out, form, who, row);
    add_counts(out, form, who, &row.remarks);
    add_contents(out, form, who, contents);
}

fn add_row_lines<S: Sink>(
    out: &mut Counted<'_, S>,
    form: Form,
    contents: &Contents,
    who: Option<u8>,
    row: &Row,
)
    ensures { Adds out.old out.new (row_lines form contents.now who row.now) }
{
    add_head(out, form, who);
    add_frames(out, form, who, row);
    add_own(out, form, who, row);
    add_others(out, form, contents, who, row);
}

fn add_row<S: Sink>(
    out: &mut Counted<'_, S>,
    form: Form,
    contents: &Contents,
    who: Option<u8>,
    row: &Row,
)
    ensures { Adds out.old out.new (row_text form contents.now who row.now) }
{
    if is_told(row) {
        add_row_lines(out, form, contents, who, row);
    }
}

// Whose row has this number.
fn who_at(number: u8) -> Option<u8>
    ensures { result ≡ who_at number }
{
    if number < 16 { Some(number) } else { None }
}

/// Adds the rows from one on, each under its head, of which something is told, with what the devices say.
pub(crate) fn add_rows<S: Sink>(
    out: &mut Counted<'_, S>,
    form: Form,
    contents: &Contents,
    number: u8,
    rows: &[Row],
)
    requires { number + length rows.now ≤ 17 }
    ensures { Adds out.old out.new (rows_text form contents.now number rows.now) }
{
    let [row, rows @ ..] = rows else {
        return;
    };
    add_row(out, form, contents, who_at(number), row);
    add_rows(out, form, contents, number + 1, rows);
}
