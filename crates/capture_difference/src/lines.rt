//! The lines of the difference of two captures, as records.
ghost use Rattle.std.specs.Prelude.{◌≡◌, is_some, map, not, option_map};
ghost use Rattle.std.specs.List.{flat_map};
ghost use Rattle.text_core.specs.Adds.{Adds};
ghost use Rattle.capture_difference.specs.Lines.{alone_text, both_text, difference_text, differs_text, first_text, head_text, only_text, pair_text, row_text, same_text, verdicts_text};
ghost use Rattle.capture_difference.specs.Rows.{difference_as, is_none_different, row_as};
ghost use Rattle.capture_frames.specs.Frames.{frame_as};

use crate::row::{FirstDifference, Row, first_difference, frame_of, is_same, place_of};
use capture_frames::CapturedFrame;
use record_core::{Form, Value, add_record, cells};
use text_core::{Counted, Piece, Sink};

// Adds a frame of both captures, by its text and its verdict.
fn add_common<'a, S: Sink>(
    out: &mut Counted<'_, S>,
    form: Form,
    first_begin: u64,
    second_begin: u64,
    text: &'a [u8],
    verdict: &'a [u8],
)
    ensures { Adds out.old out.new (both_text form first_begin second_begin text.now verdict.now) }
{
    let cells = cells![
        both(
            "in-both ",
            "first_begin",
            Value::One(Piece::Decimal(first_begin))
        ),
        both(
            " ",
            "second_begin",
            Value::One(Piece::Decimal(second_begin))
        ),
        both(" ", "frame", Value::One(Piece::Bytes(text))),
        both(" ", "verdict", Value::One(Piece::Bytes(verdict))),
    ];
    add_record(out, form, "common", &cells);
}

// Adds one that has another verdict in the second.
fn add_verdicts<'a, S: Sink>(
    out: &mut Counted<'_, S>,
    form: Form,
    first_begin: u64,
    second_begin: u64,
    text: &'a [u8],
    first_verdict: &'a [u8],
    second_verdict: &'a [u8],
)
    ensures { Adds out.old out.new (verdicts_text form first_begin second_begin text.now first_verdict.now second_verdict.now) }
{
    let cells = cells![
        both(
            "other-verdict ",
            "first_begin",
            Value::One(Piece::Decimal(first_begin))
        ),
        both(
            " ",
            "second_begin",
            Value::One(Piece::Decimal(second_begin))
        ),
        both(" ", "frame", Value::One(Piece::Bytes(text))),
        both(
            " ",
            "first_verdict",
            Value::One(Piece::Bytes(first_verdict))
        ),
        both(
            " ",
            "second_verdict",
            Value::One(Piece::Bytes(second_verdict))
        ),
    ];
    add_record(out, form, "verdicts", &cells);
}

// Adds one that a capture has alone, by its text and its verdict.
fn add_alone<'a, S: Sink>(
    out: &mut Counted<'_, S>,
    form: Form,
    place: &'a str,
    begin: u64,
    close: u64,
    text: &'a [u8],
    verdict: &'a [u8],
)
    ensures { Adds out.old out.new (alone_text form place.now begin close text.now verdict.now) }
{
    let cells = cells![
        both("", "place", Value::One(Piece::Text(place))),
        both(" ", "begin", Value::One(Piece::Decimal(begin))),
        both(" ", "close", Value::One(Piece::Decimal(close))),
        both(" ", "frame", Value::One(Piece::Bytes(text))),
        both(" ", "verdict", Value::One(Piece::Bytes(verdict))),
    ];
    add_record(out, form, "alone", &cells);
}

// Adds one that is in this capture alone.
fn add_only<S: Sink>(out: &mut Counted<'_, S>, form: Form, place: &str, frame: &CapturedFrame)
    ensures { Adds out.old out.new (only_text form place.now (frame_as frame.now)) }
{
    add_alone(
        out,
        form,
        place,
        frame.begin,
        frame.close,
        &frame.text,
        frame.verdict,
    );
}

// Adds a frame of both captures.
fn add_both<S: Sink>(
    out: &mut Counted<'_, S>,
    form: Form,
    first: &CapturedFrame,
    second: &CapturedFrame,
)
    ensures { Adds out.old out.new (pair_text form (frame_as first.now) (frame_as second.now)) }
{
    if is_same(first, second) {
        add_common(
            out,
            form,
            first.begin,
            second.begin,
            &first.text,
            first.verdict,
        );
    } else {
        add_verdicts(
            out,
            form,
            first.begin,
            second.begin,
            &first.text,
            first.verdict,
            second.verdict,
        );
    }
}

// Adds the line of a row.
fn add_row<S: Sink>(out: &mut Counted<'_, S>, form: Form, row: &Row<'_>)
    ensures { Adds out.old out.new (row_text form (row_as row.now)) }
{
    match *row {
        Row::Both(first, second) => add_both(out, form, first, second),
        Row::First(frame) => add_only(out, form, "in-first", frame),
        Row::Second(frame) => add_only(out, form, "in-second", frame),
    }
}

// Adds the lines of rows.
#[tactic(auto, using(crate::proofs::Adding::none_added, crate::proofs::Adding::all_added))]
fn add_rows<S: Sink>(out: &mut Counted<'_, S>, form: Form, rows: &[Row<'_>])
    ensures { Adds out.old out.new (flat_map (row_text form) (map row_as rows.now)) }
{
    let mut rest = rows;
    'rows: while let [row, others @ ..] = rest {
        add_row(out, form, row);
        rest = others;
    }
}

// ---- the first line

// Adds that no frame differs, of so many.
fn add_same<S: Sink>(out: &mut Counted<'_, S>, form: Form, count: u64)
    ensures { Adds out.old out.new (same_text form count) }
{
    let cells = cells![both("same-frames ", "frames", Value::One(Piece::Decimal(count)))];
    add_record(out, form, "alike", &cells);
}

// Adds where the first difference lies.
fn add_differs<'a, S: Sink>(
    out: &mut Counted<'_, S>,
    form: Form,
    common: u64,
    place: &'a str,
    begin: u64,
    text: &'a [u8],
    verdict: &'a [u8],
)
    ensures { Adds out.old out.new (differs_text form common place.now begin text.now verdict.now) }
{
    let cells = cells![
        both(
            "first-difference after ",
            "common",
            Value::One(Piece::Decimal(common))
        ),
        both(" ", "place", Value::One(Piece::Text(place))),
        both(" ", "begin", Value::One(Piece::Decimal(begin))),
        both(" ", "frame", Value::One(Piece::Bytes(text))),
        both(" ", "verdict", Value::One(Piece::Bytes(verdict))),
    ];
    add_record(out, form, "differs", &cells);
}

fn add_difference<S: Sink>(out: &mut Counted<'_, S>, form: Form, difference: &FirstDifference<'_>)
    ensures { Adds out.old out.new (first_text form (difference_as difference.now)) }
{
    let frame = frame_of(&difference.row);
    add_differs(
        out,
        form,
        difference.common,
        place_of(&difference.row),
        frame.begin,
        &frame.text,
        frame.verdict,
    );
}

// Adds the first line: what differs first, or how many frames both have.
fn add_head<S: Sink>(
    out: &mut Counted<'_, S>,
    form: Form,
    count: u64,
    first: &Option<FirstDifference<'_>>,
)
    ensures { Adds out.old out.new (head_text form count (option_map difference_as first.now)) }
{
    match first {
        None => add_same(out, form, count),
        Some(difference) => add_difference(out, form, difference),
    }
}

fn is_absent(first: &Option<FirstDifference<'_>>) -> bool
    ensures { result ≡ not (is_some (option_map difference_as first.now)) }
{
    match first {
        None => true,
        Some(_) => false,
    }
}

/// Adds the lines of two captures whose frames are laid beside each other. Returns whether none differs.
#[tactic(auto, using(text_core::proofs::Adding::then))]
pub(crate) fn add_lines<S: Sink>(out: &mut Counted<'_, S>, form: Form, rows: &[Row<'_>]) -> bool
    ensures same { result ≡ is_none_different (map row_as rows.now) }
    ensures text { Adds out.old out.new (difference_text form (map row_as rows.now)) }
{
    let first = first_difference(rows);
    add_head(out, form, rows.len() as u64, &first);
    add_rows(out, form, rows);
    is_absent(&first)
}
