//! Two captures, laid beside each other.
ghost use Rattle.std.specs.Prelude.{◌≡◌, [], ◌∷◌, ◌++◌, map, drop, take, option_map, slice_get, IfOk, OnOk};
ghost use Rattle.std.specs.Option.{option_copied};
ghost use Rattle.capture_difference.specs.Aligned.{aligned, alone, met, past, up_to};
ghost use Rattle.capture_difference.specs.Rows.{row_as};
ghost use Rattle.capture_difference.specs.Rows.Row.{First, Second};
ghost use Rattle.capture_frames.specs.Frames.{frame_as};

use crate::nearest::{Meeting, nearest};
use crate::row::Row;
use capture_frames::CapturedFrame;
use std::alloc::{AllocError, Global};

// The first frames.
fn front(frames: &[CapturedFrame], count: usize) -> &[CapturedFrame]
    ensures { result.now ≡ take count frames.now }
{
    if count < frames.len() {
        &frames[..count]
    } else {
        frames
    }
}

// The same, by what they say.
#[tactic(auto, using(crate::proofs::Laying::front_as))]
fn told_front(frames: &[CapturedFrame], count: usize) -> &[CapturedFrame]
    ensures { map frame_as result.now ≡ take count (map frame_as frames.now) }
{
    front(frames, count)
}

// The frame at a place.
#[tactic(auto, using(crate::proofs::Laying::some_at, crate::proofs::Laying::none_at))]
fn frame_at(frames: &[CapturedFrame], place: usize) -> Option<&CapturedFrame>
    ensures { option_map frame_as (option_copied result) ≡ slice_get (map frame_as frames.now) place }
{
    match frames.get(place) {
        Some(frame) => Some(frame),
        None => None,
    }
}

// The frames after so many.
fn after(frames: &[CapturedFrame], count: usize) -> &[CapturedFrame]
    ensures { result.now ≡ drop count frames.now }
{
    if count < frames.len() {
        &frames[count..]
    } else {
        &[]
    }
}

// The frames after so many and one more.
#[tactic(auto, using(crate::proofs::Laying::past_as))]
fn past(frames: &[CapturedFrame], count: usize) -> &[CapturedFrame]
    ensures { map frame_as result.now ≡ past count (map frame_as frames.now) }
{
    after(after(frames, count), 1)
}

// Adds a row.
#[tactic(auto, using(crate::proofs::Laying::row_put))]
fn push<'a>(rows: &mut Vec<Row<'a>>, row: Row<'a>) -> Result<(), AllocError>
    ensures { OnOk result (map row_as rows.new.items ≡ map row_as rows.old.items ++ row_as row.entry ∷ []) }
{
    rows.push(row)?;
    Ok(())
}

// Adds frames that the first capture has alone.
#[tactic(auto, using(crate::proofs::Laying::row_more))]
fn add_first<'a>(rows: &mut Vec<Row<'a>>, frames: &'a [CapturedFrame]) -> Result<(), AllocError>
    ensures { OnOk result (map row_as rows.new.items ≡ map row_as rows.old.items ++ map First (map frame_as frames.now)) }
{
    let mut rest = frames;
    'frames: while let [frame, others @ ..] = rest {
        push(rows, Row::First(frame))?;
        rest = others;
    }
    Ok(())
}

// Adds frames that the second one has alone.
#[tactic(auto, using(crate::proofs::Laying::row_more))]
fn add_second<'a>(rows: &mut Vec<Row<'a>>, frames: &'a [CapturedFrame]) -> Result<(), AllocError>
    ensures { OnOk result (map row_as rows.new.items ≡ map row_as rows.old.items ++ map Second (map frame_as frames.now)) }
{
    let mut rest = frames;
    'frames: while let [frame, others @ ..] = rest {
        push(rows, Row::Second(frame))?;
        rest = others;
    }
    Ok(())
}

// Adds frames that one of them has alone.
#[tactic(auto, using(crate::proofs::Laying::in_turn))]
fn add_alone<'a>(
    rows: &mut Vec<Row<'a>>,
    xs: &'a [CapturedFrame],
    ys: &'a [CapturedFrame],
) -> Result<(), AllocError>
    ensures { OnOk result (map row_as rows.new.items ≡ map row_as rows.old.items ++ alone (map frame_as xs.now) (map frame_as ys.now)) }
{
    add_first(rows, xs)?;
    add_second(rows, ys)
}

// Adds a frame of both, or of the one that has it.
#[tactic(auto, using(crate::proofs::Laying::row_put, crate::proofs::Laying::no_row))]
fn add_met<'a>(
    rows: &mut Vec<Row<'a>>,
    x: Option<&'a CapturedFrame>,
    y: Option<&'a CapturedFrame>,
) -> Result<(), AllocError>
    ensures { OnOk result (map row_as rows.new.items ≡ map row_as rows.old.items ++ met (option_map frame_as (option_copied x.entry)) (option_map frame_as (option_copied y.entry))) }
{
    match x {
        None => match y {
            None => Ok(()),
            Some(second) => push(rows, Row::Second(second)),
        },
        Some(first) => match y {
            None => push(rows, Row::First(first)),
            Some(second) => push(rows, Row::Both(first, second)),
        },
    }
}

// Adds the frames up to the next one of both.
fn add_up_to<'a>(
    rows: &mut Vec<Row<'a>>,
    xs: &'a [CapturedFrame],
    ys: &'a [CapturedFrame],
    meeting: Meeting,
) -> Result<(), AllocError>
    ensures { OnOk result (map row_as rows.new.items ≡ map row_as rows.old.items ++ up_to (map frame_as xs.now) (map frame_as ys.now) meeting) }
{
    let first = told_front(xs, meeting.first);
    let second = told_front(ys, meeting.second);
    add_alone(rows, first, second)?;
    let x = frame_at(xs, meeting.first);
    let y = frame_at(ys, meeting.second);
    add_met(rows, x, y)?;
    Ok(())
}

/// The frames of two captures beside each other.
///
/// # Errors
///
/// Want of memory.
#[tactic(auto, using(crate::proofs::Laying::none_more, crate::proofs::Laying::none_left))]
pub(crate) fn align<'a>(
    alloc: Global,
    first: &'a [CapturedFrame],
    second: &'a [CapturedFrame],
) -> Result<Vec<Row<'a>>, AllocError>
    ensures { IfOk result (λ rows. map row_as rows.items ≡ aligned (map frame_as first.now) (map frame_as second.now)) }
{
    let mut rows = Vec::new(alloc);
    let mut xs = first;
    let mut ys = second;
    let mut left = first.len();
    'meetings: while left > 0 {
        let Some(meeting) = nearest(xs, ys) else {
            add_alone(&mut rows, xs, ys)?;
            return Ok(rows);
        };
        add_up_to(&mut rows, xs, ys, meeting)?;
        xs = past(xs, meeting.first);
        ys = past(ys, meeting.second);
        left -= 1;
    }
    add_alone(&mut rows, xs, ys)?;
    Ok(rows)
}
