//! Frames of two captures beside each other.
ghost use Rattle.std.specs.Prelude.{◌≡◌, map, option_map};
ghost use Rattle.capture_difference.specs.Rows.{difference_as, first_from, frame_of, is_one, is_same, is_same_row, place_of, row_as};
ghost use Rattle.capture_frames.specs.Frames.{frame_as};

use capture_frames::CapturedFrame;

/// A frame of both captures, or of one of them alone.
#[derive(Clone, Copy)]
pub(crate) enum Row<'a> {
    Both(&'a CapturedFrame, &'a CapturedFrame),
    First(&'a CapturedFrame),
    Second(&'a CapturedFrame),
}

/// The first row with a difference, and how many stand above it.
#[derive(Clone, Copy)]
pub(crate) struct FirstDifference<'a> {
    pub(crate) common: u64,
    pub(crate) row: Row<'a>,
}

/// Whether two frames are one, whatever their verdicts.
pub(crate) fn is_one(first: &CapturedFrame, second: &CapturedFrame) -> bool
    ensures { result ≡ is_one (frame_as first.now) (frame_as second.now) }
{
    first.text.as_slice() == second.text.as_slice()
}

/// Whether they have the same verdict too.
pub(crate) fn is_same(first: &CapturedFrame, second: &CapturedFrame) -> bool
    ensures { result ≡ is_same (frame_as first.now) (frame_as second.now) }
{
    is_one(first, second) && first.verdict == second.verdict
}

fn is_same_row(row: &Row<'_>) -> bool
    ensures { result ≡ is_same_row (row_as row.now) }
{
    match *row {
        Row::Both(first, second) => is_same(first, second),
        Row::First(_) | Row::Second(_) => false,
    }
}

/// Where the difference of a row lies.
pub(crate) fn place_of(row: &Row<'_>) -> &'static str
    ensures { result.now ≡ place_of (row_as row.now) }
{
    match *row {
        Row::Both(..) => "other-verdict",
        Row::First(_) => "in-first",
        Row::Second(_) => "in-second",
    }
}

/// The frame of a row, of both that of the first capture.
pub(crate) fn frame_of<'a>(row: &Row<'a>) -> &'a CapturedFrame
    ensures { frame_as result.now ≡ frame_of (row_as row.now) }
{
    match *row {
        Row::Both(frame, _) | Row::First(frame) | Row::Second(frame) => frame,
    }
}

/// The first row with a difference.
pub(crate) fn first_difference<'a>(rows: &[Row<'a>]) -> Option<FirstDifference<'a>>
    ensures { option_map difference_as result ≡ first_from 0 (map row_as rows.now) }
{
    let mut common = 0u64;
    let mut rest = rows;
    'rows: while let [row, others @ ..] = rest {
        if !is_same_row(row) {
            return Some(FirstDifference { common, row: *row });
        }
        common += 1;
        rest = others;
    }
    None
}
