//! The lines of a test.
ghost use Rattle.std.specs.Prelude.{◌≡◌, ◌+◌, ◌<◌, ◌++◌, codes, map};
ghost use Rattle.text_core.specs.Adds.{Adds};
ghost use Rattle.capture_as_test.specs.Lines.{count_line, first_line, frame_line, frames_text, later_line, remark_text, test_of};
ghost use Rattle.capture_as_test.specs.Pattern.{pattern_as};
ghost use Rattle.capture_frames.specs.Frames.{frame_as};

use crate::pattern::{Pattern, pattern_of};
use crate::timing::duration;
use capture_frames::CapturedFrame;
use text_core::{Counted, Piece, Sink};

// Adds the line of the first frame.
fn add_first<S: Sink>(out: &mut Counted<'_, S>, pattern: &Pattern<'_>)
    ensures { Adds out.old out.new (first_line (pattern_as pattern.now)) }
{
    out.add_line(&[
        Piece::Text("label f1 expect from 0 to 18446744073709551615 "),
        Piece::Bytes(pattern.text),
        Piece::Text(pattern.gap),
        Piece::Bytes(pattern.verdict),
        Piece::Text("\n"),
    ]);
}

// Adds the line of a frame that comes after so many, within a time of the one before.
fn add_later<S: Sink>(out: &mut Counted<'_, S>, number: u64, within: u64, pattern: &Pattern<'_>)
    requires { number + 1 < 18446744073709551616 }
    ensures { Adds out.old out.new (later_line number within (pattern_as pattern.now)) }
{
    out.add_line(&[
        Piece::Text("label f"),
        Piece::Decimal(number + 1),
        Piece::Text(" expect within "),
        Piece::Decimal(within),
        Piece::Text(" of f"),
        Piece::Decimal(number),
        Piece::Text(" "),
        Piece::Bytes(pattern.text),
        Piece::Text(pattern.gap),
        Piece::Bytes(pattern.verdict),
        Piece::Text("\n"),
    ]);
}

// Adds the line of a frame that comes after so many, of which the last ended at an instant.
fn add_frame<S: Sink>(out: &mut Counted<'_, S>, number: u64, end: u64, frame: &CapturedFrame)
    requires { number + 1 < 18446744073709551616 }
    ensures { Adds out.old out.new (frame_line number end (frame_as frame.now)) }
{
    let pattern = pattern_of(frame);
    if number == 0 {
        add_first(out, &pattern);
    } else {
        add_later(out, number, duration(end, frame), &pattern);
    }
}

// Adds the lines of frames, in order.
#[tactic(auto, using(crate::proofs::Frames::none_added, crate::proofs::Frames::all_added))]
fn add_frames<S: Sink>(out: &mut Counted<'_, S>, frames: &[CapturedFrame])
    ensures { Adds out.old out.new (frames_text 0 0 (map frame_as frames.now)) }
{
    let mut number = 0u64;
    let mut end = 0u64;
    let mut rest = frames;
    'frames: while let [frame, others @ ..] = rest {
        add_frame(out, number, end, frame);
        number += 1;
        end = frame.close;
        rest = others;
    }
}

// Adds the line that says how many frames there are.
fn add_count<S: Sink>(out: &mut Counted<'_, S>, count: u64)
    ensures { Adds out.old out.new (count_line count) }
{
    out.add_line(&[
        Piece::Text("expect exactly "),
        Piece::Decimal(count),
        Piece::Text(" from 0 to 18446744073709551615 *>*\n"),
    ]);
}

// Adds that the audit has no remark, where it has none.
#[tactic(auto, using(text_core::proofs::Adding::nothing))]
fn add_remark<S: Sink>(out: &mut Counted<'_, S>, remarked: bool)
    ensures { Adds out.old out.new (remark_text remarked) }
{
    if remarked {
        return;
    }
    out.add(b"expect no-remark\n");
}

/// Adds the test of a capture with these frames, of whose audit it is known whether it has a remark.
#[tactic(auto, using(crate::proofs::Frames::four))]
pub(crate) fn add_test<S: Sink>(out: &mut Counted<'_, S>, frames: &[CapturedFrame], remarked: bool)
    ensures { Adds out.old out.new (test_of (map frame_as frames.now) remarked) }
{
    add_frames(out, frames);
    add_count(out, frames.len() as u64);
    add_remark(out, remarked);
    out.add(b"capture\n");
}
