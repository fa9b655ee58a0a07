//! The difference of two captures, written.
ghost use Rattle.std.specs.Prelude.{◌≡◌, map, IfOk};
ghost use Rattle.line_reading.specs.Windows.{AreWindows};
ghost use Rattle.capture_monitor.specs.Watch.{captured_by};
ghost use Rattle.capture_difference.specs.Rows.{row_as};
ghost use Rattle.capture_difference.specs.Written.{AreRowsWritten, IsDifferenceWritten};
ghost use Rattle.capture_frames.specs.Frames.{frame_as, frames_in};

use crate::align::align;
use crate::lines::add_lines;
use crate::row::Row;
use capture_core::Capture;
use capture_frames::{CapturedFrame, frames_heard};
use line_reading::Windows;
use record_core::Form;
use std::alloc::Global;
use text_core::{Counted, Sink, WriteFault};
use thiserror::Error;

/// Why the difference of two captures is not written, or not all of it.
#[derive(Debug, Drop, Error)]
pub enum DifferenceError {
    /// A `put` took none: the front of the difference was written, as long as it reports.
    #[error("{0}")]
    Write(WriteFault),
    /// Nothing was written.
    #[error("no memory")]
    Memory,
}

// Writes rows. Returns whether none differs.
fn write_rows<S: Sink>(rows: &[Row<'_>], form: Form, out: &mut S) -> Result<bool, DifferenceError>
    ensures { AreRowsWritten form (map row_as rows.now) (S.contents out.old) (S.contents out.new) (S.is_stuck out.old) (S.is_stuck out.new) result }
{
    let mut text = Counted::new(out);
    let same = add_lines(&mut text, form, rows);
    let written = text.written();
    // No effect at run time. The proof reads what `out` holds from the sink that comes back.
    let _below = text.into_sink();
    match written {
        Ok(_) => Ok(same),
        Err(fault) => Err(DifferenceError::Write(fault)),
    }
}

// Writes the difference of captures with these frames.
#[tactic(auto, using(crate::proofs::Writing::rows_written))]
fn write_frames<S: Sink>(
    alloc: Global,
    first: &[CapturedFrame],
    second: &[CapturedFrame],
    form: Form,
    out: &mut S,
) -> Result<bool, DifferenceError>
    ensures { IsDifferenceWritten form (map frame_as first.now) (map frame_as second.now) (S.contents out.old) (S.contents out.new) (S.is_stuck out.old) (S.is_stuck out.new) result }
{
    let Ok(rows) = align(alloc, first, second) else {
        return Err(DifferenceError::Memory);
    };
    write_rows(&rows, form, out)
}

/// Writes how two captures of one dialogue differ, its lines or their objects: first the first frame that one of them lacks or has with
/// another verdict, or that both have the same frames; then the frames of both in order, with when each begins. The frames are
/// those that a monitor reads by these windows, and are held in memory. Returns whether both have the same frames with the same
/// verdicts.
///
/// # Errors
///
/// Want of memory: then nothing was written. A failed write: then the front of the lines was written, as long as it reports.
#[tactic(auto, using(crate::proofs::Writing::difference_written))]
pub fn write_capture_difference<S: Sink>(
    alloc: Global,
    first: &Capture,
    second: &Capture,
    windows: Windows,
    form: Form,
    out: &mut S,
) -> Result<bool, DifferenceError>
    requires { AreWindows windows }
    ensures { IsDifferenceWritten form (frames_in (captured_by windows first.now)) (frames_in (captured_by windows second.now)) (S.contents out.old) (S.contents out.new) (S.is_stuck out.old) (S.is_stuck out.new) result }
{
    let Ok(xs) = frames_heard(alloc, first, windows) else {
        return Err(DifferenceError::Memory);
    };
    let Ok(ys) = frames_heard(alloc, second, windows) else {
        return Err(DifferenceError::Memory);
    };
    write_frames(alloc, &xs, &ys, form, out)
}
