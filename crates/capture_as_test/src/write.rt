//! The test of a capture, written.
ghost use Rattle.std.specs.Prelude.{map};
ghost use Rattle.capture_as_test.specs.Lines.{test_of};
ghost use Rattle.capture_as_test.specs.Written.{IsTestWritten, IsTextWritten};
ghost use Rattle.capture_frames.specs.Frames.{frame_as};

use crate::lines::add_test;
use crate::remarks::is_remarked;
use capture_core::Capture;
use capture_frames::{CapturedFrame, frames_heard};
use line_reading::STANDARD;
use std::alloc::Global;
use text_core::{Counted, Sink, WriteFault};
use thiserror::Error;

/// Why the test of a capture is not written, or not all of it.
#[derive(Debug, Drop, Error)]
pub enum AsTestError {
    /// A `put` took none: the front of the test was written, as long as it reports.
    #[error("{0}")]
    Write(WriteFault),
    /// Nothing was written.
    #[error("no memory")]
    Memory,
}

// Writes the test of a capture with these frames.
fn write_test<S: Sink>(
    frames: &[CapturedFrame],
    remarked: bool,
    out: &mut S,
) -> Result<(), AsTestError>
    ensures { IsTextWritten (test_of (map frame_as frames.now) remarked) (S.contents out.old) (S.contents out.new) (S.is_stuck out.old) (S.is_stuck out.new) result }
{
    let mut test = Counted::new(out);
    add_test(&mut test, frames, remarked);
    let written = test.written();
    // No effect at run time. The proof reads what `out` holds from the sink that comes back.
    let _below = test.into_sink();
    match written {
        Ok(_) => Ok(()),
        Err(fault) => Err(AsTestError::Write(fault)),
    }
}

/// Writes the expectations that a capture meets, as `check --capture` takes them, with the line above the capture last: a line for
/// each frame with its verdict, within the time that it took, rounded up to one of the standard's (CEC 9.2), then how many frames
/// there are, and that the audit has no remark, where it has none. The frames are held in memory.
///
/// # Errors
///
/// Want of memory: then nothing was written. A failed write: then the front of the test was written, as long as it reports.
#[tactic(auto, using(line_reading::proofs::Standard::standard_are, crate::proofs::Writing::written_as))]
pub fn write_as_test<S: Sink>(
    alloc: Global,
    capture: &Capture,
    out: &mut S,
) -> Result<(), AsTestError>
    ensures { IsTestWritten capture.now (S.contents out.old) (S.contents out.new) (S.is_stuck out.old) (S.is_stuck out.new) result }
{
    let Ok(frames) = frames_heard(alloc, capture, STANDARD) else {
        return Err(AsTestError::Memory);
    };
    let remarked = is_remarked(capture);
    write_test(&frames, remarked, out)
}
